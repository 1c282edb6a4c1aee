//! What waits or follows behind a step.

ghost use Rattle.std.specs.Prelude.{◌≡◌, ◌+◌, false, OnOk};
ghost use Rattle.c_syntax.specs.View.{node_shape, stmt_shape};
ghost use Rattle.c_tables.specs.Tables.{TablesShape};
ghost use Rattle.c_meaning.specs.State.{State};
ghost use Rattle.c_meaning.specs.Results.{Gives, Stops, then_do};
ghost use Rattle.c_meaning.specs.Firsts.{quiet};
ghost use Rattle.c_meaning.specs.Knot.{Knot};
ghost use Rattle.c_meaning.specs.Statements.{flow};
ghost use Rattle.c_eval_once.specs.Parts.{value};
ghost use Rattle.c_machine.specs.Todo.{uses, waits, behind, left_after, Leaves, scopes_with, open_scopes, weight, all_weights, machine_size};

use super::Machine;
use crate::parts::{Active, Step, Use, Waiting};
use crate::running::Ended;
use c_base::place::NoMemory;
use c_meaning::end::{Flow, Stop};
use c_plan::placed::Placed;
use c_store::value::{Fault, Value};
use c_syntax::tree::Node;

#[tactic(auto, using(crate::proofs::Stacks::waits_push, crate::proofs::Stacks::scopes_push, crate::proofs::Stacks::weights_push))]
impl<'p> Machine<'p> {
    // One thing more waits.
    #[inline(always)]
    pub(super) fn wait(&mut self, waiting: Waiting<'p>) -> Result<(), NoMemory>
        ensures behind { OnOk result ((t : TablesShape) (k : Knot) → behind t k self.new ≡ waits t k waiting.entry (behind t k self.old)) }
        ensures scopes { OnOk result (open_scopes self.new.waiting.items ≡ scopes_with waiting.entry (open_scopes self.old.waiting.items)) }
        ensures weights { OnOk result (all_weights self.new.waiting.items ≡ weight waiting.entry + all_weights self.old.waiting.items) }
    {
        match self.waiting.push(waiting) {
            Ok(()) => Ok(()),
            Err(_) => Err(NoMemory),
        }
    }

    // A way in which a statement leaves.
    #[inline(always)]
    pub(super) fn leave(&mut self, flow: Flow) -> Step
        ensures left { Leaves result self.new self.old (λ t k s. Gives flow s) }
        ensures scopes { open_scopes self.new.waiting.items ≡ open_scopes self.old.waiting.items }
        ensures size { machine_size self.new ≡ 1 + all_weights self.old.waiting.items }
        ensures more { result ≡ Step.More }
    {
        self.active = Active::Left(flow);
        Step::More
    }

    // An expression, whose value is used.
    #[inline(always)]
    pub(super) fn work_at(&mut self, node: &'p Node, used: Use<'p>) -> Step
        ensures left { (t : TablesShape) (k : Knot) (s : State) → left_after t k result self.new s ≡ then_do (value t k (node_shape node.now) s) (uses t k used.entry (behind t k self.old)) }
        ensures scopes { open_scopes self.new.waiting.items ≡ open_scopes self.old.waiting.items }
        ensures size { machine_size self.new ≡ all_weights self.old.waiting.items }
        ensures more { result ≡ Step.More }
    {
        self.work.restart(node);
        self.used = used;
        self.active = Active::Busy;
        Step::More
    }

    // A statement.
    #[inline(always)]
    pub(super) fn open_at(&mut self, placed: Placed<'p>) -> Step
        ensures left { Leaves result self.new self.old (λ t k. flow t k false (stmt_shape placed.entry.stmt.now) (quiet placed.entry.before)) }
        ensures scopes { open_scopes self.new.waiting.items ≡ open_scopes self.old.waiting.items }
        ensures size { machine_size self.new ≡ all_weights self.old.waiting.items }
        ensures more { result ≡ Step.More }
    {
        self.active = Active::Open(placed);
        Step::More
    }

    // The run ends so.
    #[inline(always)]
    fn end(&mut self, ended: Ended) -> Step
        ensures ended { result ≡ Step.Ended }
        ensures is { self.new ≡ record self.old { ended = ended } }
    {
        self.ended = ended;
        Step::Ended
    }

    // The first function has returned, with a value or without.
    #[inline(always)]
    pub(super) fn done(&mut self, value: Option<Value>) -> Step
        ensures left { (t : TablesShape) (k : Knot) (s : State) → left_after t k result self.new s ≡ Gives value s }
        ensures ended { result ≡ Step.Ended }
    {
        self.end(Ended::Returned(value))
    }

    // The run stops.
    #[inline(always)]
    pub(super) fn stop(&mut self, why: Stop) -> Step
        ensures left { (t : TablesShape) (k : Knot) (s : State) → left_after t k result self.new s ≡ Stops why s }
        ensures scopes { open_scopes self.new.waiting.items ≡ open_scopes self.old.waiting.items }
        ensures ended { result ≡ Step.Ended }
        ensures why { self.new.ended ≡ Ended.Stopped why }
    {
        self.end(Ended::Stopped(why))
    }

    // What no typed program does.
    #[inline(always)]
    pub(super) fn untyped(&mut self) -> Step
        ensures left { (t : TablesShape) (k : Knot) (s : State) → left_after t k result self.new s ≡ Stops (Stop.Fault Fault.NoResult) s }
        ensures scopes { open_scopes self.new.waiting.items ≡ open_scopes self.old.waiting.items }
        ensures ended { result ≡ Step.Ended }
        ensures why { self.new.ended ≡ Ended.Stopped (Stop.Fault Fault.NoResult) }
    {
        self.stop(Stop::Fault(Fault::NoResult))
    }
}
