//! The statements of lists (C89, 3.6.2).

ghost use Rattle.std.specs.Prelude.{◌≡◌, ◌+◌, ◌≤◌, false, IfOk};
ghost use Rattle.c_tree.specs.declared.program.Program.{Program};
ghost use Rattle.c_tables.specs.Tables.{tables_shape};
ghost use Rattle.c_meaning.specs.State.{State};
ghost use Rattle.c_meaning.specs.Results.{then_do};
ghost use Rattle.c_meaning.specs.Firsts.{quiet};
ghost use Rattle.c_meaning.specs.Statements.{here, after_one, out_of_switch, items_flow};
ghost use Rattle.c_plan.specs.Parts.{items_left};
ghost use Rattle.c_machine.specs.Todo.{gone_on, knot_of, behind, Leaves, OnMore, OnStep, OnNone, open_scopes, all_weights, machine_size};

use super::Machine;
use crate::parts::{Step, Waiting};
use c_base::place::NoMemory;
use c_meaning::end::Flow;
use c_plan::sequence::{Cut, Sequence};

impl<'p> Machine<'p> {
    // The statements of a list.
    #[inline(always)]
    pub(super) fn list(&mut self, sequence: Sequence<'p>) -> Result<Step, NoMemory>
        ensures left { IfOk result (λ a. Leaves a self.new self.old (λ t k. items_flow t k here false (items_left sequence.entry) (quiet sequence.entry.before))) }
        ensures scopes { IfOk result (λ a. open_scopes self.new.waiting.items ≡ open_scopes self.old.waiting.items) }
        ensures size { IfOk result (λ a. machine_size self.new ≡ 1 + all_weights self.old.waiting.items) }
        ensures more { IfOk result (λ a. a ≡ Step.More) }
    {
        match sequence.cut() {
            Cut::Done => Ok(self.leave(Flow::Next)),
            Cut::First(_, first, rest) => {
                self.wait(Waiting::Rest(rest))?;
                Ok(self.open_at(first))
            }
        }
    }

    // A statement of a list was left: the next one, or none where that leaves the list.
    #[inline(always)]
    pub(super) fn leave_one(
        &mut self,
        sequence: Sequence<'p>,
        flow: Flow,
    ) -> Result<Option<Step>, NoMemory>
        ensures left { IfOk result (λ a. (p : Program) (s : State) → gone_on (tables_shape p.tables) (knot_of p) a self.new flow s ≡ then_do (after_one (items_flow (tables_shape p.tables) (knot_of p) here false (items_left sequence.entry) (quiet sequence.entry.before)) flow s) (behind (tables_shape p.tables) (knot_of p) self.old)) }
        ensures scopes { IfOk result (λ a. open_scopes self.new.waiting.items ≡ open_scopes self.old.waiting.items) }
        ensures size { IfOk result (λ a. OnStep a (machine_size self.new ≤ 1 + all_weights self.old.waiting.items)) }
        ensures passed { IfOk result (λ a. OnNone a (self.new ≡ self.old)) }
    {
        match flow {
            Flow::Next => match sequence.cut() {
                Cut::Done => Ok(None),
                Cut::First(_, first, rest) => {
                    self.wait(Waiting::Rest(rest))?;
                    Ok(Some(self.open_at(first)))
                }
            },
            Flow::Break | Flow::Continue | Flow::Return(_) => Ok(None),
        }
    }

    // The statements of a `switch` were left.
    #[inline(always)]
    pub(super) fn leave_switch(&mut self, flow: Flow) -> Step
        ensures left { Leaves result self.new self.old (λ t k. out_of_switch flow) }
        ensures scopes { open_scopes self.new.waiting.items ≡ open_scopes self.old.waiting.items }
        ensures size { OnMore result (machine_size self.new ≤ 1 + all_weights self.old.waiting.items) }
    {
        match flow {
            Flow::Break => self.leave(Flow::Next),
            Flow::Next | Flow::Continue | Flow::Return(_) => self.leave(flow),
        }
    }
}
