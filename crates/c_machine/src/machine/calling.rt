//! Calls, begun: the function is entered, and its body begins (C89, 3.3.2.2).

ghost use Rattle.std.specs.Prelude.{◌≡◌, ◌+◌, ◌*◌, ◌<◌, List, [], ◌∷◌, Some, IfOk, OnOk};
ghost use Rattle.c_events.specs.declared.events.Event.{Event};
ghost use Rattle.c_syntax.specs.View.{decl_form_shape, compound_shape};
ghost use Rattle.c_tables.specs.Tables.{tables_shape};
ghost use Rattle.c_meaning.specs.Firsts.{quiet};
ghost use Rattle.c_meaning.specs.Results.{then_do, turn};
ghost use Rattle.c_meaning.specs.Counts.{signature_variables};
ghost use Rattle.c_meaning.specs.Statements.{marks_log, compound_flow};
ghost use Rattle.c_meaning.specs.Calls.{routine};
ghost use Rattle.c_meaning.specs.Runs.{silent};
ghost use Rattle.c_plan.specs.Routines.{routine_of};
ghost use Rattle.c_meaning.specs.Sources.{source_of};
ghost use Rattle.c_world.specs.Names.{scope_counts};
ghost use Rattle.c_world.specs.World.{state_of, Same};
ghost use Rattle.c_eval.specs.Rest.{weights};
ghost use Rattle.c_machine.specs.Todo.{entered_flow, resumed, behind, knot_of, begun_left, OnRunning, left_after, LeavesIn, Tied, OnMore, IsOn, open_scopes, all_weights, machine_size};

use super::{Begun, Machine};
use crate::parts::{Active, Step, Use, Waiting};
use crate::running::Ended;
use c_base::place::NoMemory;
use c_eval::frame::{Focus, Frame};
use c_eval::work::Work;
use c_machine_direct::marks::log_marks;
use c_meaning::end::Stop;
use c_plan::plan::Plan;
use c_plan::routines::Routine;
use c_store::value::Value;
use c_world::world::World;
use std::alloc::Global;
use std::mem;

impl<'p> Machine<'p> {
    /// A run that begins with a call of the function of that number, without arguments; plan and world are of one program, and
    /// no call is active. Turns, Depth, Room or a fault comes exactly where the definition stops there.
    pub fn begin_run(
        alloc: Global,
        plan: &'p Plan<'p>,
        world: &mut World<'p>,
        function: u32,
    ) -> Result<Begun<'p>, NoMemory>
        requires program { world.old.program.now ≡ plan.now.program.now }
        requires none { scope_counts world.old.names.calls ≡ [] }
        ensures left { IfOk result (λ b. (h : List Event) → begun_left (tables_shape plan.now.program.now.tables) (knot_of plan.now.program.now) b (state_of world.new h) ≡ (knot_of plan.now.program.now).call function [] (state_of world.old h)) }
        ensures tied { IfOk result (λ b. OnRunning b (λ m. Tied m world.new)) }
        ensures same { OnOk result (Same world.old world.new) }
    {
        let mut machine = Machine {
            function,
            active: Active::Busy,
            work: Work {
                focus: Focus::Given(None),
                stack: Vec::new(alloc),
                spare: Vec::new(alloc),
                alloc,
            },
            used: Use::Discard,
            waiting: Vec::new(alloc),
            spare: Vec::new(alloc),
            ended: Ended::Returned(None),
        };
        match machine.enter(plan, world, function, &[])? {
            Step::More => Ok(Begun::Running(machine)),
            Step::Ended => match machine.ended {
                Ended::Stopped(why) => Ok(Begun::Stopped(why)),
                Ended::Returned(_) => unreachable!(),
            },
        }
    }

    // A call in an expression (C89, 3.3.2.2), of which the rest waits for the result.
    pub(super) fn call(
        &mut self,
        plan: &'p Plan<'p>,
        world: &mut World<'p>,
        function: u32,
        args: Vec<Value>,
    ) -> Result<Step, NoMemory>
        requires program { world.old.program.now ≡ plan.now.program.now }
        requires tied { Tied self.old world.old }
        ensures left { IfOk result (λ a. (h : List Event) → left_after (tables_shape plan.now.program.now.tables) (knot_of plan.now.program.now) a self.new (state_of world.new h) ≡ then_do ((knot_of plan.now.program.now).call function args.items (state_of world.old h)) (resumed (tables_shape plan.now.program.now.tables) (knot_of plan.now.program.now) self.old.work.stack.items self.old.used (behind (tables_shape plan.now.program.now.tables) (knot_of plan.now.program.now) self.old))) }
        ensures tied { IfOk result (λ a. OnMore a (Tied self.new world.new)) }
        ensures falls { IfOk result (λ a. OnMore a (12 * world.new.turns + machine_size self.new < 12 * world.old.turns + 3 + 3 * weights self.old.work.stack.items + all_weights self.old.waiting.items)) }
        ensures same { OnOk result (Same world.old world.new) }
    {
        let used = self.used;
        let empty = self.empty_stack();
        let frames = mem::replace(&mut self.work.stack, empty);
        self.wait(Waiting::Caller(function, frames, used))?;
        let step = self.enter(plan, world, function, &args)?;
        self.work.spare = args;
        Ok(step)
    }

    // An empty stack, in the room of one that is done with.
    #[inline(always)]
    fn empty_stack(&mut self) -> Vec<Frame<'p>>
        ensures empty { result.items ≡ [] }
        ensures same { self.new ≡ record self.old { spare = self.new.spare } }
    {
        match self.spare.pop() {
            None => Vec::new(self.work.alloc),
            Some(stack) => {
                let mut stack = stack;
                stack.clear();
                stack
            }
        }
    }

    // The function is entered, where there is one with that number.
    fn enter(
        &mut self,
        plan: &'p Plan<'p>,
        world: &mut World<'p>,
        function: u32,
        args: &[Value],
    ) -> Result<Step, NoMemory>
        requires program { world.old.program.now ≡ plan.now.program.now }
        requires tied { 1 ∷ scope_counts world.old.names.calls ≡ open_scopes self.old.waiting.items }
        ensures left { IfOk result (λ a. LeavesIn plan.now.program.now a self.new world.new self.old world.old (λ t k. entered_flow t k function (routine (source_of plan.now.program.now) silent function) args.now)) }
        ensures goes { IfOk result (λ a. IsOn a self.new) }
        ensures tied { IfOk result (λ a. OnMore a (Tied self.new world.new)) }
        ensures falls { IfOk result (λ a. OnMore a (12 * world.new.turns + machine_size self.new < 12 * world.old.turns + all_weights self.old.waiting.items)) }
        ensures same { OnOk result (Same world.old world.new) }
    {
        let Some(called) = world.routine(function) else {
            return Ok(self.untyped());
        };
        match world.enter(function, &called, args)? {
            Some(why) => Ok(self.stop(why)),
            None => {
                let step = self.body(plan, world, function, &called)?;
                Ok(step)
            }
        }
    }

    // The body of a function, behind its parameters: its probes, and then its turn.
    fn body(
        &mut self,
        plan: &'p Plan<'p>,
        world: &mut World<'p>,
        function: u32,
        called: &Routine<'p>,
    ) -> Result<Step, NoMemory>
        requires program { world.old.program.now ≡ plan.now.program.now }
        requires tied { Tied self.old world.old }
        requires found { routine (source_of plan.now.program.now) silent function ≡ Some (routine_of called.now) }
        ensures left { IfOk result (λ a. LeavesIn plan.now.program.now a self.new world.new self.old world.old (λ t k s. marks_log called.now.marks.now s (λ s. turn s (compound_flow t k (compound_shape called.now.body.now) (quiet (called.now.before + signature_variables (decl_form_shape called.now.params.now))))))) }
        ensures goes { IfOk result (λ a. IsOn a self.new) }
        ensures tied { IfOk result (λ a. OnMore a (Tied self.new world.new)) }
        ensures falls { IfOk result (λ a. OnMore a (12 * world.new.turns + machine_size self.new < 12 * world.old.turns + all_weights self.old.waiting.items)) }
        ensures same { OnOk result (Same world.old world.new) }
    {
        if !log_marks(world, called.marks)? {
            return Ok(self.untyped());
        }
        let step = self.turn_to_body(plan, world, function, called)?;
        Ok(step)
    }

    // The turn of a body, and what it declares.
    #[inline(always)]
    fn turn_to_body(
        &mut self,
        plan: &'p Plan<'p>,
        world: &mut World<'p>,
        function: u32,
        called: &Routine<'p>,
    ) -> Result<Step, NoMemory>
        requires program { world.old.program.now ≡ plan.now.program.now }
        requires tied { Tied self.old world.old }
        requires found { routine (source_of plan.now.program.now) silent function ≡ Some (routine_of called.now) }
        ensures left { IfOk result (λ a. LeavesIn plan.now.program.now a self.new world.new self.old world.old (λ t k s. turn s (compound_flow t k (compound_shape called.now.body.now) (quiet (called.now.before + signature_variables (decl_form_shape called.now.params.now)))))) }
        ensures goes { IfOk result (λ a. IsOn a self.new) }
        ensures tied { IfOk result (λ a. OnMore a (Tied self.new world.new)) }
        ensures falls { IfOk result (λ a. OnMore a (12 * world.new.turns + machine_size self.new < 12 * world.old.turns + all_weights self.old.waiting.items)) }
        ensures same { OnOk result (Same world.old world.new) }
    {
        if world.turn() {
            let step = self.declare(plan, world, plan.body(function, called))?;
            return Ok(step);
        }
        Ok(self.stop(Stop::Turns))
    }
}
