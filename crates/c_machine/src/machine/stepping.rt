//! One step of a call.

ghost use Rattle.std.specs.Prelude.{◌≡◌, ◌+◌, ◌*◌, ◌<◌, ◌≤◌, List, ℕ, IfOk, OnOk};
ghost use Rattle.c_events.specs.declared.events.Event.{Event};
ghost use Rattle.c_syntax.specs.View.{form_shape};
ghost use Rattle.c_tables.specs.Tables.{tables_shape};
ghost use Rattle.c_meaning.specs.Results.{then_do};
ghost use Rattle.c_world.specs.Names.{scope_counts};
ghost use Rattle.c_world.specs.World.{state_of, Same};
ghost use Rattle.c_eval.specs.Rest.{rest_after, size_after, Lower};
ghost use Rattle.c_machine.specs.Todo.{scopes_with, stmt_flow, use_flow, uses, waits, behind, knot_of, left_in, left_after, gone_on, LeavesIn, Tied, OnMore, OnPassed, OnStep, OnNone, open_scopes, weight, all_weights, machine_size};

use super::Machine;
use crate::initial::write_initial;
use crate::parts::{Active, Purpose, Step, Use, Waiting};
use c_base::place::NoMemory;
use c_compute::operators::is_true;
use c_eval::frame::Step as Advance;
use c_meaning::end::Flow;
use c_plan::placed::Placed;
use c_plan::plan::Plan;
use c_store::value::Value;
use c_world::world::World;

impl<'p> Machine<'p> {
    /// One step: a statement with its probes and its turn, a way in which one was left for what waits for it, or a step of an
    /// expression with what takes its value. Turns, Depth, Room, an exit or a fault comes exactly where the definition stops
    /// there; an `Err` is want of memory alone.
    pub fn step(&mut self, plan: &'p Plan<'p>, world: &mut World<'p>) -> Result<Step, NoMemory>
        requires program { world.old.program.now ≡ plan.now.program.now }
        requires tied { Tied self.old world.old }
        ensures left { IfOk result (λ a. (h : List Event) → left_after (tables_shape plan.now.program.now.tables) (knot_of plan.now.program.now) a self.new (state_of world.new h) ≡ left_in (tables_shape plan.now.program.now.tables) (knot_of plan.now.program.now) self.old (state_of world.old h)) }
        ensures tied { IfOk result (λ a. OnMore a (Tied self.new world.new)) }
        ensures falls { IfOk result (λ a. OnMore a (12 * world.new.turns + machine_size self.new < 12 * world.old.turns + machine_size self.old)) }
        ensures same { OnOk result (Same world.old world.new) }
    {
        match self.active {
            Active::Open(placed) => {
                let step = self.open(plan, world, placed)?;
                Ok(step)
            }
            Active::Left(flow) => {
                let step = self.pass(plan, world, flow)?;
                Ok(step)
            }
            Active::Turn(turning) => {
                let step = self.next_at_once(plan, world, turning)?;
                Ok(step)
            }
            Active::Busy => {
                let advance = self.work.step(world.tables(), world)?;
                let step = self.busy(plan, world, advance)?;
                Ok(step)
            }
        }
    }

    // What follows a step of an expression.
    #[inline(always)]
    fn busy(
        &mut self,
        plan: &'p Plan<'p>,
        world: &mut World<'p>,
        advance: Advance,
    ) -> Result<Step, NoMemory>
        requires program { world.old.program.now ≡ plan.now.program.now }
        requires tied { Tied self.old world.old }
        requires busy { self.old.active ≡ Active.Busy }
        ensures left { IfOk result (λ a. (h : List Event) → left_after (tables_shape plan.now.program.now.tables) (knot_of plan.now.program.now) a self.new (state_of world.new h) ≡ then_do (rest_after (tables_shape plan.now.program.now.tables) (knot_of plan.now.program.now) advance self.old.work (state_of world.old h)) (uses (tables_shape plan.now.program.now.tables) (knot_of plan.now.program.now) self.old.used (behind (tables_shape plan.now.program.now.tables) (knot_of plan.now.program.now) self.old))) }
        ensures tied { IfOk result (λ a. OnMore a (Tied self.new world.new)) }
        ensures falls { IfOk result (λ a. (n : ℕ) → Lower advance (4 * world.old.turns + size_after advance self.old.work) n → OnMore a (12 * world.new.turns + machine_size self.new < 3 * n + all_weights self.old.waiting.items)) }
        ensures same { OnOk result (Same world.old world.new) }
    {
        match advance {
            Advance::More => Ok(Step::More),
            Advance::Answer(value) => {
                let step = self.take(plan, world, value)?;
                Ok(step)
            }
            Advance::Call(function, args) => {
                let step = self.call(plan, world, function, args)?;
                Ok(step)
            }
            Advance::Stopped(why) => Ok(self.stop(why)),
        }
    }

    // A value or none, for what takes it.
    #[inline(always)]
    fn take(
        &mut self,
        plan: &'p Plan<'p>,
        world: &mut World<'p>,
        value: Option<Value>,
    ) -> Result<Step, NoMemory>
        requires program { world.old.program.now ≡ plan.now.program.now }
        requires tied { Tied self.old world.old }
        ensures left { IfOk result (λ a. (h : List Event) → left_after (tables_shape plan.now.program.now.tables) (knot_of plan.now.program.now) a self.new (state_of world.new h) ≡ uses (tables_shape plan.now.program.now.tables) (knot_of plan.now.program.now) self.old.used (behind (tables_shape plan.now.program.now.tables) (knot_of plan.now.program.now) self.old) value (state_of world.old h)) }
        ensures tied { IfOk result (λ a. OnMore a (Tied self.new world.new)) }
        ensures size { IfOk result (λ a. OnMore a (12 * world.new.turns + machine_size self.new ≤ 12 * world.old.turns + 2 + all_weights self.old.waiting.items)) }
        ensures same { OnOk result (Same world.old world.new) }
    {
        match self.used {
            Use::Discard => {
                let step = self.pass(plan, world, Flow::Next)?;
                Ok(step)
            }
            Use::Return => match value {
                None => Ok(self.untyped()),
                Some(value) => {
                    let step = self.pass(plan, world, Flow::Return(Some(value)))?;
                    Ok(step)
                }
            },
            Use::Stmt(purpose, placed) => {
                let step = self.take_stmt(plan, world, purpose, placed, value)?;
                Ok(step)
            }
            Use::Init(instance, variable, name) => match value {
                None => Ok(self.untyped()),
                Some(value) => match write_initial(world, instance, variable, name, value)? {
                    None => Ok(self.leave(Flow::Next)),
                    Some(why) => Ok(self.stop(why)),
                },
            },
        }
    }

    // A value or none, for what it chooses in a statement.
    #[inline(always)]
    fn take_stmt(
        &mut self,
        plan: &'p Plan<'p>,
        world: &mut World<'p>,
        purpose: Purpose,
        placed: Placed<'p>,
        value: Option<Value>,
    ) -> Result<Step, NoMemory>
        requires program { world.old.program.now ≡ plan.now.program.now }
        requires tied { Tied self.old world.old }
        ensures left { IfOk result (λ a. LeavesIn plan.now.program.now a self.new world.new self.old world.old (λ t k. stmt_flow t k purpose (form_shape placed.entry.stmt.now.form) placed.entry.before value)) }
        ensures tied { IfOk result (λ a. OnMore a (Tied self.new world.new)) }
        ensures size { IfOk result (λ a. OnMore a (12 * world.new.turns + machine_size self.new ≤ 12 * world.old.turns + 2 + all_weights self.old.waiting.items)) }
        ensures same { OnOk result (Same world.old world.new) }
    {
        match purpose {
            Purpose::Again => {
                let step = self.again(plan, world, placed)?;
                Ok(step)
            }
            Purpose::Choose => match value {
                None => Ok(self.untyped()),
                Some(value) => Ok(self.choose(placed, is_true(value))),
            },
            Purpose::Test => match value {
                None => Ok(self.untyped()),
                Some(value) => {
                    let step = self.turn_if(placed, is_true(value))?;
                    Ok(step)
                }
            },
            Purpose::Switch => match value {
                None => Ok(self.untyped()),
                Some(value) => {
                    let step = self.switch(placed, value)?;
                    Ok(step)
                }
            },
        }
    }

    // A way in which a statement was left, for what waits for it: scopes that it ends and lists that it leaves are passed at once.
    #[inline(never)]
    pub(super) fn pass(
        &mut self,
        plan: &'p Plan<'p>,
        world: &mut World<'p>,
        flow: Flow,
    ) -> Result<Step, NoMemory>
        requires program { world.old.program.now ≡ plan.now.program.now }
        requires tied { Tied self.old world.old }
        ensures left { IfOk result (λ a. (h : List Event) → left_after (tables_shape plan.now.program.now.tables) (knot_of plan.now.program.now) a self.new (state_of world.new h) ≡ behind (tables_shape plan.now.program.now.tables) (knot_of plan.now.program.now) self.old flow (state_of world.old h)) }
        ensures tied { IfOk result (λ a. OnMore a (Tied self.new world.new)) }
        ensures falls { IfOk result (λ a. OnMore a (12 * world.new.turns + machine_size self.new < 12 * world.old.turns + 1 + all_weights self.old.waiting.items)) }
        ensures same { OnOk result (Same world.old world.new) }
    {
        while let Some(waiting) = self.waiting.pop() {
            let passed = self.go_on(plan, world, waiting, flow)?;
            if let Some(step) = passed {
                return Ok(step);
            }
        }
        Ok(self.finish(plan, world, flow))
    }

    // What waited for it, or none where it goes on to what waits below.
    #[inline(always)]
    fn go_on(
        &mut self,
        plan: &'p Plan<'p>,
        world: &mut World<'p>,
        waiting: Waiting<'p>,
        flow: Flow,
    ) -> Result<Option<Step>, NoMemory>
        requires program { world.old.program.now ≡ plan.now.program.now }
        requires tied { scope_counts world.old.names.calls ≡ scopes_with waiting (open_scopes self.old.waiting.items) }
        ensures left { IfOk result (λ a. (h : List Event) → gone_on (tables_shape plan.now.program.now.tables) (knot_of plan.now.program.now) a self.new flow (state_of world.new h) ≡ waits (tables_shape plan.now.program.now.tables) (knot_of plan.now.program.now) waiting.entry (behind (tables_shape plan.now.program.now.tables) (knot_of plan.now.program.now) self.old) flow (state_of world.old h)) }
        ensures tied { IfOk result (λ a. OnPassed a (Tied self.new world.new)) }
        ensures falls { IfOk result (λ a. OnStep a (12 * world.new.turns + machine_size self.new < 12 * world.old.turns + 1 + weight waiting.entry + all_weights self.old.waiting.items)) }
        ensures passed { IfOk result (λ a. OnNone a (self.new ≡ self.old × world.new.turns ≤ world.old.turns)) }
        ensures same { OnOk result (Same world.old world.new) }
    {
        match waiting {
            Waiting::Rest(sequence) => {
                let step = self.leave_one(sequence, flow)?;
                Ok(step)
            }
            Waiting::Loop(placed) => {
                let step = self.leave_body(plan, world, placed, flow)?;
                Ok(Some(step))
            }
            Waiting::Scope => {
                world.end_scope();
                Ok(None)
            }
            Waiting::Switch => Ok(Some(self.leave_switch(flow))),
            Waiting::Names(block) => {
                let step = self.declare(plan, world, block)?;
                Ok(Some(step))
            }
            Waiting::Caller(function, frames, used) => {
                let step = self.return_to(plan, world, function, frames, used, flow);
                Ok(Some(step))
            }
        }
    }
}
