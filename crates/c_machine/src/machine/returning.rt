//! Functions, left with their results (C89, 3.6.6.4).

ghost use Rattle.std.specs.Prelude.{◌≡◌, ◌+◌, ◌*◌, ◌≤◌, List, [], ◌∷◌};
ghost use Rattle.c_events.specs.declared.events.Event.{Event};
ghost use Rattle.c_tables.specs.Tables.{tables_shape};
ghost use Rattle.c_tables.specs.Rows.{row};
ghost use Rattle.c_meaning.specs.State.{State};
ghost use Rattle.c_meaning.specs.Results.{then_do};
ghost use Rattle.c_meaning.specs.Operators.{converted};
ghost use Rattle.c_meaning.specs.Calls.{result_in, returned};
ghost use Rattle.c_world.specs.Names.{scope_counts};
ghost use Rattle.c_world.specs.World.{state_of, Same};
ghost use Rattle.c_eval.specs.Rest.{weights};
ghost use Rattle.c_machine.specs.Todo.{gave, resumed, behind, knot_of, left_after, Tied, OnMore, open_scopes, all_weights, machine_size};

use super::Machine;
use crate::parts::{Active, Step, Use};
use c_compute::operators::converted;
use c_eval::frame::Frame;
use c_meaning::end::Flow;
use c_plan::plan::Plan;
use c_store::value::Value;
use c_syntax::tree::CType;
use c_tables::tables::Tables;
use c_world::world::World;
use std::mem;

impl<'p> Machine<'p> {
    // A function that was called is left: its result is for what waits in its caller (C89, 3.6.6.4).
    pub(super) fn return_to(
        &mut self,
        plan: &'p Plan<'p>,
        world: &mut World<'p>,
        function: u32,
        frames: Vec<Frame<'p>>,
        used: Use<'p>,
        flow: Flow,
    ) -> Step
        requires program { world.old.program.now ≡ plan.now.program.now }
        requires tied { scope_counts world.old.names.calls ≡ 1 ∷ open_scopes self.old.waiting.items }
        ensures left { (h : List Event) → left_after (tables_shape plan.now.program.now.tables) (knot_of plan.now.program.now) result self.new (state_of world.new h) ≡ then_do (returned (result_in (row (tables_shape plan.now.program.now.tables).functions function)) flow (state_of world.old h)) (resumed (tables_shape plan.now.program.now.tables) (knot_of plan.now.program.now) frames.entry.items used.entry (behind (tables_shape plan.now.program.now.tables) (knot_of plan.now.program.now) self.old)) }
        ensures tied { OnMore result (Tied self.new world.new) }
        ensures size { OnMore result (12 * world.new.turns + machine_size self.new ≤ 12 * world.old.turns + 3 + 3 * weights frames.entry.items + all_weights self.old.waiting.items) }
        ensures same { Same world.old world.new }
    {
        match result_of(world.tables(), function, flow) {
            None => self.untyped(),
            Some(value) => {
                world.leave();
                let done = mem::replace(&mut self.work.stack, frames);
                let _ = self.spare.push(done);
                self.work.resume(value);
                self.used = used;
                self.active = Active::Busy;
                Step::More
            }
        }
    }

    // The function that the run begins with is left.
    pub(super) fn finish(&mut self, plan: &'p Plan<'p>, world: &mut World<'p>, flow: Flow) -> Step
        requires program { world.old.program.now ≡ plan.now.program.now }
        requires tied { scope_counts world.old.names.calls ≡ 1 ∷ [] }
        ensures left { (h : List Event) → left_after (tables_shape plan.now.program.now.tables) (knot_of plan.now.program.now) result self.new (state_of world.new h) ≡ returned (result_in (row (tables_shape plan.now.program.now.tables).functions self.old.function)) flow (state_of world.old h) }
        ensures done { OnMore result ⊥ }
        ensures same { Same world.old world.new }
    {
        match result_of(world.tables(), self.function, flow) {
            None => self.untyped(),
            Some(value) => {
                world.leave();
                self.done(value)
            }
        }
    }
}

// The result of a function that is left so, converted to its type; None where it isn't left.
fn result_of(tables: &Tables, function: u32, flow: Flow) -> Option<Option<Value>>
    ensures { (s : State) → gave result s ≡ returned (result_in (row (tables_shape tables.now).functions function)) flow s }
{
    match flow {
        Flow::Next => Some(None),
        Flow::Return(None) => Some(None),
        Flow::Return(Some(value)) => Some(Some(result_value(tables, function, value))),
        Flow::Break | Flow::Continue => None,
    }
}

// A value in the type of a function's result.
fn result_value(tables: &Tables, function: u32, value: Value) -> Value
    ensures { result ≡ converted (result_in (row (tables_shape tables.now).functions function)) value }
{
    if function == 0 || function > tables.functions() {
        return converted(&CType::Void, value);
    }
    converted(&tables.function(function).result, value)
}
