//! First operands, whose value or place the node waits for.

ghost use Rattle.std.specs.Prelude.{◌≡◌, ◌≤◌, ◌+◌, List, IfOk, OnOk};
ghost use Rattle.c_events.specs.declared.events.Event.{Event};
ghost use Rattle.c_syntax.specs.View.{node_shape};
ghost use Rattle.c_tables.specs.Tables.{tables_shape};
ghost use Rattle.c_meaning.specs.Results.{then_do};
ghost use Rattle.c_meaning.specs.Knot.{Knot};
ghost use Rattle.c_world.specs.World.{state_of};
ghost use Rattle.c_eval.specs.Rest.{Val, Spot, waiting, on_operand, on_found, left, rest, rest_after, weights, size, size_after};
ghost use Rattle.c_eval_once.specs.Parts.{value, place};
ghost use Rattle.c_eval_once.specs.Forms.{Kept};

use super::Work;
use crate::frame::{Step, Wait};
use c_base::place::NoMemory;
use c_eval_direct::direct::direct;
use c_eval_once::at_once::place_at_once;
use c_eval_once::reply::Answer;
use c_meaning::end::Stop;
use c_syntax::tree::Node;
use c_tables::tables::Tables;
use c_world::world::World;

#[tactic(auto, using(crate::proofs::Steps::frames_push, crate::proofs::Steps::weights_push, crate::proofs::Steps::then_then, c_eval_once::proofs::Once::once_given, c_eval_once::proofs::Once::once_stopped, c_eval_once::proofs::Once::spot_given, c_eval_once::proofs::Once::spot_stopped))]
impl<'p> Work<'p> {
    // A first operand, whose value the node waits for, if it hasn't it at once.
    pub(super) fn first(
        &mut self,
        tables: &'p Tables,
        world: &mut World<'p>,
        node: &'p Node,
        operand: &'p Node,
    ) -> Result<Step, NoMemory>
        ensures rest { IfOk result (λ a. (k : Knot) (h : List Event) → rest_after (tables_shape tables.now) k a self.new (state_of world.new h) ≡ then_do (value (tables_shape tables.now) k (node_shape operand.now) (state_of world.old h)) (λ v s. waiting (tables_shape tables.now) k node.now Wait.Operand (left (tables_shape tables.now) k self.old) (Val v) s)) }
        ensures size { IfOk result (λ a. size_after a self.new ≤ 1 + weights self.old.stack.items) }
        ensures kept { OnOk result (Kept world.old world.new) }
        ensures turns { OnOk result (world.new.turns ≤ world.old.turns) }
    {
        match direct(tables, world, operand) {
            None => {
                let step = self.go(node, Wait::Operand, operand)?;
                Ok(step)
            }
            Some(Answer::NoMemory) => Err(NoMemory),
            Some(Answer::Stopped(why)) => Ok(Step::Stopped(why)),
            Some(Answer::Value(value)) => {
                let step = self.take_operand(tables, world, node, value)?;
                Ok(step)
            }
        }
    }

    // An operand, whose place the node waits for, if it hasn't it at once.
    pub(super) fn first_place(
        &mut self,
        tables: &'p Tables,
        world: &mut World<'p>,
        node: &'p Node,
        operand: &'p Node,
    ) -> Result<Step, NoMemory>
        ensures rest { IfOk result (λ a. (k : Knot) (h : List Event) → rest_after (tables_shape tables.now) k a self.new (state_of world.new h) ≡ then_do (place (tables_shape tables.now) k (node_shape operand.now) (state_of world.old h)) (λ q s. waiting (tables_shape tables.now) k node.now Wait.Place (left (tables_shape tables.now) k self.old) (Spot q) s)) }
        ensures size { IfOk result (λ a. size_after a self.new ≤ 1 + weights self.old.stack.items) }
        ensures kept { OnOk result (Kept world.old world.new) }
        ensures turns { OnOk result (world.new.turns ≤ world.old.turns) }
    {
        match place_at_once(tables, world, operand) {
            None => {
                let step = self.go_to_place(node, Wait::Place, operand)?;
                Ok(step)
            }
            Some(Err(why)) => Ok(Step::Stopped(why)),
            Some(Ok(at)) => {
                let step = self.take_found(tables, world, node, at)?;
                Ok(step)
            }
        }
    }
}
