//! Operators that evaluate both of their operands.

ghost use Rattle.std.specs.Prelude.{◌≡◌, ◌≤◌, ◌+◌, List, Some, IfOk, OnOk};
ghost use Rattle.c_events.specs.declared.events.Event.{Event};
ghost use Rattle.c_syntax.specs.Shape.{two, plain};
ghost use Rattle.c_syntax.specs.View.{node_shape, expr_shape};
ghost use Rattle.c_tables.specs.Tables.{TablesShape, tables_shape};
ghost use Rattle.c_meaning.specs.State.{State};
ghost use Rattle.c_meaning.specs.Results.{then_do};
ghost use Rattle.c_meaning.specs.Knot.{Knot};
ghost use Rattle.c_world.specs.World.{state_of};
ghost use Rattle.c_eval.specs.Rest.{Val, waiting, on_second, left, rest, rest_after, weights, size, size_after};
ghost use Rattle.c_eval_once.specs.Parts.{value};
ghost use Rattle.c_eval_once.specs.Forms.{Kept};

use super::Work;
use crate::frame::{Step, Wait};
use c_base::place::NoMemory;
use c_eval_direct::direct::direct;
use c_eval_once::leaf::combined;
use c_eval_once::reply::Answer;
use c_store::value::Value;
use c_syntax::tree::{BinaryOp, Node};
use c_tables::tables::Tables;
use c_world::world::World;

#[tactic(auto, using(crate::proofs::Steps::frames_push, crate::proofs::Steps::weights_push, crate::proofs::Steps::then_then, c_eval_once::proofs::Once::once_given, c_eval_once::proofs::Once::once_stopped))]
impl<'p> Work<'p> {
    // The operands of an operator that evaluates both.
    pub(super) fn binary(
        &mut self,
        tables: &'p Tables,
        world: &mut World<'p>,
        node: &'p Node,
        op: BinaryOp,
        a: &'p Node,
        b: &'p Node,
    ) -> Result<Step, NoMemory>
        requires { expr_shape node.now.form ≡ two (plain op) (node_shape a.now) (node_shape b.now) }
        ensures rest { IfOk result (λ r. (k : Knot) (h : List Event) → rest_after (tables_shape tables.now) k r self.new (state_of world.new h) ≡ then_do (value (tables_shape tables.now) k (node_shape a.now) (state_of world.old h)) (λ v s. waiting (tables_shape tables.now) k node.now Wait.Operand (left (tables_shape tables.now) k self.old) (Val v) s)) }
        ensures size { IfOk result (λ a. size_after a self.new ≤ 1 + weights self.old.stack.items) }
        ensures kept { OnOk result (Kept world.old world.new) }
        ensures turns { OnOk result (world.new.turns ≤ world.old.turns) }
    {
        match direct(tables, world, a) {
            None => {
                let step = self.go(node, Wait::Operand, a)?;
                Ok(step)
            }
            Some(Answer::NoMemory) => Err(NoMemory),
            Some(Answer::Stopped(why)) => Ok(Step::Stopped(why)),
            Some(Answer::Value(value)) => {
                let step = self.right(tables, world, node, op, a, b, value)?;
                Ok(step)
            }
        }
    }

    // The right one, behind the left one's value.
    #[inline(always)]
    fn right(
        &mut self,
        tables: &'p Tables,
        world: &mut World<'p>,
        node: &'p Node,
        op: BinaryOp,
        a: &'p Node,
        b: &'p Node,
        first: Value,
    ) -> Result<Step, NoMemory>
        requires { expr_shape node.now.form ≡ two (plain op) (node_shape a.now) (node_shape b.now) }
        ensures rest { IfOk result (λ r. (k : Knot) (h : List Event) → rest_after (tables_shape tables.now) k r self.new (state_of world.new h) ≡ then_do (value (tables_shape tables.now) k (node_shape b.now) (state_of world.old h)) (λ v s. waiting (tables_shape tables.now) k node.now (Wait.Second first) (left (tables_shape tables.now) k self.old) (Val v) s)) }
        ensures size { IfOk result (λ a. size_after a self.new ≤ 1 + weights self.old.stack.items) }
        ensures kept { OnOk result (Kept world.old world.new) }
        ensures turns { OnOk result (world.new.turns ≤ world.old.turns) }
    {
        match direct(tables, world, b) {
            None => {
                let step = self.go(node, Wait::Second(first), b)?;
                Ok(step)
            }
            Some(Answer::NoMemory) => Err(NoMemory),
            Some(Answer::Stopped(why)) => Ok(Step::Stopped(why)),
            Some(Answer::Value(value)) => Ok(self.meet(node, op, a, b, first, value)),
        }
    }

    // Their values meet in the operator.
    #[inline(always)]
    fn meet(
        &mut self,
        node: &'p Node,
        op: BinaryOp,
        a: &'p Node,
        b: &'p Node,
        first: Value,
        value: Value,
    ) -> Step
        requires { expr_shape node.now.form ≡ two (plain op) (node_shape a.now) (node_shape b.now) }
        ensures rest { (t : TablesShape) (k : Knot) (s : State) → rest_after t k result self.new s ≡ on_second (expr_shape node.now.form) first (left t k self.old) (Val (Some value)) s }
        ensures size { size_after result self.new ≤ 1 + weights self.old.stack.items }
    {
        self.reply(combined(op, a, b, first, value))
    }
}
