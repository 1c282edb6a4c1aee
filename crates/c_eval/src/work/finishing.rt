//! Last operands, by whose value the node is done.

ghost use Rattle.std.specs.Prelude.{◌≡◌, ◌≤◌, ◌+◌, List, Option, Some, true, IfOk, OnOk};
ghost use Rattle.c_events.specs.declared.events.Event.{Event};
ghost use Rattle.c_syntax.specs.View.{node_shape, expr_shape};
ghost use Rattle.c_store.specs.declared.value.Value.{Value};
ghost use Rattle.c_tables.specs.Tables.{TablesShape, tables_shape};
ghost use Rattle.c_meaning.specs.State.{State};
ghost use Rattle.c_meaning.specs.Results.{then_do};
ghost use Rattle.c_meaning.specs.Knot.{Knot};
ghost use Rattle.c_world.specs.World.{state_of};
ghost use Rattle.c_eval.specs.Rest.{Val, waiting, on_second, on_written, on_combined, left, rest, rest_after, weights, size, size_after};
ghost use Rattle.c_eval_once.specs.Parts.{value};
ghost use Rattle.c_eval.specs.Forms.{is_last};
ghost use Rattle.c_eval_once.specs.Forms.{Kept};

use super::Work;
use crate::frame::{Step, Wait};
use c_base::place::NoMemory;
use c_eval_direct::direct::direct;
use c_eval_once::leaf::{combined, converted_by, element_at, truth_at};
use c_eval_once::reply::Answer;
use c_eval_once::telling::{write, write_combined};
use c_meaning::end::Stop;
use c_store::value::{Fault, Pointer, Value};
use c_syntax::tree::{Expr, Node};
use c_tables::tables::Tables;
use c_world::world::World;

#[tactic(auto, using(crate::proofs::Steps::frames_push, crate::proofs::Steps::weights_push, crate::proofs::Steps::then_then, c_eval_once::proofs::Once::once_given, c_eval_once::proofs::Once::once_stopped))]
impl<'p> Work<'p> {
    // A last operand, whose value the node waits for, if it hasn't it at once.
    #[inline(always)]
    pub(super) fn last(
        &mut self,
        tables: &'p Tables,
        world: &mut World<'p>,
        node: &'p Node,
        wait: Wait<'p>,
        operand: &'p Node,
    ) -> Result<Step, NoMemory>
        requires { is_last wait ≡ true }
        ensures rest { IfOk result (λ a. (k : Knot) (h : List Event) → rest_after (tables_shape tables.now) k a self.new (state_of world.new h) ≡ then_do (value (tables_shape tables.now) k (node_shape operand.now) (state_of world.old h)) (λ v s. waiting (tables_shape tables.now) k node.now wait.entry (left (tables_shape tables.now) k self.old) (Val v) s)) }
        ensures size { IfOk result (λ a. size_after a self.new ≤ 1 + weights self.old.stack.items) }
        ensures kept { OnOk result (Kept world.old world.new) }
        ensures turns { OnOk result (world.new.turns ≤ world.old.turns) }
    {
        match direct(tables, world, operand) {
            None => {
                let step = self.go(node, wait, operand)?;
                Ok(step)
            }
            Some(Answer::NoMemory) => Err(NoMemory),
            Some(Answer::Stopped(why)) => Ok(Step::Stopped(why)),
            Some(Answer::Value(value)) => {
                let step = self.finish(world, node, wait, value)?;
                Ok(step)
            }
        }
    }

    // The value of a last operand.
    #[inline(always)]
    pub(super) fn finish(
        &mut self,
        world: &mut World<'p>,
        node: &'p Node,
        wait: Wait<'p>,
        value: Value,
    ) -> Result<Step, NoMemory>
        requires { is_last wait ≡ true }
        ensures rest { IfOk result (λ a. (t : TablesShape) (k : Knot) (h : List Event) → rest_after t k a self.new (state_of world.new h) ≡ waiting t k node.now wait.entry (left t k self.old) (Val (Some value)) (state_of world.old h)) }
        ensures size { IfOk result (λ a. size_after a self.new ≤ 1 + weights self.old.stack.items) }
        ensures kept { OnOk result (Kept world.old world.new) }
        ensures turns { OnOk result (world.new.turns ≡ world.old.turns) }
    {
        match wait {
            Wait::Second(first) => Ok(self.take_second(node, first, value)),
            Wait::Truth => Ok(self.now(Some(truth_at(value)))),
            Wait::Into(at) => {
                let step = self.take_written(world, node, at, value)?;
                Ok(step)
            }
            Wait::Combine(at, first) => {
                let step = self.take_combined(world, node, at, first, value)?;
                Ok(step)
            }
            Wait::Chosen => Ok(self.now(converted_by(node, Some(value)))),
            Wait::Operand
            | Wait::Probe
            | Wait::Place
            | Wait::Read
            | Wait::Copy(_)
            | Wait::Comma
            | Wait::Argument(_, _, _) => unreachable!(),
        }
    }
}
