//! Structures that are assigned.

ghost use Rattle.std.specs.Prelude.{◌≡◌, ◌≤◌, ◌+◌, List, None, IfOk, OnOk};
ghost use Rattle.c_events.specs.declared.events.Event.{Event};
ghost use Rattle.c_syntax.specs.Shape.{two, assign};
ghost use Rattle.c_syntax.specs.View.{node_shape, expr_shape};
ghost use Rattle.c_tables.specs.Tables.{TablesShape, tables_shape};
ghost use Rattle.c_meaning.specs.Results.{then_do};
ghost use Rattle.c_meaning.specs.Knot.{Knot};
ghost use Rattle.c_world.specs.World.{state_of};
ghost use Rattle.c_eval.specs.Rest.{Spot, waiting, on_found, on_copied, left, rest, rest_after, weights, size, size_after};
ghost use Rattle.c_eval_once.specs.Parts.{value, place};
ghost use Rattle.c_eval_once.specs.Forms.{Kept};

use super::Work;
use crate::frame::{Step, Wait};
use c_base::place::NoMemory;
use c_eval_once::at_once::place_at_once;
use c_eval_once::copying::copy;
use c_meaning::end::Stop;
use c_store::value::{Fault, Pointer};
use c_syntax::tree::{Expr, Node};
use c_tables::tables::Tables;
use c_walk::places::has_structure;
use c_world::world::World;

#[tactic(auto, using(crate::proofs::Steps::frames_push, crate::proofs::Steps::weights_push, crate::proofs::Steps::then_then, c_eval_once::proofs::Once::spot_given, c_eval_once::proofs::Once::spot_stopped))]
impl<'p> Work<'p> {
    // The right side of `=` (C89, 3.3.16.1): a structure's cells are copied, any other value is written.
    #[inline(always)]
    pub(super) fn take_assigned(
        &mut self,
        tables: &'p Tables,
        world: &mut World<'p>,
        node: &'p Node,
        a: &'p Node,
        b: &'p Node,
        at: Pointer,
    ) -> Result<Step, NoMemory>
        requires { expr_shape node.now.form ≡ two (assign None) (node_shape a.now) (node_shape b.now) }
        ensures rest { IfOk result (λ r. (k : Knot) (h : List Event) → rest_after (tables_shape tables.now) k r self.new (state_of world.new h) ≡ on_found (tables_shape tables.now) k (expr_shape node.now.form) (left (tables_shape tables.now) k self.old) (Spot at) (state_of world.old h)) }
        ensures size { IfOk result (λ r. size_after r self.new ≤ 1 + weights self.old.stack.items) }
        ensures kept { OnOk result (Kept world.old world.new) }
        ensures turns { OnOk result (world.new.turns ≤ world.old.turns) }
    {
        if has_structure(&a.note) {
            let step = self.source(tables, world, node, at, b)?;
            Ok(step)
        } else {
            let step = self.last(tables, world, node, Wait::Into(at), b)?;
            Ok(step)
        }
    }

    // The place of the structure that is copied, if the node hasn't it at once.
    fn source(
        &mut self,
        tables: &'p Tables,
        world: &mut World<'p>,
        node: &'p Node,
        to: Pointer,
        operand: &'p Node,
    ) -> Result<Step, NoMemory>
        ensures rest { IfOk result (λ a. (k : Knot) (h : List Event) → rest_after (tables_shape tables.now) k a self.new (state_of world.new h) ≡ then_do (place (tables_shape tables.now) k (node_shape operand.now) (state_of world.old h)) (λ q s. waiting (tables_shape tables.now) k node.now (Wait.Copy to) (left (tables_shape tables.now) k self.old) (Spot q) s)) }
        ensures size { IfOk result (λ a. size_after a self.new ≤ 1 + weights self.old.stack.items) }
        ensures kept { OnOk result (Kept world.old world.new) }
        ensures turns { OnOk result (world.new.turns ≤ world.old.turns) }
    {
        match place_at_once(tables, world, operand) {
            None => {
                let step = self.go_to_place(node, Wait::Copy(to), operand)?;
                Ok(step)
            }
            Some(Err(why)) => Ok(Step::Stopped(why)),
            Some(Ok(from)) => {
                let step = self.take_copied(world, node, to, from)?;
                Ok(step)
            }
        }
    }

    // It is copied from there.
    pub(super) fn take_copied(
        &mut self,
        world: &mut World<'p>,
        node: &'p Node,
        to: Pointer,
        from: Pointer,
    ) -> Result<Step, NoMemory>
        ensures rest { IfOk result (λ a. (t : TablesShape) (k : Knot) (h : List Event) → rest_after t k a self.new (state_of world.new h) ≡ on_copied (expr_shape node.now.form) to (left t k self.old) (Spot from) (state_of world.old h)) }
        ensures size { IfOk result (λ a. size_after a self.new ≤ 1 + weights self.old.stack.items) }
        ensures kept { OnOk result (Kept world.old world.new) }
        ensures turns { OnOk result (world.new.turns ≤ world.old.turns) }
    {
        match &node.form {
            Expr::Assign(None, a, b) => match copy(world, a, b, to, from)? {
                None => Ok(self.now(None)),
                Some(why) => Ok(Step::Stopped(why)),
            },
            _ => Ok(Step::Stopped(Stop::Fault(Fault::NoResult))),
        }
    }
}
