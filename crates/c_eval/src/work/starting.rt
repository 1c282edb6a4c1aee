//! Nodes that are no places, behind their turn.

ghost use Rattle.std.specs.Prelude.{◌≡◌, ◌<◌, ◌≤◌, ◌+◌, ◌*◌, List, true, false, IfOk, OnOk};
ghost use Rattle.c_events.specs.declared.events.Event.{Event};
ghost use Rattle.c_syntax.specs.Shape.{prefix, unary};
ghost use Rattle.c_syntax.specs.View.{node_shape, expr_shape};
ghost use Rattle.c_tables.specs.Tables.{TablesShape, tables_shape};
ghost use Rattle.c_meaning.specs.State.{State};
ghost use Rattle.c_meaning.specs.Results.{then_do};
ghost use Rattle.c_meaning.specs.Knot.{Knot};
ghost use Rattle.c_world.specs.World.{state_of};
ghost use Rattle.c_eval.specs.Rest.{to_value, left, rest, rest_after, weights, size, size_after, Lower};
ghost use Rattle.c_eval_once.specs.Parts.{value, place, one_more};
ghost use Rattle.c_eval.specs.Forms.{is_bare, is_prefix, is_infix};
ghost use Rattle.c_eval_once.specs.Forms.{Kept, is_address, is_deref, standing};

use super::Work;
use super::passing::pass_place;
use crate::frame::{Step, Wait};
use c_base::place::NoMemory;
use c_eval_once::builtins::built_in;
use c_eval_once::leaf::leaf;
use c_eval_once::reply::reply_of;
use c_meaning::end::Stop;
use c_syntax::tree::{Expr, Node, UnaryOp};
use c_tables::tables::Tables;
use c_world::world::World;

#[tactic(auto, using(crate::proofs::Steps::frames_push, crate::proofs::Steps::weights_push, crate::proofs::Steps::then_then, crate::proofs::Steps::lower, crate::proofs::Steps::needed_then, crate::proofs::Steps::at_place))]
impl<'p> Work<'p> {
    // A node that is no place, whose turn was taken.
    pub(super) fn begin(
        &mut self,
        tables: &'p Tables,
        world: &mut World<'p>,
        node: &'p Node,
    ) -> Result<Step, NoMemory>
        requires bare { is_bare node.now.form ≡ true }
        requires value { standing node.now.note node.now.form ≡ false }
        ensures rest { IfOk result (λ a. (k : Knot) (h : List Event) → rest_after (tables_shape tables.now) k a self.new (state_of world.new h) ≡ then_do (value (tables_shape tables.now) k (node_shape node.now) (one_more (state_of world.old h))) (to_value (left (tables_shape tables.now) k self.old))) }
        ensures falls { IfOk result (λ a. Lower a (4 * world.new.turns + size_after a self.new) (4 * world.old.turns + 2 + weights self.old.stack.items)) }
        ensures kept { OnOk result (Kept world.old world.new) }
    {
        match &node.form {
            Expr::Number(_)
            | Expr::Char(_)
            | Expr::Str(_)
            | Expr::Name(_)
            | Expr::SizeOf(_)
            | Expr::SizeOfType(_) => {
                let reply = reply_of(leaf(node))?;
                Ok(self.reply(reply))
            }
            Expr::Call(_, args) => {
                let step = self.call(tables, world, node, args)?;
                Ok(step)
            }
            Expr::Unary(_, _) | Expr::Step(_, _) | Expr::Cast(_, _) => {
                let step = self.begin_prefix(tables, world, node)?;
                Ok(step)
            }
            Expr::Binary(_, _, _)
            | Expr::And(_, _)
            | Expr::Or(_, _)
            | Expr::Cond(_, _, _)
            | Expr::Assign(_, _, _)
            | Expr::Comma(_, _) => {
                let step = self.begin_infix(tables, world, node)?;
                Ok(step)
            }
            Expr::Paren(_)
            | Expr::Probe(_, _)
            | Expr::Index(_, _)
            | Expr::Member(_, _, _)
            | Expr::Arrow(_, _, _) => unreachable!(),
        }
    }

    // An operator with one operand, whose turn was taken.
    fn begin_prefix(
        &mut self,
        tables: &'p Tables,
        world: &mut World<'p>,
        node: &'p Node,
    ) -> Result<Step, NoMemory>
        requires { is_prefix node.now.form ≡ true }
        ensures rest { IfOk result (λ a. (k : Knot) (h : List Event) → rest_after (tables_shape tables.now) k a self.new (state_of world.new h) ≡ then_do (value (tables_shape tables.now) k (node_shape node.now) (one_more (state_of world.old h))) (to_value (left (tables_shape tables.now) k self.old))) }
        ensures size { IfOk result (λ a. size_after a self.new ≤ 1 + weights self.old.stack.items) }
        ensures kept { OnOk result (Kept world.old world.new) }
        ensures turns { OnOk result (world.new.turns ≤ world.old.turns) }
    {
        match &node.form {
            Expr::Unary(op, a) => {
                let step = self.begin_unary(tables, world, node, *op, a)?;
                Ok(step)
            }
            Expr::Cast(_, a) => {
                let step = self.first(tables, world, node, a)?;
                Ok(step)
            }
            Expr::Step(_, a) => {
                let step = self.first_place(tables, world, node, a)?;
                Ok(step)
            }
            _ => unreachable!(),
        }
    }

    fn begin_unary(
        &mut self,
        tables: &'p Tables,
        world: &mut World<'p>,
        node: &'p Node,
        op: UnaryOp,
        a: &'p Node,
    ) -> Result<Step, NoMemory>
        requires form { expr_shape node.now.form ≡ prefix (unary op) (node_shape a.now) }
        requires value { is_deref op ≡ false }
        ensures rest { IfOk result (λ a. (k : Knot) (h : List Event) → rest_after (tables_shape tables.now) k a self.new (state_of world.new h) ≡ then_do (value (tables_shape tables.now) k (node_shape node.now) (one_more (state_of world.old h))) (to_value (left (tables_shape tables.now) k self.old))) }
        ensures size { IfOk result (λ a. size_after a self.new ≤ 1 + weights self.old.stack.items) }
        ensures kept { OnOk result (Kept world.old world.new) }
        ensures turns { OnOk result (world.new.turns ≤ world.old.turns) }
    {
        if is_address(op) {
            let step = self.first_place(tables, world, node, a)?;
            Ok(step)
        } else {
            let step = self.first(tables, world, node, a)?;
            Ok(step)
        }
    }

    // An operator with more operands, whose turn was taken.
    fn begin_infix(
        &mut self,
        tables: &'p Tables,
        world: &mut World<'p>,
        node: &'p Node,
    ) -> Result<Step, NoMemory>
        requires { is_infix node.now.form ≡ true }
        ensures rest { IfOk result (λ a. (k : Knot) (h : List Event) → rest_after (tables_shape tables.now) k a self.new (state_of world.new h) ≡ then_do (value (tables_shape tables.now) k (node_shape node.now) (one_more (state_of world.old h))) (to_value (left (tables_shape tables.now) k self.old))) }
        ensures size { IfOk result (λ a. size_after a self.new ≤ 1 + weights self.old.stack.items) }
        ensures kept { OnOk result (Kept world.old world.new) }
        ensures turns { OnOk result (world.new.turns ≤ world.old.turns) }
    {
        match &node.form {
            Expr::Binary(op, a, b) => {
                let step = self.binary(tables, world, node, *op, a, b)?;
                Ok(step)
            }
            Expr::And(a, _) => {
                let step = self.first(tables, world, node, a)?;
                Ok(step)
            }
            Expr::Or(a, _) => {
                let step = self.first(tables, world, node, a)?;
                Ok(step)
            }
            Expr::Cond(a, _, _) => {
                let step = self.first(tables, world, node, a)?;
                Ok(step)
            }
            Expr::Comma(a, _) => {
                let step = self.first(tables, world, node, a)?;
                Ok(step)
            }
            Expr::Assign(_, a, _) => {
                let step = self.first_place(tables, world, node, a)?;
                Ok(step)
            }
            _ => unreachable!(),
        }
    }
}

fn is_address(op: UnaryOp) -> bool
    ensures { result ≡ is_address op }
{
    matches!(op, UnaryOp::AddressOf)
}
