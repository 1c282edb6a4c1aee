//! Nodes whose value or place is wanted, with what waits for it.

ghost use Rattle.std.specs.Prelude.{◌≡◌, ◌<◌, ◌+◌, ◌*◌, List, Option, Some, None, true, false, IfOk, OnOk};
ghost use Rattle.c_events.specs.declared.events.Event.{Event};
ghost use Rattle.c_syntax.specs.View.{node_shape};
ghost use Rattle.c_store.specs.declared.value.Value.{Value};
ghost use Rattle.c_tables.specs.Tables.{TablesShape, tables_shape};
ghost use Rattle.c_meaning.specs.Results.{then_do};
ghost use Rattle.c_meaning.specs.Knot.{Knot};
ghost use Rattle.c_world.specs.World.{state_of};
ghost use Rattle.c_eval.specs.Rest.{Taker, waiting, Val, Spot, to_value, to_spot, left, rest, rest_after, weights, size_after, Lower};
ghost use Rattle.c_eval_once.specs.Parts.{value, place};
ghost use Rattle.c_eval.specs.Forms.{is_probe, is_bare_place, is_bare, has_place};
ghost use Rattle.c_eval_once.specs.Forms.{Kept, told, standing};

use super::Work;
use super::passing::pass_place;
use crate::frame::{Frame, Passed, Step, Wait};
use c_base::place::NoMemory;
use c_eval_direct::direct::direct;
use c_eval_once::builtins::built_in;
use c_eval_once::reply::Answer;
use c_eval_once::telling::tell_test;
use c_meaning::end::Stop;
use c_store::value::{Fault, Pointer, Value};
use c_syntax::tree::{Expr, ExprProbe, Node, Note, UnaryOp};
use c_tables::tables::Tables;
use c_world::world::World;

#[tactic(auto, using(crate::proofs::Steps::frames_push, crate::proofs::Steps::weights_push, crate::proofs::Steps::then_then, crate::proofs::Steps::lower))]
impl<'p> Work<'p> {
    // A node whose value is wanted.
    pub(super) fn open(
        &mut self,
        tables: &'p Tables,
        world: &mut World<'p>,
        node: &'p Node,
    ) -> Result<Step, NoMemory>
        ensures rest { IfOk result (λ a. (k : Knot) (h : List Event) → rest_after (tables_shape tables.now) k a self.new (state_of world.new h) ≡ then_do (value (tables_shape tables.now) k (node_shape node.now) (state_of world.old h)) (to_value (left (tables_shape tables.now) k self.old))) }
        ensures falls { IfOk result (λ a. Lower a (4 * world.new.turns + size_after a self.new) (4 * world.old.turns + weights self.old.stack.items)) }
        ensures kept { OnOk result (Kept world.old world.new) }
    {
        match self.pass(world, node)? {
            Passed::Stopped(why) => Ok(Step::Stopped(why)),
            Passed::Node(node) => match direct(tables, world, node) {
                Some(Answer::Value(value)) => Ok(self.now(Some(value))),
                Some(Answer::NoMemory) => Err(NoMemory),
                Some(Answer::Stopped(why)) => Ok(Step::Stopped(why)),
                None => {
                    let step = self.descend(tables, world, node)?;
                    Ok(step)
                }
            },
        }
    }

    // A node with operands.
    fn descend(
        &mut self,
        tables: &'p Tables,
        world: &mut World<'p>,
        node: &'p Node,
    ) -> Result<Step, NoMemory>
        requires { is_bare node.now.form ≡ true }
        ensures rest { IfOk result (λ a. (k : Knot) (h : List Event) → rest_after (tables_shape tables.now) k a self.new (state_of world.new h) ≡ then_do (value (tables_shape tables.now) k (node_shape node.now) (state_of world.old h)) (to_value (left (tables_shape tables.now) k self.old))) }
        ensures falls { IfOk result (λ a. Lower a (4 * world.new.turns + size_after a self.new) (4 * world.old.turns + weights self.old.stack.items)) }
        ensures kept { OnOk result (Kept world.old world.new) }
    {
        if stands(node) {
            let step = self.read(tables, world, node)?;
            Ok(step)
        } else {
            let step = self.enter(tables, world, node)?;
            Ok(step)
        }
    }

    // A place, which is read.
    fn read(
        &mut self,
        tables: &'p Tables,
        world: &mut World<'p>,
        node: &'p Node,
    ) -> Result<Step, NoMemory>
        requires { standing node.now.note node.now.form ≡ true }
        ensures rest { IfOk result (λ a. (k : Knot) (h : List Event) → rest_after (tables_shape tables.now) k a self.new (state_of world.new h) ≡ then_do (value (tables_shape tables.now) k (node_shape node.now) (state_of world.old h)) (to_value (left (tables_shape tables.now) k self.old))) }
        ensures falls { IfOk result (λ a. Lower a (4 * world.new.turns + size_after a self.new) (4 * world.old.turns + weights self.old.stack.items)) }
        ensures kept { OnOk result (Kept world.old world.new) }
    {
        self.push(Frame {
            node,
            wait: Wait::Read,
        })?;
        let step = self.open_place(tables, world, node)?;
        Ok(step)
    }

    // The turn of a node that is no place, and its begin.
    fn enter(
        &mut self,
        tables: &'p Tables,
        world: &mut World<'p>,
        node: &'p Node,
    ) -> Result<Step, NoMemory>
        requires bare { is_bare node.now.form ≡ true }
        requires value { standing node.now.note node.now.form ≡ false }
        ensures rest { IfOk result (λ a. (k : Knot) (h : List Event) → rest_after (tables_shape tables.now) k a self.new (state_of world.new h) ≡ then_do (value (tables_shape tables.now) k (node_shape node.now) (state_of world.old h)) (to_value (left (tables_shape tables.now) k self.old))) }
        ensures falls { IfOk result (λ a. Lower a (4 * world.new.turns + size_after a self.new) (4 * world.old.turns + weights self.old.stack.items)) }
        ensures kept { OnOk result (Kept world.old world.new) }
    {
        if !world.turn() {
            return Ok(Step::Stopped(Stop::Turns));
        }
        let step = self.begin(tables, world, node)?;
        Ok(step)
    }

    // A node whose place is wanted.
    pub(super) fn open_place(
        &mut self,
        tables: &'p Tables,
        world: &mut World<'p>,
        node: &'p Node,
    ) -> Result<Step, NoMemory>
        ensures rest { IfOk result (λ a. (k : Knot) (h : List Event) → rest_after (tables_shape tables.now) k a self.new (state_of world.new h) ≡ then_do (place (tables_shape tables.now) k (node_shape node.now) (state_of world.old h)) (to_spot (left (tables_shape tables.now) k self.old))) }
        ensures falls { IfOk result (λ a. Lower a (1 + (4 * world.new.turns + size_after a self.new)) (4 * world.old.turns + weights self.old.stack.items)) }
        ensures kept { OnOk result (Kept world.old world.new) }
    {
        match pass_place(world, node)? {
            Passed::Stopped(why) => Ok(Step::Stopped(why)),
            Passed::Node(node) => {
                let step = self.enter_place(tables, world, node)?;
                Ok(step)
            }
        }
    }

    // The turn of a place, and its begin.
    fn enter_place(
        &mut self,
        tables: &'p Tables,
        world: &mut World<'p>,
        node: &'p Node,
    ) -> Result<Step, NoMemory>
        requires { is_bare_place node.now.form ≡ true }
        ensures rest { IfOk result (λ a. (k : Knot) (h : List Event) → rest_after (tables_shape tables.now) k a self.new (state_of world.new h) ≡ then_do (place (tables_shape tables.now) k (node_shape node.now) (state_of world.old h)) (to_spot (left (tables_shape tables.now) k self.old))) }
        ensures falls { IfOk result (λ a. Lower a (1 + (4 * world.new.turns + size_after a self.new)) (4 * world.old.turns + weights self.old.stack.items)) }
        ensures kept { OnOk result (Kept world.old world.new) }
    {
        if !has_place(node) {
            return Ok(Step::Stopped(Stop::Fault(Fault::NoResult)));
        }
        if !world.turn() {
            return Ok(Step::Stopped(Stop::Turns));
        }
        let step = self.begin_place(tables, world, node)?;
        Ok(step)
    }

    // What a value or none is for.
    pub(super) fn give(
        &mut self,
        tables: &'p Tables,
        world: &mut World<'p>,
        value: Option<Value>,
    ) -> Result<Step, NoMemory>
        ensures rest { IfOk result (λ a. (k : Knot) (h : List Event) → rest_after (tables_shape tables.now) k a self.new (state_of world.new h) ≡ left (tables_shape tables.now) k self.old (Val value) (state_of world.old h)) }
        ensures falls { IfOk result (λ a. Lower a (4 * world.new.turns + size_after a self.new) (4 * world.old.turns + 1 + weights self.old.stack.items)) }
        ensures kept { OnOk result (Kept world.old world.new) }
    {
        loop {
            let Some(frame) = self.stack.pop() else {
                return Ok(Step::Answer(value));
            };
            if !is_probe(&frame) {
                let step = self.take(tables, world, frame, value)?;
                return Ok(step);
            }
            if !tell_waiting(world, frame.node, value)? {
                return Ok(Step::Stopped(Stop::Fault(Fault::NoResult)));
            }
        }
    }

    // What a place is for.
    pub(super) fn give_place(
        &mut self,
        tables: &'p Tables,
        world: &mut World<'p>,
        at: Pointer,
    ) -> Result<Step, NoMemory>
        ensures rest { IfOk result (λ a. (k : Knot) (h : List Event) → rest_after (tables_shape tables.now) k a self.new (state_of world.new h) ≡ left (tables_shape tables.now) k self.old (Spot at) (state_of world.old h)) }
        ensures falls { IfOk result (λ a. Lower a (4 * world.new.turns + size_after a self.new) (4 * world.old.turns + 1 + weights self.old.stack.items)) }
        ensures kept { OnOk result (Kept world.old world.new) }
    {
        match self.stack.pop() {
            None => Ok(Step::Stopped(Stop::Fault(Fault::NoResult))),
            Some(frame) => {
                let step = self.take_place(tables, world, frame, at)?;
                Ok(step)
            }
        }
    }
}

// The node is a place whose value is read from it.
fn stands(node: &Node) -> bool
    ensures { result ≡ standing node.now.note node.now.form }
{
    match &node.form {
        Expr::Name(_) => matches!(&node.note, Note::Typed(_, Some(_))),
        Expr::Unary(UnaryOp::Deref, _)
        | Expr::Index(_, _)
        | Expr::Member(_, _, _)
        | Expr::Arrow(_, _, _) => true,
        Expr::Probe(ExprProbe::Use(_) | ExprProbe::Def(_), _) => true,
        _ => false,
    }
}

// The node is a place, or a comma, which may be one.
fn has_place(node: &Node) -> bool
    ensures { result ≡ has_place node.now.note node.now.form }
{
    match &node.form {
        Expr::Name(_) => matches!(&node.note, Note::Typed(_, Some(_))),
        Expr::Unary(UnaryOp::Deref, _)
        | Expr::Index(_, _)
        | Expr::Member(_, _, _)
        | Expr::Arrow(_, _, _)
        | Expr::Comma(_, _) => true,
        _ => false,
    }
}

// A probe waits in the frame.
#[inline(always)]
fn is_probe(frame: &Frame) -> bool
    ensures { result ≡ is_probe frame.now.wait }
{
    matches!(frame.wait, Wait::Probe)
}

// Tells the outcome of the value in a probe; false where there is none, or the probe has no number.
fn tell_waiting(world: &mut World, node: &Node, value: Option<Value>) -> Result<bool, NoMemory>
    ensures told { IfOk result (λ r. (t : TablesShape) (k : Knot) (go : Taker) (h : List Event) → waiting t k node.now Wait.Probe go (Val value) (state_of world.old h) ≡ told r (state_of world.new h) (λ s. go (Val value) s)) }
    ensures kept { OnOk result (Kept world.old world.new) }
    ensures turns { OnOk result (world.new.turns ≡ world.old.turns) }
{
    match value {
        None => Ok(false),
        Some(value) => {
            let told = tell_test(world, node, value)?;
            Ok(told)
        }
    }
}
