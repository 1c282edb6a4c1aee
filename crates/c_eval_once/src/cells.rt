//! Cells that are read and written, with what is told of them.

ghost use Rattle.std.specs.Prelude.{◌≡◌, List, [], true};
ghost use Rattle.c_events.specs.declared.events.Event.{Event};
ghost use Rattle.c_syntax.specs.Shape.{Probing, used, def};
ghost use Rattle.c_syntax.specs.View.{node_shape};
ghost use Rattle.c_meaning.specs.Firsts.{quiet};
ghost use Rattle.c_meaning.specs.Places.{marks, loaded};
ghost use Rattle.c_meaning.specs.Constants.{type_at};
ghost use Rattle.c_meaning.specs.Expressions.{written};
ghost use Rattle.c_compute.specs.Narrow.{direction};
ghost use Rattle.c_world.specs.World.{state_of};
ghost use Rattle.c_eval_once.specs.Parts.{stepped_there, is_front, combined_into};
ghost use Rattle.c_eval_once.specs.Forms.{Kept, Meets, Loads};

use crate::leaf::{converted_to, is_front, operate, step_by_one};
use crate::reply::Answer;
use crate::telling::{tell_definitions, tell_uses};
use c_meaning::end::Stop;
use c_store::value::{Fault, Pointer, Value};
use c_syntax::tree::{BinaryOp, Expr, Node, StepOp};
use c_world::world::World;

/// The value of the cell at the place that the node is, with the uses that its probes tell.
#[inline(always)]
pub fn load(world: &mut World, node: &Node, at: Pointer) -> Answer
    ensures is { (h : List Event) → Loads result (state_of world.new h) (loaded (marks used (node_shape node.now)) (quiet 0) at (state_of world.old h)) }
    ensures kept { Kept world.old world.new }
    ensures turns { world.new.turns ≡ world.old.turns }
{
    match world.read(at) {
        Err(fault) => Answer::Stopped(Stop::Fault(fault)),
        Ok(value) => {
            if is_bare(node) {
                return Answer::Value(value);
            }
            match tell_uses(world, node, at) {
                Err(_) => Answer::NoMemory,
                Ok(true) => Answer::Value(value),
                Ok(false) => Answer::Stopped(Stop::Fault(Fault::NoResult)),
            }
        }
    }
}

/// The value is written into the cell at the place that the node is, in the place's type, and is then the assignment's (C89,
/// 3.3.16); its probes tell the definitions.
#[inline(always)]
pub fn write(world: &mut World, node: &Node, at: Pointer, value: Value) -> Answer
    ensures is { (h : List Event) → Meets result (state_of world.new h) (written (type_at (node_shape node.now)) (marks def (node_shape node.now)) (quiet 0) at value (state_of world.old h)) }
    ensures kept { Kept world.old world.new }
    ensures turns { world.new.turns ≡ world.old.turns }
{
    let value = converted_to(node, value);
    match world.write(at, value) {
        Err(fault) => Answer::Stopped(Stop::Fault(fault)),
        Ok(()) => {
            if is_bare(node) {
                return Answer::Value(value);
            }
            match tell_definitions(world, node, at) {
                Err(_) => Answer::NoMemory,
                Ok(true) => Answer::Value(value),
                Ok(false) => Answer::Stopped(Stop::Fault(Fault::NoResult)),
            }
        }
    }
}

/// The place's value and another one meet in an operator, and the place is written (C89, 3.3.16.2).
#[inline(always)]
pub fn write_combined(
    world: &mut World,
    op: BinaryOp,
    a: &Node,
    b: &Node,
    at: Pointer,
    left: Value,
    right: Value,
) -> Answer
    ensures is { (h : List Event) → Meets result (state_of world.new h) (combined_into op (node_shape a.now) (node_shape b.now) at left right (state_of world.old h)) }
    ensures kept { Kept world.old world.new }
    ensures turns { world.new.turns ≡ world.old.turns }
{
    match operate(op, a, b, left, right) {
        Err(fault) => Answer::Stopped(Stop::Fault(fault)),
        Ok(value) => write(world, a, at, value),
    }
}

/// A step over the place that the node is: its value before the step, or the one behind it (C89, 3.3.2.4 and 3.3.3.1).
#[inline(always)]
pub fn stepped(world: &mut World, op: StepOp, node: &Node, at: Pointer) -> Answer
    ensures is { (h : List Event) → Meets result (state_of world.new h) (stepped_there (is_front op) (direction op) (node_shape node.now) at (state_of world.old h)) }
    ensures kept { Kept world.old world.new }
    ensures turns { world.new.turns ≡ world.old.turns }
{
    match load(world, node, at) {
        Answer::NoMemory => Answer::NoMemory,
        Answer::Stopped(why) => Answer::Stopped(why),
        Answer::Value(before) => match step_by_one(op, node, before) {
            Err(fault) => Answer::Stopped(Stop::Fault(fault)),
            Ok(value) => match write(world, node, at, value) {
                Answer::NoMemory => Answer::NoMemory,
                Answer::Stopped(why) => Answer::Stopped(why),
                Answer::Value(after) => Answer::Value(if is_front(op) { after } else { before }),
            },
        },
    }
}

// The place stands in no probe.
#[inline(always)]
pub(crate) fn is_bare(node: &Node) -> bool
    ensures { result ≡ true → (u : Probing) → marks u (node_shape node.now) ≡ [] }
{
    !matches!(&node.form, Expr::Paren(_) | Expr::Probe(_, _))
}
