//! Operands without operands, whose turn and value are taken at once.

ghost use Rattle.std.specs.Prelude.{◌≡◌, ◌≤◌, ◌<◌, List, Option, Some, true, IfSome, OnOk};
ghost use Rattle.c_events.specs.declared.events.Event.{Event};
ghost use Rattle.c_base.specs.declared.place.Pos.{Pos};
ghost use Rattle.c_syntax.specs.declared.text.Text.{Text};
ghost use Rattle.c_syntax.specs.View.{node_shape, type_of};
ghost use Rattle.c_syntax.specs.Shape.{array, node, leaf, name, typed};
ghost use Rattle.c_tables.specs.Tables.{TablesShape, tables_shape};
ghost use Rattle.c_meaning.specs.State.{State};
ghost use Rattle.c_meaning.specs.Results.{then_do, turn};
ghost use Rattle.c_meaning.specs.Places.{variable_place};
ghost use Rattle.c_meaning.specs.Knot.{Knot};
ghost use Rattle.c_meaning.specs.Expressions.{gives};
ghost use Rattle.c_world.specs.World.{state_of};
ghost use Rattle.c_world.specs.Steps.{found};
ghost use Rattle.c_eval_once.specs.Parts.{value};
ghost use Rattle.c_eval_once.specs.Forms.{Kept, is_leaf, scalar_value, IsAtOnce, IsPlaceAtOnce, IsFewer, Meets};

use crate::leaf::{leaf, variable};
use crate::reply::Answer;
use c_meaning::end::Stop;
use c_store::value::{Fault, Pointer, Value};
use c_syntax::tree::{CType, Expr, Node, Note};
use c_tables::tables::Tables;
use c_world::places::{cells_in, whole};
use c_world::world::World;

/// The value of a constant, a literal, a `sizeof` or a variable of scalar type (C89, 3.3.1), whose turn is taken; `None` for
/// any other node, and nothing is done.
#[inline(always)]
pub fn at_once(world: &mut World, node: &Node) -> Option<Answer>
    ensures is { (t : TablesShape) (k : Knot) (h : List Event) → IsAtOnce result t k (node_shape node.now) (state_of world.old h) (state_of world.new h) }
    ensures kept { Kept world.old world.new }
    ensures turns { world.new.turns ≤ world.old.turns }
    ensures fewer { IfSome result (λ r. IsFewer r world.new.turns world.old.turns) }
{
    match &node.form {
        Expr::Name(_) => match &node.note {
            Note::Typed(CType::Int(_) | CType::Pointer(_), Some(number)) => {
                Some(scalar(world, *number))
            }
            Note::Typed(_, Some(_)) => None,
            Note::Typed(_, None) | Note::Known(_, _) | Note::Bare => Some(constant(world, node)),
        },
        Expr::Number(_) | Expr::Char(_) | Expr::Str(_) | Expr::SizeOf(_) | Expr::SizeOfType(_) =>
            Some(constant(world, node)),
        _ => None,
    }
}

/// The turn and the value of a leaf.
#[tactic(auto, using(crate::proofs::Once::fewer))]
#[inline(always)]
pub fn constant(world: &mut World, node: &Node) -> Answer
    requires { is_leaf node.now.note node.now.form ≡ true }
    ensures is { (t : TablesShape) (k : Knot) (h : List Event) → Meets result (state_of world.new h) (value t k (node_shape node.now) (state_of world.old h)) }
    ensures kept { Kept world.old world.new }
    ensures turns { world.new.turns ≤ world.old.turns }
    ensures fewer { IsFewer result world.new.turns world.old.turns }
{
    if !world.turn() {
        return Answer::Stopped(Stop::Turns);
    }
    leaf(node)
}

/// The turn and the value of a variable of scalar type.
#[inline(always)]
pub fn scalar(world: &mut World, number: u32) -> Answer
    ensures is { (h : List Event) → Meets result (state_of world.new h) (then_do (scalar_value number (state_of world.old h)) gives) }
    ensures kept { Kept world.old world.new }
    ensures turns { world.new.turns ≤ world.old.turns }
    ensures fewer { IsFewer result world.new.turns world.old.turns }
{
    if !world.turn() {
        return Answer::Stopped(Stop::Turns);
    }
    match world.instance(number) {
        None => Answer::Stopped(Stop::Fault(Fault::NoResult)),
        Some(instance) => match world.read(whole(instance, 1)) {
            Ok(value) => Answer::Value(value),
            Err(fault) => Answer::Stopped(Stop::Fault(fault)),
        },
    }
}

/// The place of a variable (C89, 3.3.1), whose turn is taken; `None` for any other node, and nothing is done.
#[inline(always)]
pub fn place_at_once(
    tables: &Tables,
    world: &mut World,
    node: &Node,
) -> Option<Result<Pointer, Stop>>
    ensures is { (k : Knot) (h : List Event) → IsPlaceAtOnce result (tables_shape tables.now) k (node_shape node.now) (state_of world.old h) (state_of world.new h) }
    ensures kept { Kept world.old world.new }
    ensures turns { world.new.turns ≤ world.old.turns }
{
    match &node.form {
        Expr::Name(_) => match &node.note {
            Note::Typed(kind, Some(number)) => Some(place(tables, world, kind, *number)),
            _ => None,
        },
        _ => None,
    }
}

/// The turn and the place of a variable.
#[inline(always)]
pub fn place(tables: &Tables, world: &mut World, kind: &CType, number: u32) -> Result<Pointer, Stop>
    ensures is { (h : List Event) → turn (state_of world.old h) (variable_place (tables_shape tables.now) (type_of kind.now) number) ≡ found result (state_of world.new h) }
    ensures kept { Kept world.old world.new }
    ensures turns { world.new.turns ≤ world.old.turns }
    ensures fewer { OnOk result (world.new.turns < world.old.turns) }
{
    if !world.turn() {
        return Err(Stop::Turns);
    }
    variable(tables, world, kind, number)
}

/// The turn and the value of a variable that is an array.
#[inline(always)]
pub fn array_value(
    tables: &Tables,
    world: &mut World,
    kind: &CType,
    of: &CType,
    length: u32,
    number: u32,
) -> Answer
    requires { type_of kind.now ≡ array (type_of of.now) length }
    ensures is { (k : Knot) (p o : Pos) (x : Text) (h : List Event) → Meets result (state_of world.new h) (value (tables_shape tables.now) k (node p o (typed (type_of kind.now) (Some number)) (leaf (name x))) (state_of world.old h)) }
    ensures kept { Kept world.old world.new }
    ensures turns { world.new.turns ≤ world.old.turns }
    ensures fewer { IsFewer result world.new.turns world.old.turns }
{
    match place(tables, world, kind, number) {
        Err(why) => Answer::Stopped(why),
        Ok(at) => match world.select(at, 0, length, cells_in(tables, of)) {
            Ok(first) => Answer::Value(Value::At(first)),
            Err(why) => Answer::Stopped(why),
        },
    }
}
