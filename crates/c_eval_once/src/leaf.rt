//! What leaves and operators give of values, by the types that are noted.

ghost use Rattle.std.specs.Prelude.{◌≡◌, true, List, Option, Some, IfOk, option_map};
ghost use Rattle.c_events.specs.declared.events.Event.{Event};
ghost use Rattle.c_syntax.specs.View.{node_shape, note_shape, type_of};
ghost use Rattle.c_tables.specs.Tables.{TablesShape, tables_shape};
ghost use Rattle.c_meaning.specs.State.{State};
ghost use Rattle.c_meaning.specs.Results.{Gives, then_do, settled};
ghost use Rattle.c_meaning.specs.Operators.{converted, operated, stepped_by_one, element_pointer, of_one, target, pointed};
ghost use Rattle.c_meaning.specs.Places.{field_place, variable_place};
ghost use Rattle.c_meaning.specs.Constants.{type_at};
ghost use Rattle.c_meaning.specs.Knot.{Knot};
ghost use Rattle.c_meaning.specs.Expressions.{gives, operand, cast_value, literal_value};
ghost use Rattle.c_world.specs.World.{state_of};
ghost use Rattle.c_compute.specs.Narrow.{direction};
ghost use Rattle.c_world.specs.Steps.{found};
ghost use Rattle.c_eval_once.specs.Parts.{value, replied, combined, element_at, is_front, truth_at, one_more};
ghost use Rattle.c_eval_once.specs.Forms.{fetched_as, is_leaf, noted_kind, Meets};

use crate::number::number;
use crate::reply::{Answer, Reply};
use c_arith::convert;
use c_base::place::IntKind;
use c_compute::layout::part_in;
use c_compute::operators;
use c_meaning::end::Stop;
use c_store::value::{Fault, Pointer, Value};
use c_syntax::text::Text;
use c_syntax::tree::{BinaryOp, CType, Expr, Node, Note, StepOp, UnaryOp};
use c_tables::tables::Tables;
use c_world::places::{cells_in, object_at};
use c_world::world::World;

// ---- leaves

/// The value of a constant, a literal or a `sizeof` (C89, 3.1.3, 3.1.4 and 3.3.3.4), whose turn was taken.
#[inline(always)]
pub fn leaf(node: &Node) -> Answer
    requires { is_leaf node.now.note node.now.form ≡ true }
    ensures { (t : TablesShape) (k : Knot) (s : State) → Meets result s (value t k (node_shape node.now) (one_more s)) }
{
    match &node.form {
        Expr::Number(text) => number(text.bytes()),
        Expr::Char(byte) => Answer::Value(Value::Int(convert(i128::from(*byte), IntKind::Char))),
        Expr::Str(text) => literal(&node.note, text),
        _ => match &node.note {
            Note::Known(_, value) => Answer::Value(Value::Int(*value)),
            Note::Bare | Note::Typed(_, _) => Answer::Stopped(Stop::Fault(Fault::NoResult)),
        },
    }
}

// A pointer to the first char of a string literal's instance.
fn literal(note: &Note, text: &Text) -> Answer
    ensures { (s : State) → Meets result s (literal_value (note_shape note.now) text.now s) }
{
    match note {
        Note::Typed(_, Some(number)) if text.len() < 1_048_576 => Answer::Value(Value::At(
            Pointer {
                instance: u64::from(*number),
                base: 0,
                length: text.len() + 1,
                size: 1,
                index: 0,
            },
        )),
        _ => Answer::Stopped(Stop::Fault(Fault::NoResult)),
    }
}

// ---- operators

// The noted type, where there is one.
#[inline(always)]
fn kind(node: &Node) -> Option<&CType>
    ensures { option_map (λ k. type_of k.now) result ≡ noted_kind (note_shape node.now.note) }
{
    match &node.note {
        Note::Bare => None,
        Note::Typed(kind, _) | Note::Known(kind, _) => Some(kind),
    }
}

/// The value in the node's type (C89, 3.2).
#[inline(always)]
pub fn converted_to(node: &Node, value: Value) -> Value
    ensures { result ≡ converted (type_at (node_shape node.now)) value }
{
    match kind(node) {
        None => value,
        Some(kind) => operators::converted(kind, value),
    }
}

/// The value that `?:` has chosen, in its type (C89, 3.3.15).
pub fn converted_by(node: &Node, value: Option<Value>) -> Option<Value>
    ensures { result ≡ option_map (converted (type_at (node_shape node.now))) value }
{
    match value {
        None => None,
        Some(value) => Some(converted_to(node, value)),
    }
}

/// A cast (C89, 3.3.4): nothing is needed of an operand under a cast to `void`.
pub fn cast(node: &Node, value: Option<Value>) -> Result<Option<Value>, Stop>
    ensures { (s : State) → cast_value (type_at (node_shape node.now)) (Gives value s) ≡ fetched_as result s }
{
    match kind(node) {
        None | Some(CType::Void) => Ok(None),
        Some(kind) => match value {
            None => Err(Stop::Fault(Fault::NoResult)),
            Some(value) => Ok(Some(operators::converted(kind, value))),
        },
    }
}

/// An operator in front of an operand (C89, 3.3.3.3).
pub fn unary(op: UnaryOp, node: &Node, value: Value) -> Reply
    ensures { (s : State) → then_do (settled (of_one op (operand (node_shape node.now)) value) s) gives ≡ then_do (replied result s) gives }
{
    settle(of_one(op, node, value))
}

/// What it makes of the operand's value.
pub fn of_one(op: UnaryOp, node: &Node, value: Value) -> Result<Value, Fault>
    ensures { result ≡ of_one op (operand (node_shape node.now)) value }
{
    match kind(node) {
        None => operators::of_one(op, &CType::Void, value),
        Some(kind) => operators::of_one(op, kind, value),
    }
}

#[inline(always)]
fn settle(given: Result<Value, Fault>) -> Reply
    ensures { (s : State) → settled given s ≡ replied result s }
{
    match given {
        Ok(value) => Reply::Value(value),
        Err(fault) => Reply::Stopped(Stop::Fault(fault)),
    }
}

/// What the operator makes of the two operands' values (C89, 3.3.5 to 3.3.12).
#[inline(always)]
pub fn operate(op: BinaryOp, a: &Node, b: &Node, left: Value, right: Value) -> Result<Value, Fault>
    ensures { result ≡ operated op (operand (node_shape a.now)) (operand (node_shape b.now)) left right }
{
    match (kind(a), kind(b)) {
        (Some(j), Some(k)) => operators::operated(op, j, k, left, right),
        _ => Err(Fault::NoResult),
    }
}

#[inline(always)]
pub fn combined(op: BinaryOp, a: &Node, b: &Node, left: Value, right: Value) -> Reply
    ensures { (s : State) → combined op (node_shape a.now) (node_shape b.now) left right s ≡ then_do (replied result s) gives }
{
    settle(operate(op, a, b, left, right))
}

/// The value one step further (C89, 3.3.2.4).
pub fn step_by_one(op: StepOp, node: &Node, value: Value) -> Result<Value, Fault>
    ensures { result ≡ stepped_by_one (direction op) (operand (node_shape node.now)) value }
{
    match kind(node) {
        None => Err(Fault::NoResult),
        Some(kind) => operators::stepped_by_one(op, kind, value),
    }
}

/// The step stands in front of its operand.
pub fn is_front(op: StepOp) -> bool
    ensures { result ≡ is_front op }
{
    matches!(op, StepOp::PreInc | StepOp::PreDec)
}

/// 1 for a value that compares unequal to 0, and 0 for another one (C89, 3.3.13).
pub fn truth_at(value: Value) -> Value
    ensures { (s : State) → truth_at value s ≡ gives result s }
{
    if operators::is_true(value) {
        Value::Int(1)
    } else {
        Value::Int(0)
    }
}

// ---- places

/// The place of an element (C89, 3.3.2.1).
#[inline(always)]
pub fn element_at(a: &Node, b: &Node, left: Value, right: Value) -> Result<Pointer, Fault>
    ensures { (s : State) → element_at (node_shape a.now) (node_shape b.now) left right s ≡ settled result s }
{
    match element_pointer(a, b, left, right) {
        Ok(value) => operators::target(value),
        Err(fault) => Err(fault),
    }
}

#[inline(always)]
fn element_pointer(a: &Node, b: &Node, left: Value, right: Value) -> Result<Value, Fault>
    ensures { result ≡ element_pointer (operand (node_shape a.now)) (operand (node_shape b.now)) left right }
{
    match (kind(a), kind(b)) {
        (Some(j), Some(k)) => operators::element(j, k, left, right),
        _ => Err(Fault::NoResult),
    }
}

/// The place of the field in the structure at that place (C89, 3.3.2.3).
pub fn field(
    tables: &Tables,
    world: &World,
    name: &Text,
    node: &Node,
    at: Pointer,
) -> Result<Pointer, Stop>
    ensures { (h : List Event) → field_place (tables_shape tables.now) name.now (type_at (node_shape node.now)) at (state_of world.now h) ≡ found result (state_of world.now h) }
{
    match kind(node) {
        None => Err(Stop::Fault(Fault::NoResult)),
        Some(kind) => field_of(tables, world, name, kind, at),
    }
}

/// The same of the structure that the value points to.
pub fn field_behind(
    tables: &Tables,
    world: &World,
    name: &Text,
    node: &Node,
    value: Value,
) -> Result<Pointer, Stop>
    ensures { (h : List Event) → then_do (settled (target value) (state_of world.now h)) (field_place (tables_shape tables.now) name.now (pointed (operand (node_shape node.now)))) ≡ found result (state_of world.now h) }
{
    match operators::target(value) {
        Err(fault) => Err(Stop::Fault(fault)),
        Ok(at) => match kind(node) {
            Some(CType::Pointer(kind)) => field_of(tables, world, name, kind, at),
            Some(CType::Array(kind, _)) => field_of(tables, world, name, kind, at),
            _ => Err(Stop::Fault(Fault::NoResult)),
        },
    }
}

fn field_of(
    tables: &Tables,
    world: &World,
    name: &Text,
    kind: &CType,
    at: Pointer,
) -> Result<Pointer, Stop>
    ensures { (h : List Event) → field_place (tables_shape tables.now) name.now (type_of kind.now) at (state_of world.now h) ≡ found result (state_of world.now h) }
{
    match part_in(tables, name.bytes(), kind) {
        None => Err(Stop::Fault(Fault::NoResult)),
        Some(part) => world.select(at, part.offset, 1, cells_in(tables, part.kind)),
    }
}

/// The variable of that number and type (C89, 3.3.1).
#[inline(always)]
pub fn variable(tables: &Tables, world: &World, kind: &CType, number: u32) -> Result<Pointer, Stop>
    ensures { (h : List Event) → variable_place (tables_shape tables.now) (type_of kind.now) number (state_of world.now h) ≡ found result (state_of world.now h) }
{
    match world.instance(number) {
        None => Err(Stop::Fault(Fault::NoResult)),
        Some(instance) => object_at(instance, cells_in(tables, kind)),
    }
}
