//! Direct values: constants, variables, elements, what pointers point to, operators on these, and probes round any of these.

ghost use Rattle.std.specs.Prelude.{◌≡◌, ◌≤◌, List, Some, None, true, false};
ghost use Rattle.c_events.specs.declared.events.Event.{Event};
ghost use Rattle.c_syntax.specs.Shape.{two, plain, and, or, assign, prefix, unary, suffix, index, probe, simple, block};
ghost use Rattle.c_syntax.specs.View.{node_shape, expr_shape, probe_shape, step_shape};
ghost use Rattle.c_syntax.specs.declared.tree.UnaryOp.TheVariants as front;
ghost use Rattle.c_tables.specs.Tables.{tables_shape};
ghost use Rattle.c_walk.specs.declared.around.Taken.{Taken};
ghost use Rattle.c_meaning.specs.Firsts.{quiet};
ghost use Rattle.c_meaning.specs.Knot.{Knot};
ghost use Rattle.c_meaning.specs.Expressions.{meaning, last_test};
ghost use Rattle.c_world.specs.World.{state_of};
ghost use Rattle.c_eval_once.specs.Parts.{value};
ghost use Rattle.c_eval_once.specs.Forms.{Kept, Meets, Stands, IsFewer, IsNearer, is_address, is_deref, is_valued, standing};
ghost use Rattle.c_eval_direct.specs.Aside.{given};
ghost use Rattle.c_eval_direct.specs.Direct.{is_copied, is_judged, is_direct, is_direct_place};

use crate::forms::is_deref;
use crate::parts::{
    behind_probes, combined, fetch, given, judge, put, put_leaf, put_name, settle, variable,
};
use c_compute::operators::{is_true, target};
use c_eval_once::at_once::scalar;
use c_eval_once::cells::{load, stepped as step, write, write_combined};
use c_eval_once::leaf::{element_at, of_one, truth_at};
use c_eval_once::reply::{Answer, Spot};
use c_eval_once::telling::tell_block;
use c_meaning::end::Stop;
use c_store::value::{Fault, Value};
use c_syntax::text::Text;
use c_syntax::tree::{BinaryOp, CType, Expr, ExprProbe, Node, Note, StepOp, UnaryOp};
use c_tables::tables::Tables;
use c_world::world::World;

/// The value of a direct expression, whose turns are taken and whose events are logged, with room for what stands aside.
#[cycle(values)]
#[inline(always)]
pub fn value_with(tables: &Tables, world: &mut World, node: &Node, aside: &mut Answer) -> Answer
    requires { is_direct node.now.note node.now.form ≡ true }
    ensures is { (k : Knot) (h : List Event) → Meets result (state_of world.new h) (value (tables_shape tables.now) k (node_shape node.now) (state_of world.old h)) }
    ensures kept { Kept world.old world.new }
    ensures turns { world.new.turns ≤ world.old.turns }
    ensures fewer { IsFewer result world.new.turns world.old.turns }
{
    given(evaluate(tables, world, node, aside), aside)
}

// The same: a number of 64 bits by itself; `None` for all else, which then stands aside.
#[cycle(values)]
#[inline(never)]
fn evaluate(tables: &Tables, world: &mut World, node: &Node, aside: &mut Answer) -> Option<i64>
    requires { is_direct node.now.note node.now.form ≡ true }
    ensures is { (k : Knot) (h : List Event) → Meets (given result aside.new) (state_of world.new h) (value (tables_shape tables.now) k (node_shape node.now) (state_of world.old h)) }
    ensures kept { Kept world.old world.new }
    ensures turns { world.new.turns ≤ world.old.turns }
    ensures fewer { IsFewer (given result aside.new) world.new.turns world.old.turns }
{
    match &node.form {
        Expr::Name(_) => match &node.note {
            Note::Typed(CType::Int(_) | CType::Pointer(_), Some(number)) => {
                put(scalar(world, *number), aside)
            }
            _ => put_name(tables, world, node, aside),
        },
        Expr::Paren(a) => evaluate(tables, world, a, aside),
        Expr::Binary(op, a, b) => met(tables, world, node, *op, a, b, aside),
        Expr::And(a, b) => both(tables, world, node, a, b, aside),
        Expr::Or(a, b) => either(tables, world, node, a, b, aside),
        Expr::Unary(op, a) => {
            if is_deref(*op) {
                read(tables, world, node, aside)
            } else {
                turned(tables, world, node, *op, a, aside)
            }
        }
        Expr::Index(_, _) => read(tables, world, node, aside),
        Expr::Assign(way, a, b) => match way {
            None => assigned(tables, world, node, a, b, aside),
            Some(op) => changed(tables, world, node, *op, a, b, aside),
        },
        Expr::Step(op, a) => stepped(tables, world, node, *op, a, aside),
        Expr::Probe(probe, a) => match probe {
            ExprProbe::Use(_) | ExprProbe::Def(_) => read(tables, world, node, aside),
            ExprProbe::Block(text) => entered(tables, world, node, text, a, aside),
            ExprProbe::Test(_) | ExprProbe::Select(_, _) => {
                judged(tables, world, node, probe, a, aside)
            }
        },
        _ => put_leaf(world, node, aside),
    }
}

// Two operands' values meet in the operator.
#[cycle(values)]
#[inline(never)]
fn met(
    tables: &Tables,
    world: &mut World,
    node: &Node,
    op: BinaryOp,
    a: &Node,
    b: &Node,
    aside: &mut Answer,
) -> Option<i64>
    requires form { expr_shape node.now.form ≡ two (plain op) (node_shape a.now) (node_shape b.now) }
    requires left { is_direct a.now.note a.now.form ≡ true }
    requires right { is_direct b.now.note b.now.form ≡ true }
    ensures is { (k : Knot) (h : List Event) → Meets (given result aside.new) (state_of world.new h) (value (tables_shape tables.now) k (node_shape node.now) (state_of world.old h)) }
    ensures kept { Kept world.old world.new }
    ensures turns { world.new.turns ≤ world.old.turns }
    ensures fewer { IsFewer (given result aside.new) world.new.turns world.old.turns }
{
    if !world.turn() {
        return put(Answer::Stopped(Stop::Turns), aside);
    }
    match value_with(tables, world, a, aside) {
        Answer::NoMemory => put(Answer::NoMemory, aside),
        Answer::Stopped(why) => put(Answer::Stopped(why), aside),
        Answer::Value(left) => match value_with(tables, world, b, aside) {
            Answer::NoMemory => put(Answer::NoMemory, aside),
            Answer::Stopped(why) => put(Answer::Stopped(why), aside),
            Answer::Value(right) => combined(op, a, b, left, right, aside),
        },
    }
}

// An operator in front of its operand.
#[cycle(values)]
#[inline(never)]
fn turned(
    tables: &Tables,
    world: &mut World,
    node: &Node,
    op: UnaryOp,
    a: &Node,
    aside: &mut Answer,
) -> Option<i64>
    requires form { expr_shape node.now.form ≡ prefix (unary op) (node_shape a.now) }
    requires address { is_address op ≡ false }
    requires deref { is_deref op ≡ false }
    requires operand { is_direct a.now.note a.now.form ≡ true }
    ensures is { (k : Knot) (h : List Event) → Meets (given result aside.new) (state_of world.new h) (value (tables_shape tables.now) k (node_shape node.now) (state_of world.old h)) }
    ensures kept { Kept world.old world.new }
    ensures turns { world.new.turns ≤ world.old.turns }
    ensures fewer { IsFewer (given result aside.new) world.new.turns world.old.turns }
{
    if !world.turn() {
        return put(Answer::Stopped(Stop::Turns), aside);
    }
    match value_with(tables, world, a, aside) {
        Answer::NoMemory => put(Answer::NoMemory, aside),
        Answer::Stopped(why) => put(Answer::Stopped(why), aside),
        Answer::Value(operand) => put(settle(of_one(op, a, operand)), aside),
    }
}

// `&&` (C89, 3.3.13).
#[cycle(values)]
#[inline(never)]
fn both(
    tables: &Tables,
    world: &mut World,
    node: &Node,
    a: &Node,
    b: &Node,
    aside: &mut Answer,
) -> Option<i64>
    requires form { expr_shape node.now.form ≡ two and (node_shape a.now) (node_shape b.now) }
    requires left { is_direct a.now.note a.now.form ≡ true }
    requires right { is_direct b.now.note b.now.form ≡ true }
    ensures is { (k : Knot) (h : List Event) → Meets (given result aside.new) (state_of world.new h) (value (tables_shape tables.now) k (node_shape node.now) (state_of world.old h)) }
    ensures kept { Kept world.old world.new }
    ensures turns { world.new.turns ≤ world.old.turns }
    ensures fewer { IsFewer (given result aside.new) world.new.turns world.old.turns }
{
    if !world.turn() {
        return put(Answer::Stopped(Stop::Turns), aside);
    }
    match value_with(tables, world, a, aside) {
        Answer::NoMemory => put(Answer::NoMemory, aside),
        Answer::Stopped(why) => put(Answer::Stopped(why), aside),
        Answer::Value(left) => {
            if is_true(left) {
                put(truth(tables, world, b, aside), aside)
            } else {
                put(Answer::Value(Value::Int(0)), aside)
            }
        }
    }
}

// `||` (C89, 3.3.14).
#[cycle(values)]
#[inline(never)]
fn either(
    tables: &Tables,
    world: &mut World,
    node: &Node,
    a: &Node,
    b: &Node,
    aside: &mut Answer,
) -> Option<i64>
    requires form { expr_shape node.now.form ≡ two or (node_shape a.now) (node_shape b.now) }
    requires left { is_direct a.now.note a.now.form ≡ true }
    requires right { is_direct b.now.note b.now.form ≡ true }
    ensures is { (k : Knot) (h : List Event) → Meets (given result aside.new) (state_of world.new h) (value (tables_shape tables.now) k (node_shape node.now) (state_of world.old h)) }
    ensures kept { Kept world.old world.new }
    ensures turns { world.new.turns ≤ world.old.turns }
    ensures fewer { IsFewer (given result aside.new) world.new.turns world.old.turns }
{
    if !world.turn() {
        return put(Answer::Stopped(Stop::Turns), aside);
    }
    match value_with(tables, world, a, aside) {
        Answer::NoMemory => put(Answer::NoMemory, aside),
        Answer::Stopped(why) => put(Answer::Stopped(why), aside),
        Answer::Value(left) => {
            if is_true(left) {
                put(Answer::Value(Value::Int(1)), aside)
            } else {
                put(truth(tables, world, b, aside), aside)
            }
        }
    }
}

// The right operand of `&&` and `||`.
#[cycle(values)]
#[inline(always)]
fn truth(tables: &Tables, world: &mut World, node: &Node, aside: &mut Answer) -> Answer
    requires { is_direct node.now.note node.now.form ≡ true }
    ensures is { (k : Knot) (h : List Event) → Meets result (state_of world.new h) (last_test (node_shape node.now) (meaning (tables_shape tables.now) k (node_shape node.now)) (quiet 0) (state_of world.old h)) }
    ensures kept { Kept world.old world.new }
    ensures turns { world.new.turns ≤ world.old.turns }
{
    match value_with(tables, world, node, aside) {
        Answer::NoMemory => Answer::NoMemory,
        Answer::Stopped(why) => Answer::Stopped(why),
        Answer::Value(right) => Answer::Value(truth_at(right)),
    }
}

// What a place gives as a value.
#[cycle(values)]
#[inline(never)]
fn read(tables: &Tables, world: &mut World, node: &Node, aside: &mut Answer) -> Option<i64>
    requires stands { standing node.now.note node.now.form ≡ true }
    requires place { is_direct_place node.now.note node.now.form ≡ true }
    requires valued { is_valued node.now.note ≡ true }
    ensures is { (k : Knot) (h : List Event) → Meets (given result aside.new) (state_of world.new h) (value (tables_shape tables.now) k (node_shape node.now) (state_of world.old h)) }
    ensures kept { Kept world.old world.new }
    ensures turns { world.new.turns ≤ world.old.turns }
    ensures fewer { IsFewer (given result aside.new) world.new.turns world.old.turns }
{
    match direct_place(tables, world, node, aside) {
        Spot::NoMemory => put(Answer::NoMemory, aside),
        Spot::Stopped(why) => put(Answer::Stopped(why), aside),
        Spot::At(at) => put(fetch(tables, world, node, at), aside),
    }
}

// An expression in the probe of a block, which is told first.
#[cycle(values)]
#[inline(never)]
fn entered(
    tables: &Tables,
    world: &mut World,
    node: &Node,
    text: &Text,
    a: &Node,
    aside: &mut Answer,
) -> Option<i64>
    requires form { expr_shape node.now.form ≡ probe (simple block text.now) (node_shape a.now) }
    requires operand { is_direct a.now.note a.now.form ≡ true }
    ensures is { (k : Knot) (h : List Event) → Meets (given result aside.new) (state_of world.new h) (value (tables_shape tables.now) k (node_shape node.now) (state_of world.old h)) }
    ensures kept { Kept world.old world.new }
    ensures turns { world.new.turns ≤ world.old.turns }
    ensures fewer { IsFewer (given result aside.new) world.new.turns world.old.turns }
{
    match tell_block(world, text) {
        Err(_) => put(Answer::NoMemory, aside),
        Ok(told) => {
            if told {
                evaluate(tables, world, a, aside)
            } else {
                put(Answer::Stopped(Stop::Fault(Fault::NoResult)), aside)
            }
        }
    }
}

// An expression in the probe of a test or a choice, which is told behind it.
#[cycle(values)]
#[inline(never)]
fn judged(
    tables: &Tables,
    world: &mut World,
    node: &Node,
    kind: &ExprProbe,
    a: &Node,
    aside: &mut Answer,
) -> Option<i64>
    requires form { expr_shape node.now.form ≡ probe (probe_shape kind.now) (node_shape a.now) }
    requires judged { is_judged kind.now ≡ true }
    requires operand { is_direct a.now.note a.now.form ≡ true }
    ensures is { (k : Knot) (h : List Event) → Meets (given result aside.new) (state_of world.new h) (value (tables_shape tables.now) k (node_shape node.now) (state_of world.old h)) }
    ensures kept { Kept world.old world.new }
    ensures turns { world.new.turns ≤ world.old.turns }
    ensures fewer { IsFewer (given result aside.new) world.new.turns world.old.turns }
{
    match value_with(tables, world, a, aside) {
        Answer::NoMemory => put(Answer::NoMemory, aside),
        Answer::Stopped(why) => put(Answer::Stopped(why), aside),
        Answer::Value(value) => put(judge(world, node, value), aside),
    }
}

// A place that is direct, and what is in the probes round it.
#[cycle(values)]
#[inline(always)]
fn direct_place(tables: &Tables, world: &mut World, node: &Node, aside: &mut Answer) -> Spot
    requires { is_direct_place node.now.note node.now.form ≡ true }
    ensures is { (k : Knot) (r : Taken) (h : List Event) → Stands result (state_of world.new h) ((meaning (tables_shape tables.now) k (node_shape node.now)).place r (quiet 0) (state_of world.old h)) }
    ensures kept { Kept world.old world.new }
    ensures turns { world.new.turns ≤ world.old.turns }
    ensures fewer { IsNearer result world.new.turns world.old.turns }
{
    let inner = behind_probes(node);
    match &inner.form {
        Expr::Name(_) => variable(tables, world, inner),
        Expr::Index(a, b) => element(tables, world, inner, a, b, aside),
        Expr::Unary(_, a) => pointed(tables, world, inner, a, aside),
        _ => unreachable!(),
    }
}

// The place of an element.
#[cycle(values)]
#[inline(always)]
fn element(
    tables: &Tables,
    world: &mut World,
    node: &Node,
    a: &Node,
    b: &Node,
    aside: &mut Answer,
) -> Spot
    requires form { expr_shape node.now.form ≡ suffix (node_shape a.now) (index (node_shape b.now)) }
    requires left { is_direct a.now.note a.now.form ≡ true }
    requires right { is_direct b.now.note b.now.form ≡ true }
    ensures is { (k : Knot) (r : Taken) (h : List Event) → Stands result (state_of world.new h) ((meaning (tables_shape tables.now) k (node_shape node.now)).place r (quiet 0) (state_of world.old h)) }
    ensures kept { Kept world.old world.new }
    ensures turns { world.new.turns ≤ world.old.turns }
    ensures fewer { IsNearer result world.new.turns world.old.turns }
{
    if !world.turn() {
        return Spot::Stopped(Stop::Turns);
    }
    match value_with(tables, world, a, aside) {
        Answer::NoMemory => Spot::NoMemory,
        Answer::Stopped(why) => Spot::Stopped(why),
        Answer::Value(left) => match value_with(tables, world, b, aside) {
            Answer::NoMemory => Spot::NoMemory,
            Answer::Stopped(why) => Spot::Stopped(why),
            Answer::Value(right) => match element_at(a, b, left, right) {
                Ok(at) => Spot::At(at),
                Err(fault) => Spot::Stopped(Stop::Fault(fault)),
            },
        },
    }
}

// What a pointer points to.
#[cycle(values)]
#[inline(always)]
fn pointed(tables: &Tables, world: &mut World, node: &Node, a: &Node, aside: &mut Answer) -> Spot
    requires form { expr_shape node.now.form ≡ prefix (unary front.Deref) (node_shape a.now) }
    requires operand { is_direct a.now.note a.now.form ≡ true }
    ensures is { (k : Knot) (r : Taken) (h : List Event) → Stands result (state_of world.new h) ((meaning (tables_shape tables.now) k (node_shape node.now)).place r (quiet 0) (state_of world.old h)) }
    ensures kept { Kept world.old world.new }
    ensures turns { world.new.turns ≤ world.old.turns }
    ensures fewer { IsNearer result world.new.turns world.old.turns }
{
    if !world.turn() {
        return Spot::Stopped(Stop::Turns);
    }
    match value_with(tables, world, a, aside) {
        Answer::NoMemory => Spot::NoMemory,
        Answer::Stopped(why) => Spot::Stopped(why),
        Answer::Value(pointer) => match target(pointer) {
            Ok(at) => Spot::At(at),
            Err(fault) => Spot::Stopped(Stop::Fault(fault)),
        },
    }
}

// `=` (C89, 3.3.16.1).
#[cycle(values)]
#[inline(never)]
fn assigned(
    tables: &Tables,
    world: &mut World,
    node: &Node,
    a: &Node,
    b: &Node,
    aside: &mut Answer,
) -> Option<i64>
    requires form { expr_shape node.now.form ≡ two (assign None) (node_shape a.now) (node_shape b.now) }
    requires scalar { is_copied a.now.note ≡ false }
    requires left { is_direct_place a.now.note a.now.form ≡ true }
    requires right { is_direct b.now.note b.now.form ≡ true }
    ensures is { (k : Knot) (h : List Event) → Meets (given result aside.new) (state_of world.new h) (value (tables_shape tables.now) k (node_shape node.now) (state_of world.old h)) }
    ensures kept { Kept world.old world.new }
    ensures turns { world.new.turns ≤ world.old.turns }
    ensures fewer { IsFewer (given result aside.new) world.new.turns world.old.turns }
{
    if !world.turn() {
        return put(Answer::Stopped(Stop::Turns), aside);
    }
    match direct_place(tables, world, a, aside) {
        Spot::NoMemory => put(Answer::NoMemory, aside),
        Spot::Stopped(why) => put(Answer::Stopped(why), aside),
        Spot::At(at) => match value_with(tables, world, b, aside) {
            Answer::NoMemory => put(Answer::NoMemory, aside),
            Answer::Stopped(why) => put(Answer::Stopped(why), aside),
            Answer::Value(given) => put(write(world, a, at, given), aside),
        },
    }
}

// An assignment with an operator (C89, 3.3.16.2).
#[cycle(values)]
#[inline(never)]
fn changed(
    tables: &Tables,
    world: &mut World,
    node: &Node,
    op: BinaryOp,
    a: &Node,
    b: &Node,
    aside: &mut Answer,
) -> Option<i64>
    requires form { expr_shape node.now.form ≡ two (assign (Some op)) (node_shape a.now) (node_shape b.now) }
    requires left { is_direct_place a.now.note a.now.form ≡ true }
    requires right { is_direct b.now.note b.now.form ≡ true }
    ensures is { (k : Knot) (h : List Event) → Meets (given result aside.new) (state_of world.new h) (value (tables_shape tables.now) k (node_shape node.now) (state_of world.old h)) }
    ensures kept { Kept world.old world.new }
    ensures turns { world.new.turns ≤ world.old.turns }
    ensures fewer { IsFewer (given result aside.new) world.new.turns world.old.turns }
{
    if !world.turn() {
        return put(Answer::Stopped(Stop::Turns), aside);
    }
    match direct_place(tables, world, a, aside) {
        Spot::NoMemory => put(Answer::NoMemory, aside),
        Spot::Stopped(why) => put(Answer::Stopped(why), aside),
        Spot::At(at) => match load(world, a, at) {
            Answer::NoMemory => put(Answer::NoMemory, aside),
            Answer::Stopped(why) => put(Answer::Stopped(why), aside),
            Answer::Value(first) => match value_with(tables, world, b, aside) {
                Answer::NoMemory => put(Answer::NoMemory, aside),
                Answer::Stopped(why) => put(Answer::Stopped(why), aside),
                Answer::Value(second) => put(
                    write_combined(world, op, a, b, at, first, second),
                    aside,
                ),
            },
        },
    }
}

// A step over a place (C89, 3.3.2.4 and 3.3.3.1).
#[cycle(values)]
#[inline(never)]
fn stepped(
    tables: &Tables,
    world: &mut World,
    node: &Node,
    op: StepOp,
    a: &Node,
    aside: &mut Answer,
) -> Option<i64>
    requires form { expr_shape node.now.form ≡ step_shape op (node_shape a.now) }
    requires operand { is_direct_place a.now.note a.now.form ≡ true }
    ensures is { (k : Knot) (h : List Event) → Meets (given result aside.new) (state_of world.new h) (value (tables_shape tables.now) k (node_shape node.now) (state_of world.old h)) }
    ensures kept { Kept world.old world.new }
    ensures turns { world.new.turns ≤ world.old.turns }
    ensures fewer { IsFewer (given result aside.new) world.new.turns world.old.turns }
{
    if !world.turn() {
        return put(Answer::Stopped(Stop::Turns), aside);
    }
    match direct_place(tables, world, a, aside) {
        Spot::NoMemory => put(Answer::NoMemory, aside),
        Spot::Stopped(why) => put(Answer::Stopped(why), aside),
        Spot::At(at) => put(step(world, op, a, at), aside),
    }
}
