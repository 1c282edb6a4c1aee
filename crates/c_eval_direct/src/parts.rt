//! What a direct expression does with names, places and probes, its operands aside.

ghost use Rattle.std.specs.Prelude.{◌≡◌, ◌≤◌, ℕ, List, Result, Option, true, pos};
ghost use Rattle.c_events.specs.declared.events.Event.{Event};
ghost use Rattle.c_syntax.specs.Shape.{used, leaf, number};
ghost use Rattle.c_syntax.specs.View.{node_shape, note_shape, expr_shape};
ghost use Rattle.c_constants.specs.Numbers.{number_of};
ghost use Rattle.c_store.specs.declared.value.Value.TheVariants.{Int};
ghost use Rattle.c_tables.specs.Tables.{TablesShape, tables_shape};
ghost use Rattle.c_walk.specs.declared.around.Taken.{Taken};
ghost use Rattle.c_meaning.specs.State.{State};
ghost use Rattle.c_meaning.specs.Results.{Got, then_do, settled};
ghost use Rattle.c_meaning.specs.Firsts.{First, quiet};
ghost use Rattle.c_meaning.specs.Places.{marks, fetched};
ghost use Rattle.c_meaning.specs.Knot.{Knot};
ghost use Rattle.c_meaning.specs.Expressions.{meaning, gives, number_value};
ghost use Rattle.c_world.specs.World.{state_of};
ghost use Rattle.c_eval_once.specs.Parts.{value, probed, combined};
ghost use Rattle.c_eval_once.specs.Forms.{Kept, Meets, Stands, IsFewer, IsNearer, IsNamed, is_leaf, is_valued, is_variable, is_name};
ghost use Rattle.c_eval_direct.specs.Direct.{is_direct_place, is_bare, parts};
ghost use Rattle.c_eval_direct.specs.Aside.{given};

use c_compute::operators::of_numbers;
use c_eval_once::at_once;
use c_eval_once::at_once::{array_value, constant, scalar};
use c_eval_once::cells::load;
use c_eval_once::leaf::operate;
use c_eval_once::number::small;
use c_eval_once::reply::{Answer, Spot};
use c_eval_once::telling::tell_test;
use c_meaning::end::Stop;
use c_store::value::{Fault, Pointer, Value};
use c_syntax::text::Text;
use c_syntax::tree::{BinaryOp, CType, Expr, Node, Note};
use c_tables::tables::Tables;
use c_world::places::cells_in;
use c_world::world::World;

/// The value of a name.
#[inline(always)]
pub fn named(tables: &Tables, world: &mut World, node: &Node) -> Answer
    requires form { IsNamed node.now.form }
    requires valued { is_name node.now.note ≡ true }
    ensures is { (k : Knot) (h : List Event) → Meets result (state_of world.new h) (value (tables_shape tables.now) k (node_shape node.now) (state_of world.old h)) }
    ensures kept { Kept world.old world.new }
    ensures turns { world.new.turns ≤ world.old.turns }
    ensures fewer { IsFewer result world.new.turns world.old.turns }
{
    match &node.note {
        Note::Typed(kind, named) => match named {
            None => constant(world, node),
            Some(number) => match kind {
                CType::Int(_) | CType::Pointer(_) => scalar(world, *number),
                CType::Array(of, length) => {
                    array_value(tables, world, kind, of, *length, *number)
                }
                CType::Struct(_) | CType::Void => unreachable!(),
            },
        },
        Note::Known(_, _) | Note::Bare => constant(world, node),
    }
}

/// The place of a variable.
#[inline(always)]
pub fn variable(tables: &Tables, world: &mut World, node: &Node) -> Spot
    requires form { IsNamed node.now.form }
    requires variable { is_variable node.now.note ≡ true }
    ensures is { (k : Knot) (r : Taken) (h : List Event) → Stands result (state_of world.new h) ((meaning (tables_shape tables.now) k (node_shape node.now)).place r (quiet 0) (state_of world.old h)) }
    ensures kept { Kept world.old world.new }
    ensures turns { world.new.turns ≤ world.old.turns }
    ensures fewer { IsNearer result world.new.turns world.old.turns }
{
    match &node.note {
        Note::Typed(kind, named) => match named {
            Some(number) => match at_once::place(tables, world, kind, *number) {
                Ok(at) => Spot::At(at),
                Err(why) => Spot::Stopped(why),
            },
            None => unreachable!(),
        },
        Note::Known(_, _) | Note::Bare => unreachable!(),
    }
}

/// The place behind the probes round it.
#[inline(always)]
pub fn behind_probes<'p>(node: &'p Node) -> &'p Node
    requires { is_direct_place node.now.note node.now.form ≡ true }
    ensures place { (t : TablesShape) (k : Knot) (r : Taken) (i : First) (s : State) → (meaning t k (node_shape node.now)).place r i s ≡ (meaning t k (node_shape result.now)).place r i s }
    ensures direct { is_direct_place result.now.note result.now.form ≡ true }
    ensures bare { is_bare result.now.form ≡ true }
    ensures parts { parts result.now.form ≤ parts node.now.form }
{
    let mut inner = node;
    loop {
        match &inner.form {
            Expr::Probe(_, next) => inner = next,
            _ => return inner,
        }
    }
}

/// What the place that the node is gives as a value, with the uses that its probes tell.
#[tactic(auto, using(c_eval_once::proofs::Once::loads_gives))]
#[inline(always)]
pub fn fetch(tables: &Tables, world: &mut World, node: &Node, at: Pointer) -> Answer
    requires { is_valued node.now.note ≡ true }
    ensures is { (h : List Event) → Meets result (state_of world.new h) (fetched (tables_shape tables.now) (note_shape node.now.note) (marks used (node_shape node.now)) (quiet 0) at (state_of world.old h)) }
    ensures kept { Kept world.old world.new }
    ensures turns { world.new.turns ≡ world.old.turns }
{
    match &node.note {
        Note::Typed(kind, _) => match kind {
            CType::Int(_) | CType::Pointer(_) => load(world, node, at),
            CType::Array(of, length) => {
                match world.select(at, 0, *length, cells_in(tables, of)) {
                    Ok(first) => Answer::Value(Value::At(first)),
                    Err(why) => Answer::Stopped(why),
                }
            }
            CType::Struct(_) | CType::Void => unreachable!(),
        },
        Note::Known(_, _) | Note::Bare => unreachable!(),
    }
}

/// A value, or the fault by which the run stops.
#[inline(always)]
pub fn settle(given: Result<Value, Fault>) -> Answer
    ensures { (s : State) → Meets result s (then_do (settled given s) gives) }
{
    match given {
        Ok(value) => Answer::Value(value),
        Err(fault) => Answer::Stopped(Stop::Fault(fault)),
    }
}

/// The test or choice in the probe ends by this value, which is told.
#[inline(always)]
pub fn judge(world: &mut World, node: &Node, value: Value) -> Answer
    ensures is { (h : List Event) → Meets result (state_of world.new h) (probed (expr_shape node.now.form) value (state_of world.old h)) }
    ensures kept { Kept world.old world.new }
    ensures turns { world.new.turns ≡ world.old.turns }
{
    match tell_test(world, node, value) {
        Err(_) => Answer::NoMemory,
        Ok(told) => {
            if told {
                Answer::Value(value)
            } else {
                Answer::Stopped(Stop::Fault(Fault::NoResult))
            }
        }
    }
}

// ---- aside

/// The value, a number of 64 bits by itself; all else is put aside.
#[inline(always)]
pub fn put(answer: Answer, aside: &mut Answer) -> Option<i64>
    ensures is { given result aside.new ≡ answer }
    ensures meets { (s : State) (g : Got (Option Value)) → Meets answer s g → Meets (given result aside.new) s g }
    ensures fewer { (n m : ℕ) → IsFewer answer n m → IsFewer (given result aside.new) n m }
{
    if let Answer::Value(Value::Int(number)) = answer {
        if -0x8000_0000_0000_0000 <= number && number <= 0x7fff_ffff_ffff_ffff {
            return Some(number as i64);
        }
    }
    *aside = answer;
    None
}

/// The number, or what stands aside.
#[inline(always)]
pub fn given(number: Option<i64>, aside: &Answer) -> Answer
    ensures is { result ≡ given number aside.now }
    ensures meets { (s : State) (g : Got (Option Value)) → Meets (given number aside.now) s g → Meets result s g }
    ensures fewer { (n m : ℕ) → IsFewer (given number aside.now) n m → IsFewer result n m }
{
    match number {
        Some(number) => Answer::Value(Value::Int(i128::from(number))),
        None => *aside,
    }
}

/// Two values meet in the operator, integers of integer types at once.
#[inline(always)]
pub fn combined(
    op: BinaryOp,
    a: &Node,
    b: &Node,
    left: Value,
    right: Value,
    aside: &mut Answer,
) -> Option<i64>
    ensures { (s : State) → Meets (given result aside.new) s (combined op (node_shape a.now) (node_shape b.now) left right s) }
{
    match (&a.note, &b.note, left, right) {
        (
            Note::Typed(CType::Int(j), _),
            Note::Typed(CType::Int(k), _),
            Value::Int(m),
            Value::Int(n),
        ) => { put(settle(of_numbers(op, *j, *k, m, n)), aside) }
        _ => combine(op, a, b, apart(left), apart(right), aside),
    }
}

// The value, taken apart: so what is worked out at once needs no room in memory.
#[inline(always)]
fn apart(value: Value) -> Value
    ensures { result ≡ value }
{
    match value {
        Value::Int(number) => Value::Int(number),
        Value::Null => Value::Null,
        Value::At(place) => Value::At(place),
    }
}

// The same of all values.
#[inline(never)]
fn combine(
    op: BinaryOp,
    a: &Node,
    b: &Node,
    left: Value,
    right: Value,
    aside: &mut Answer,
) -> Option<i64>
    ensures { (s : State) → Meets (given result aside.new) s (combined op (node_shape a.now) (node_shape b.now) left right s) }
{
    put(settle(operate(op, a, b, left, right)), aside)
}

/// The value of a name of no scalar variable.
#[inline(never)]
pub fn put_name(tables: &Tables, world: &mut World, node: &Node, aside: &mut Answer) -> Option<i64>
    requires form { IsNamed node.now.form }
    requires valued { is_name node.now.note ≡ true }
    ensures is { (k : Knot) (h : List Event) → Meets (given result aside.new) (state_of world.new h) (value (tables_shape tables.now) k (node_shape node.now) (state_of world.old h)) }
    ensures kept { Kept world.old world.new }
    ensures turns { world.new.turns ≤ world.old.turns }
    ensures fewer { IsFewer (given result aside.new) world.new.turns world.old.turns }
{
    put(named(tables, world, node), aside)
}

/// The value of a constant, a short decimal number at once.
#[inline(always)]
pub fn put_leaf(world: &mut World, node: &Node, aside: &mut Answer) -> Option<i64>
    requires { is_leaf node.now.note node.now.form ≡ true }
    ensures is { (t : TablesShape) (k : Knot) (h : List Event) → Meets (given result aside.new) (state_of world.new h) (value t k (node_shape node.now) (state_of world.old h)) }
    ensures kept { Kept world.old world.new }
    ensures turns { world.new.turns ≤ world.old.turns }
    ensures fewer { IsFewer (given result aside.new) world.new.turns world.old.turns }
{
    match &node.form {
        Expr::Number(text) => match small(text.bytes()) {
            Some(amount) => put_number(world, node, text, amount, aside),
            None => put_constant(world, node, aside),
        },
        _ => put_constant(world, node, aside),
    }
}

// The value of a constant.
#[inline(never)]
fn put_constant(world: &mut World, node: &Node, aside: &mut Answer) -> Option<i64>
    requires { is_leaf node.now.note node.now.form ≡ true }
    ensures is { (t : TablesShape) (k : Knot) (h : List Event) → Meets (given result aside.new) (state_of world.new h) (value t k (node_shape node.now) (state_of world.old h)) }
    ensures kept { Kept world.old world.new }
    ensures turns { world.new.turns ≤ world.old.turns }
    ensures fewer { IsFewer (given result aside.new) world.new.turns world.old.turns }
{
    put(constant(world, node), aside)
}

// The turn of a number.
#[inline(always)]
fn put_number(
    world: &mut World,
    node: &Node,
    text: &Text,
    amount: u32,
    aside: &mut Answer,
) -> Option<i64>
    requires form { expr_shape node.now.form ≡ leaf (number text.now) }
    requires amount { (s : State) → number_value (number_of text.now) s ≡ gives (Int (pos amount)) s }
    ensures is { (t : TablesShape) (k : Knot) (h : List Event) → Meets (given result aside.new) (state_of world.new h) (value t k (node_shape node.now) (state_of world.old h)) }
    ensures kept { Kept world.old world.new }
    ensures turns { world.new.turns ≤ world.old.turns }
    ensures fewer { IsFewer (given result aside.new) world.new.turns world.old.turns }
{
    if !world.turn() {
        return put(Answer::Stopped(Stop::Turns), aside);
    }
    Some(i64::from(amount))
}
