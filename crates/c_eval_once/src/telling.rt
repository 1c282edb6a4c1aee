//! Cells that are read and written, with what is told of them.

ghost use Rattle.std.specs.Prelude.{◌≡◌, [], ◌∷◌, map, List, Option, Some, IfOk, OnOk};
ghost use Rattle.c_events.specs.declared.events.Event.{Event};
ghost use Rattle.c_syntax.specs.Shape.{Probing, used, def};
ghost use Rattle.c_syntax.specs.View.{node_shape, note_shape, expr_shape, type_of};
ghost use Rattle.c_tables.specs.Tables.{tables_shape};
ghost use Rattle.c_meaning.specs.State.{State, tells, logged};
ghost use Rattle.c_meaning.specs.Results.{Got, then_do};
ghost use Rattle.c_meaning.specs.Firsts.{quiet, cell_at};
ghost use Rattle.c_meaning.specs.Places.{logs, log_use, log_def, marks, loaded, stored, fetched, variable_place};
ghost use Rattle.c_meaning.specs.Constants.{type_at};
ghost use Rattle.c_meaning.specs.Expressions.{gives, written, log_block, log_test};
ghost use Rattle.c_compute.specs.Narrow.{direction};
ghost use Rattle.c_world.specs.World.{state_of};
ghost use Rattle.c_eval_once.specs.Parts.{replied, probed, stepped_there, is_front, combined_into};
ghost use Rattle.c_eval_once.specs.Forms.{Kept, told, fetched_as, Tells};

use crate::cells;
use crate::reply::{Reply, reply_of};
use c_base::place::NoMemory;
use c_compute::constants::select_number;
use c_compute::operators::is_true;
use c_constants::probes::probe_number;
use c_events::events::Event;
use c_meaning::end::Stop;
use c_store::value::{Fault, Pointer, Value};
use c_syntax::text::Text;
use c_syntax::tree::{BinaryOp, CType, Expr, ExprProbe, Node, Note, StepOp};
use c_tables::tables::Tables;
use c_world::places::{cell_at, cells_in};
use c_world::world::World;

/// The value of the cell at the place that the node is, with the uses that its probes tell.
#[inline(always)]
pub fn load(world: &mut World, node: &Node, at: Pointer) -> Result<Reply, NoMemory>
    ensures done { IfOk result (λ r. (h : List Event) → loaded (marks used (node_shape node.now)) (quiet 0) at (state_of world.old h) ≡ replied r (state_of world.new h)) }
    ensures kept { OnOk result (Kept world.old world.new) }
    ensures turns { OnOk result (world.new.turns ≡ world.old.turns) }
{
    let reply = reply_of(cells::load(world, node, at))?;
    Ok(reply)
}

/// The value is written into the cell at the place that the node is, in the place's type, and is then the assignment's (C89,
/// 3.3.16); its probes tell the definitions.
#[inline(always)]
pub fn write(world: &mut World, node: &Node, at: Pointer, value: Value) -> Result<Reply, NoMemory>
    ensures done { IfOk result (λ r. (h : List Event) → written (type_at (node_shape node.now)) (marks def (node_shape node.now)) (quiet 0) at value (state_of world.old h) ≡ then_do (replied r (state_of world.new h)) gives) }
    ensures kept { OnOk result (Kept world.old world.new) }
    ensures turns { OnOk result (world.new.turns ≡ world.old.turns) }
{
    let reply = reply_of(cells::write(world, node, at, value))?;
    Ok(reply)
}

/// The place's value and another one meet in an operator, and the place is written (C89, 3.3.16.2).
pub fn write_combined(
    world: &mut World,
    op: BinaryOp,
    a: &Node,
    b: &Node,
    at: Pointer,
    left: Value,
    right: Value,
) -> Result<Reply, NoMemory>
    ensures done { IfOk result (λ r. (h : List Event) → combined_into op (node_shape a.now) (node_shape b.now) at left right (state_of world.old h) ≡ then_do (replied r (state_of world.new h)) gives) }
    ensures kept { OnOk result (Kept world.old world.new) }
    ensures turns { OnOk result (world.new.turns ≡ world.old.turns) }
{
    let reply = reply_of(cells::write_combined(world, op, a, b, at, left, right))?;
    Ok(reply)
}

/// A step over the place that the node is: its value before the step, or the one behind it (C89, 3.3.2.4 and 3.3.3.1).
pub fn stepped(world: &mut World, op: StepOp, node: &Node, at: Pointer) -> Result<Reply, NoMemory>
    ensures done { IfOk result (λ r. (h : List Event) → stepped_there (is_front op) (direction op) (node_shape node.now) at (state_of world.old h) ≡ then_do (replied r (state_of world.new h)) gives) }
    ensures kept { OnOk result (Kept world.old world.new) }
    ensures turns { OnOk result (world.new.turns ≡ world.old.turns) }
{
    let reply = reply_of(cells::stepped(world, op, node, at))?;
    Ok(reply)
}

/// What a place gives as a value: a scalar's is read, an array's is a pointer to its first element, another one gives none
/// (C89, 3.2.2.1).
#[inline(always)]
pub fn fetch(
    tables: &Tables,
    world: &mut World,
    node: &Node,
    at: Pointer,
) -> Result<Result<Option<Value>, Stop>, NoMemory>
    ensures done { IfOk result (λ r. (h : List Event) → fetched (tables_shape tables.now) (note_shape node.now.note) (marks used (node_shape node.now)) (quiet 0) at (state_of world.old h) ≡ fetched_as r (state_of world.new h)) }
    ensures kept { OnOk result (Kept world.old world.new) }
    ensures turns { OnOk result (world.new.turns ≡ world.old.turns) }
{
    match &node.note {
        Note::Typed(CType::Int(_) | CType::Pointer(_), _) => match load(world, node, at)? {
            Reply::Value(value) => Ok(Ok(Some(value))),
            Reply::Stopped(why) => Ok(Err(why)),
        },
        Note::Typed(CType::Array(of, length), _) => {
            match world.select(at, 0, *length, cells_in(tables, of)) {
                Ok(first) => Ok(Ok(Some(Value::At(first)))),
                Err(why) => Ok(Err(why)),
            }
        }
        Note::Typed(CType::Struct(_) | CType::Void, _) => Ok(Ok(None)),
        Note::Bare | Note::Known(_, _) => Ok(Err(Stop::Fault(Fault::NoResult))),
    }
}

// ---- probes

/// Tells that the block of the probe with that number is entered; false at a probe without a number.
pub fn tell_block(world: &mut World, text: &Text) -> Result<bool, NoMemory>
    ensures told { IfOk result (λ r. (h : List Event) → Tells r log_block text.now (state_of world.old h) (state_of world.new h)) }
    ensures kept { Kept world.old world.new }
    ensures turns { world.new.turns ≡ world.old.turns }
{
    match probe_number(text.bytes()) {
        None => Ok(false),
        Some(site) => {
            world.log(Event::Block(site))?;
            Ok(true)
        }
    }
}

/// Tells with which outcome the test or choice in the probe ends by this value; false at a probe without a number.
pub fn tell_test(world: &mut World, node: &Node, value: Value) -> Result<bool, NoMemory>
    ensures told { IfOk result (λ r. (h : List Event) → probed (expr_shape node.now.form) value (state_of world.old h) ≡ told r (state_of world.new h) (gives value)) }
    ensures kept { Kept world.old world.new }
    ensures turns { world.new.turns ≡ world.old.turns }
{
    match &node.form {
        Expr::Probe(probe, inner) => match probe {
            ExprProbe::Test(text) => {
                let outcome = if is_true(value) { 1 } else { 2 };
                let told = tell_outcome(world, text, outcome)?;
                Ok(told)
            }
            ExprProbe::Select(text, constants) => {
                let outcome = select_number(inner, constants, value)?;
                let told = tell_outcome(world, text, outcome)?;
                Ok(told)
            }
            ExprProbe::Block(_) | ExprProbe::Use(_) | ExprProbe::Def(_) => Ok(false),
        },
        _ => Ok(false),
    }
}

fn tell_outcome(world: &mut World, text: &Text, outcome: u32) -> Result<bool, NoMemory>
    ensures told { IfOk result (λ r. (h : List Event) → Tells r (log_test outcome) text.now (state_of world.old h) (state_of world.new h)) }
    ensures kept { Kept world.old world.new }
    ensures turns { world.new.turns ≡ world.old.turns }
{
    match probe_number(text.bytes()) {
        None => Ok(false),
        Some(site) => {
            let activation = world.activation();
            world.log(Event::Test(site, outcome, activation))?;
            Ok(true)
        }
    }
}

/// Tells the uses of the probes round the place, the inner ones first; false at a probe without a number.
pub fn tell_uses(world: &mut World, node: &Node, at: Pointer) -> Result<bool, NoMemory>
    ensures told { IfOk result (λ r. (h : List Event) (go : State → Got Value) → logs (log_use at) (marks used (node_shape node.now)) (state_of world.old h) go ≡ told r (state_of world.new h) go) }
    ensures kept { Kept world.old world.new }
    ensures turns { world.new.turns ≡ world.old.turns }
{
    match &node.form {
        Expr::Paren(inner) => {
            let told = tell_uses(world, inner, at)?;
            Ok(told)
        }
        Expr::Probe(probe, inner) => match probe {
            ExprProbe::Use(text) => {
                if tell_uses(world, inner, at)? {
                    let told = tell_use(world, text, at)?;
                    Ok(told)
                } else {
                    Ok(false)
                }
            }
            ExprProbe::Def(_) => {
                let told = tell_uses(world, inner, at)?;
                Ok(told)
            }
            ExprProbe::Block(_) | ExprProbe::Test(_) | ExprProbe::Select(_, _) => Ok(true),
        },
        _ => Ok(true),
    }
}

fn tell_use(world: &mut World, text: &Text, at: Pointer) -> Result<bool, NoMemory>
    ensures told { IfOk result (λ r. (h : List Event) → Tells r (log_use at) text.now (state_of world.old h) (state_of world.new h)) }
    ensures kept { Kept world.old world.new }
    ensures turns { world.new.turns ≡ world.old.turns }
{
    match probe_number(text.bytes()) {
        None => Ok(false),
        Some(site) => {
            let activation = world.activation();
            world.log(Event::Use(site, cell_at(at)?, activation))?;
            Ok(true)
        }
    }
}

/// The same of definitions.
pub fn tell_definitions(world: &mut World, node: &Node, at: Pointer) -> Result<bool, NoMemory>
    ensures told { IfOk result (λ r. (h : List Event) (go : State → Got Value) → logs (log_def at) (marks def (node_shape node.now)) (state_of world.old h) go ≡ told r (state_of world.new h) go) }
    ensures kept { Kept world.old world.new }
    ensures turns { world.new.turns ≡ world.old.turns }
{
    match &node.form {
        Expr::Paren(inner) => {
            let told = tell_definitions(world, inner, at)?;
            Ok(told)
        }
        Expr::Probe(probe, inner) => match probe {
            ExprProbe::Def(text) => {
                if tell_definitions(world, inner, at)? {
                    let told = tell_definition(world, text, at)?;
                    Ok(told)
                } else {
                    Ok(false)
                }
            }
            ExprProbe::Use(_) => {
                let told = tell_definitions(world, inner, at)?;
                Ok(told)
            }
            ExprProbe::Block(_) | ExprProbe::Test(_) | ExprProbe::Select(_, _) => Ok(true),
        },
        _ => Ok(true),
    }
}

fn tell_definition(world: &mut World, text: &Text, at: Pointer) -> Result<bool, NoMemory>
    ensures told { IfOk result (λ r. (h : List Event) → Tells r (log_def at) text.now (state_of world.old h) (state_of world.new h)) }
    ensures kept { Kept world.old world.new }
    ensures turns { world.new.turns ≡ world.old.turns }
{
    match probe_number(text.bytes()) {
        None => Ok(false),
        Some(site) => {
            world.log(Event::Def(site, cell_at(at)?))?;
            Ok(true)
        }
    }
}
