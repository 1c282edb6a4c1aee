//! Statements that are done at once (C89, 3.6).

ghost use Rattle.std.specs.Prelude.{◌≡◌, ◌<◌, ◌≤◌, ℕ, List, length, Bool, true};
ghost use Rattle.c_events.specs.declared.events.Event.{Event};
ghost use Rattle.c_syntax.specs.Shape.{simply, return};
ghost use Rattle.c_syntax.specs.View.{node_shape, maybe_node, stmt_shape, form_shape, compound_shape, item_list};
ghost use Rattle.c_tables.specs.Tables.{tables_shape};
ghost use Rattle.c_meaning.specs.Results.{then_do, turn};
ghost use Rattle.c_meaning.specs.Firsts.{quiet};
ghost use Rattle.c_meaning.specs.Knot.{Knot};
ghost use Rattle.c_meaning.specs.Expressions.{meaning, tested};
ghost use Rattle.c_meaning.specs.Statements.{flow, form_flow, compound_flow, items_flow, scoped, here};
ghost use Rattle.c_world.specs.Names.{scopes_in, scope_counts};
ghost use Rattle.c_world.specs.World.{state_of, Same};
ghost use Rattle.c_eval_direct.specs.Direct.{is_direct};
ghost use Rattle.c_machine_direct.specs.Forms.{is_direct_maybe, is_direct_form, is_direct_compound, are_direct};
ghost use Rattle.c_machine_direct.specs.Ways.{Leaves, OnLeft, OnWay, Tests, OnTested};

use crate::marks::log_marks;
use c_compute::operators::is_true;
use c_eval_direct::direct::value;
use c_eval_once::reply::Answer;
use c_meaning::end::{Flow, Stop};
use c_store::value::Fault;
use c_syntax::tree::{Compound, Item, Node, Stmt, StmtForm};
use c_tables::tables::Tables;
use c_world::world::World;

/// How a statement leaves that was done at once, or why the run stops.
#[derive(Clone, Copy, Drop)]
pub enum Way {
    Left(Flow),
    Stopped(Stop),
    NoMemory,
}

// What a test comes to, or why the run stops.
#[derive(Clone, Copy, Drop)]
pub enum Tested {
    Is(bool),
    Stopped(Stop),
    NoMemory,
}

/// Does a statement at once: its probes, its turn, and what it does.
#[cycle(statements)]
pub fn statement(tables: &Tables, world: &mut World, stmt: &Stmt) -> Way
    requires direct { is_direct_form stmt.now.form ≡ true }
    requires scoped { 1 ≤ length (scopes_in world.old.names.calls) }
    ensures is { (k : Knot) (h : List Event) (b : Bool) (n : ℕ) → Leaves result (state_of world.new h) (flow (tables_shape tables.now) k b (stmt_shape stmt.now) (quiet n) (state_of world.old h)) }
    ensures counts { OnLeft result (scope_counts world.new.names.calls ≡ scope_counts world.old.names.calls) }
    ensures fewer { OnLeft result (world.new.turns < world.old.turns) }
    ensures same { OnWay result (Same world.old world.new) }
{
    match log_marks(world, &stmt.probes) {
        Err(_) => Way::NoMemory,
        Ok(false) => Way::Stopped(Stop::Fault(Fault::NoResult)),
        Ok(true) => {
            if world.turn() {
                form(tables, world, &stmt.form)
            } else {
                Way::Stopped(Stop::Turns)
            }
        }
    }
}

// A statement, whose turn was taken.
#[cycle(statements)]
#[inline(always)]
fn form(tables: &Tables, world: &mut World, form: &StmtForm) -> Way
    requires direct { is_direct_form form.now ≡ true }
    requires scoped { 1 ≤ length (scopes_in world.old.names.calls) }
    ensures is { (k : Knot) (h : List Event) (n : ℕ) → Leaves result (state_of world.new h) (form_flow (tables_shape tables.now) k (form_shape form.now) (quiet n) (state_of world.old h)) }
    ensures counts { OnLeft result (scope_counts world.new.names.calls ≡ scope_counts world.old.names.calls) }
    ensures turns { OnLeft result (world.new.turns ≤ world.old.turns) }
    ensures same { OnWay result (Same world.old world.new) }
{
    match form {
        StmtForm::Compound(body) => compound(tables, world, body),
        StmtForm::Plain(node) => discard(tables, world, node),
        StmtForm::If(test, first, other) => match truth(tables, world, test) {
            Tested::NoMemory => Way::NoMemory,
            Tested::Stopped(why) => Way::Stopped(why),
            Tested::Is(true) => statement(tables, world, first),
            Tested::Is(false) => match other {
                None => Way::Left(Flow::Next),
                Some(other) => statement(tables, world, other),
            },
        },
        StmtForm::Break => Way::Left(Flow::Break),
        StmtForm::Continue => Way::Left(Flow::Continue),
        StmtForm::Return(node) => give(tables, world, node),
        StmtForm::While(_, _)
        | StmtForm::Do(_, _)
        | StmtForm::For(_, _, _, _)
        | StmtForm::Switch(_, _) => { unreachable!() }
    }
}

// A compound statement (C89, 3.6.2), in a scope of its own.
#[cycle(statements)]
fn compound(tables: &Tables, world: &mut World, body: &Compound) -> Way
    requires direct { is_direct_compound body.now ≡ true }
    requires scoped { 1 ≤ length (scopes_in world.old.names.calls) }
    ensures is { (k : Knot) (h : List Event) (n : ℕ) → Leaves result (state_of world.new h) (scoped (state_of world.old h) (compound_flow (tables_shape tables.now) k (compound_shape body.now) (quiet n))) }
    ensures counts { OnLeft result (scope_counts world.new.names.calls ≡ scope_counts world.old.names.calls) }
    ensures turns { OnLeft result (world.new.turns ≤ world.old.turns) }
    ensures same { OnWay result (Same world.old world.new) }
{
    match world.begin_scope() {
        Err(_) => Way::NoMemory,
        Ok(()) => match items(tables, world, &body.items) {
            Way::NoMemory => Way::NoMemory,
            Way::Stopped(why) => Way::Stopped(why),
            Way::Left(flow) => {
                world.end_scope();
                Way::Left(flow)
            }
        },
    }
}

// The statements of a list (C89, 3.6.2).
#[cycle(statements)]
fn items(tables: &Tables, world: &mut World, items: &[Item]) -> Way
    requires direct { are_direct items.now ≡ true }
    requires scoped { 1 ≤ length (scopes_in world.old.names.calls) }
    ensures is { (k : Knot) (h : List Event) (after : Bool) (n : ℕ) → Leaves result (state_of world.new h) (items_flow (tables_shape tables.now) k here after (item_list items.now) (quiet n) (state_of world.old h)) }
    ensures counts { OnLeft result (scope_counts world.new.names.calls ≡ scope_counts world.old.names.calls) }
    ensures turns { OnLeft result (world.new.turns ≤ world.old.turns) }
    ensures same { OnWay result (Same world.old world.new) }
{
    for item in items {
        match statement(tables, world, &item.stmt) {
            Way::NoMemory => return Way::NoMemory,
            Way::Stopped(why) => return Way::Stopped(why),
            Way::Left(flow) => match flow {
                Flow::Next => {}
                Flow::Break => return Way::Left(Flow::Break),
                Flow::Continue => return Way::Left(Flow::Continue),
                Flow::Return(value) => return Way::Left(Flow::Return(value)),
            },
        }
    }
    Way::Left(Flow::Next)
}

/// An expression whose value is of no use, or none (C89, 3.6.3).
#[inline(always)]
pub fn discard(tables: &Tables, world: &mut World, node: &Option<Node>) -> Way
    requires { is_direct_maybe node.now ≡ true }
    ensures is { (k : Knot) (h : List Event) (n : ℕ) → Leaves result (state_of world.new h) (form_flow (tables_shape tables.now) k (simply (maybe_node node.now)) (quiet n) (state_of world.old h)) }
    ensures names { world.new.names ≡ world.old.names }
    ensures turns { world.new.turns ≤ world.old.turns }
    ensures same { Same world.old world.new }
{
    match node {
        None => Way::Left(Flow::Next),
        Some(node) => match value(tables, world, node) {
            Answer::NoMemory => Way::NoMemory,
            Answer::Stopped(why) => Way::Stopped(why),
            Answer::Value(_) => Way::Left(Flow::Next),
        },
    }
}

// A `return` (C89, 3.6.6.4).
#[inline(always)]
fn give(tables: &Tables, world: &mut World, node: &Option<Node>) -> Way
    requires { is_direct_maybe node.now ≡ true }
    ensures is { (k : Knot) (h : List Event) (n : ℕ) → Leaves result (state_of world.new h) (form_flow (tables_shape tables.now) k (return (maybe_node node.now)) (quiet n) (state_of world.old h)) }
    ensures names { world.new.names ≡ world.old.names }
    ensures turns { world.new.turns ≤ world.old.turns }
    ensures same { Same world.old world.new }
{
    match node {
        None => Way::Left(Flow::Return(None)),
        Some(node) => match value(tables, world, node) {
            Answer::NoMemory => Way::NoMemory,
            Answer::Stopped(why) => Way::Stopped(why),
            Answer::Value(value) => Way::Left(Flow::Return(Some(value))),
        },
    }
}

// Whether the value of a test compares unequal to 0 (C89, 3.6.4.1).
#[tactic(auto, using(crate::proofs::Done::tests_stops, crate::proofs::Done::tests_gives))]
#[inline(always)]
fn truth(tables: &Tables, world: &mut World, node: &Node) -> Tested
    requires { is_direct node.now.note node.now.form ≡ true }
    ensures is { (k : Knot) (h : List Event) → Tests result (state_of world.new h) (tested (node_shape node.now) (meaning (tables_shape tables.now) k (node_shape node.now)) (quiet 0) (state_of world.old h)) }
    ensures names { world.new.names ≡ world.old.names }
    ensures fewer { OnTested result (world.new.turns < world.old.turns) }
    ensures turns { world.new.turns ≤ world.old.turns }
    ensures same { Same world.old world.new }
{
    match value(tables, world, node) {
        Answer::NoMemory => Tested::NoMemory,
        Answer::Stopped(why) => Tested::Stopped(why),
        Answer::Value(value) => Tested::Is(is_true(value)),
    }
}
