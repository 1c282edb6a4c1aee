//! Structures that are copied, with what is told of their cells.

ghost use Rattle.std.specs.Prelude.{◌≡◌, ◌≤◌, List, Option, IfOk, OnOk};
ghost use Rattle.c_events.specs.declared.events.Event.{Event};
ghost use Rattle.c_syntax.specs.Shape.{used, def};
ghost use Rattle.c_syntax.specs.View.{node_shape};
ghost use Rattle.c_store.specs.declared.value.Value.{Value};
ghost use Rattle.c_store.specs.Copies.{copy_of, reach_of};
ghost use Rattle.c_meaning.specs.State.{Act, State, tells};
ghost use Rattle.c_meaning.specs.Results.{Got, Gives, then_do, settled};
ghost use Rattle.c_meaning.specs.Firsts.{quiet};
ghost use Rattle.c_meaning.specs.Places.{cells_defined, cells_used, copied, first_of, marks};
ghost use Rattle.c_world.specs.World.{state_of};
ghost use Rattle.c_eval_once.specs.Forms.{Kept, copied_as, told};

use crate::cells::is_bare;
use crate::telling::{tell_definitions, tell_uses};
use c_base::place::NoMemory;
use c_meaning::end::Stop;
use c_store::value::{Fault, Pointer};
use c_syntax::tree::Node;
use c_world::places::{first_of, next_cell};
use c_world::world::World;

/// The cells of the structure at the place that the right node is are copied to the place that the left one is (C89,
/// 3.3.16.1), with a turn for each; the probes of the right one tell that each was used, those of the left one that each was
/// defined. NoResult comes where they have not as many cells, or none.
pub fn copy(
    world: &mut World,
    left: &Node,
    right: &Node,
    to: Pointer,
    from: Pointer,
) -> Result<Option<Stop>, NoMemory>
    ensures done { IfOk result (λ r. (h : List Event) → copied (marks def (node_shape left.now)) (marks used (node_shape right.now)) (quiet 0) (quiet 0) to from (state_of world.old h) ≡ copied_as r (state_of world.new h)) }
    ensures kept { OnOk result (Kept world.old world.new) }
    ensures turns { OnOk result (world.new.turns ≤ world.old.turns) }
{
    if to.size != from.size || from.size == 0 {
        return Ok(Some(Stop::Fault(Fault::NoResult)));
    }
    if !world.take_turns(from.size) {
        return Ok(Some(Stop::Turns));
    }
    let stopped = copy_from(world, left, right, to, from)?;
    Ok(stopped)
}

// The same, with their turns taken.
fn copy_from(
    world: &mut World,
    left: &Node,
    right: &Node,
    to: Pointer,
    from: Pointer,
) -> Result<Option<Stop>, NoMemory>
    requires { to.size ≡ from.size }
    ensures done { IfOk result (λ r. (h : List Event) → then_do (settled (reach_of world.old.store from) (state_of world.old h)) (λ done s. cells_used tells (marks used (node_shape right.now)) (quiet 0) (first_of from) from.size s (λ s. then_do (settled (copy_of s.store from to) s) (λ c s. cells_defined tells (marks def (node_shape left.now)) (quiet 0) (first_of to) to.size (record s { store = c }) (λ s. Gives None s)))) ≡ copied_as r (state_of world.new h)) }
    ensures kept { OnOk result (Kept world.old world.new) }
    ensures turns { OnOk result (world.new.turns ≡ world.old.turns) }
{
    match world.reach_cells(from) {
        Err(fault) => return Ok(Some(Stop::Fault(fault))),
        Ok(()) => {}
    }
    if !tell_cells_used(world, right, from)? {
        return Ok(Some(Stop::Fault(Fault::NoResult)));
    }
    let stopped = copy_to(world, left, to, from)?;
    Ok(stopped)
}

// The same, once it was told that the cells were used.
fn copy_to(
    world: &mut World,
    left: &Node,
    to: Pointer,
    from: Pointer,
) -> Result<Option<Stop>, NoMemory>
    requires { to.size ≡ from.size }
    ensures done { IfOk result (λ r. (h : List Event) → then_do (settled (copy_of world.old.store from to) (state_of world.old h)) (λ c s. cells_defined tells (marks def (node_shape left.now)) (quiet 0) (first_of to) to.size (record s { store = c }) (λ s. Gives None s)) ≡ copied_as r (state_of world.new h)) }
    ensures kept { OnOk result (Kept world.old world.new) }
    ensures turns { OnOk result (world.new.turns ≡ world.old.turns) }
{
    match world.copy(from, to) {
        Err(fault) => return Ok(Some(Stop::Fault(fault))),
        Ok(()) => {}
    }
    if tell_cells_defined(world, left, to)? {
        Ok(None)
    } else {
        Ok(Some(Stop::Fault(Fault::NoResult)))
    }
}

// Tells one by one that the cells of the element at the place that the node is were used; false at a probe without a number.
fn tell_cells_used(world: &mut World, node: &Node, at: Pointer) -> Result<bool, NoMemory>
    ensures told { IfOk result (λ r. (h : List Event) (go : State → Got (Option Value)) → cells_used tells (marks used (node_shape node.now)) (quiet 0) (first_of at) at.size (state_of world.old h) go ≡ told r (state_of world.new h) go) }
    ensures kept { OnOk result (Kept world.old world.new) }
    ensures turns { OnOk result (world.new.turns ≡ world.old.turns) }
{
    if is_bare(node) {
        return Ok(true);
    }
    let mut cell = first_of(at)?;
    let mut left = at.size;
    while left > 0 {
        if !tell_uses(world, node, cell)? {
            return Ok(false);
        }
        cell = next_cell(cell)?;
        left -= 1;
    }
    Ok(true)
}

// The same of definitions.
fn tell_cells_defined(world: &mut World, node: &Node, at: Pointer) -> Result<bool, NoMemory>
    ensures told { IfOk result (λ r. (h : List Event) (go : State → Got (Option Value)) → cells_defined tells (marks def (node_shape node.now)) (quiet 0) (first_of at) at.size (state_of world.old h) go ≡ told r (state_of world.new h) go) }
    ensures kept { OnOk result (Kept world.old world.new) }
    ensures turns { OnOk result (world.new.turns ≡ world.old.turns) }
{
    if is_bare(node) {
        return Ok(true);
    }
    let mut cell = first_of(at)?;
    let mut left = at.size;
    while left > 0 {
        if !tell_definitions(world, node, cell)? {
            return Ok(false);
        }
        cell = next_cell(cell)?;
        left -= 1;
    }
    Ok(true)
}
