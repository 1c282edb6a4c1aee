//! The state of a run.

ghost use Rattle.std.specs.Prelude.{◌≡◌, ◌≤◌, suc};
ghost use Rattle.c_meaning.specs.State.{activation_in};
ghost use Rattle.c_tables.specs.Tables.{tables_shape};
ghost use Rattle.c_plan.specs.Routines.{IsRouted};
ghost use Rattle.c_meaning.specs.Sources.{source_of};
ghost use Rattle.c_compute.specs.Sizes.{IsMeasured};
ghost use Rattle.c_world.specs.Lives.{Living, Living-prop, call_instances};

mod asking;
mod beginning;
mod bytes;
mod copying;
mod declaring;
mod entering;
mod filling;
mod objects;
mod scopes;
mod showing;
mod telling;
mod writing;

use crate::names::Names;
use c_events::events::Event;
use c_plan::routines::Routines;
use c_store::store::Store;
use c_syntax::text::Text;
use c_tree::program::Program;
use std::alloc::Global;

/// An instance that was made, and how many cells it has.
#[derive(Clone, Copy, Drop)]
struct Made {
    instance: u64,
    cells: u32,
}

/// A run of a program: where its functions stand, its store, what names stand for in it, what is left of the input, the output, the turns that are
/// left, the numbers of the last activation and of the last instance, how many cells each variable has, and what the probes
/// are told: the events that are pending; the instances that are fresh, of which they weren't told yet; those that were
/// shown to them, in the order of their numbers, and not yet told as ended; and whether a scope was closed since.
#[derive(Drop)]
pub struct World<'p> {
    alloc: Global,
    program: &'p Program,
    routines: Routines,
    store: Store,
    names: Names,
    input: &'p [u8],
    output: Text,
    limit: u64,
    turns: u64,
    last: u64,
    made: u64,
    sizes: Vec<u32>,
    pending: Vec<Event>,
    fresh: Vec<Made>,
    shown: Vec<u64>,
    closed: bool,
    ghost living: { Living (suc store.count) (call_instances names.calls) store } by { Living-prop (suc store.count) (call_instances names.calls) store },
    ghost counted: { made ≡ store.count },
    ghost most: { store.most ≡ 1048576 },
    ghost active: { activation_in names.calls ≤ last },
    ghost within: { turns ≤ limit },
    ghost limited: { limit ≤ 1000000000 },
    ghost routed: { IsRouted (source_of program.now) routines },
    ghost measured: { IsMeasured (tables_shape program.now.tables) sizes.items },
}
