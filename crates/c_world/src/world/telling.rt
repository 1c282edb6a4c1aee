//! What the probes are told: instances that are made, events, and instances that end.

ghost use Rattle.std.specs.Prelude.{◌≡◌, ◌++◌, ◌∷◌, [], ℕ, List, take, OnOk, OnErr};
ghost use Rattle.c_events.specs.declared.events.Event.{Event};
ghost use Rattle.c_events.specs.declared.events.Cell.{Cell};
ghost use Rattle.c_store.specs.Cells.{IsLive};
ghost use Rattle.c_meaning.specs.State.{logged};
ghost use Rattle.c_world.specs.Shown.{Rising, HasCell};
ghost use Rattle.c_world.specs.World.{state_of, Same};

use super::showing::{keep_living, tell_ended};
use super::{Made, World};
use atac_base::probes::Probes;
use c_base::place::NoMemory;
use c_events::events::Event;

impl<'p> World<'p> {
    /// Logs an event, which is pending from then on.
    #[inline(always)]
    pub fn log(&mut self, event: Event) -> Result<(), NoMemory>
        ensures logged { OnOk result ((h : List Event) → state_of self.new h ≡ logged event (state_of self.old h)) }
        ensures same { Same self.old self.new }
        ensures names { self.new.names ≡ self.old.names }
        ensures turns { self.new.turns ≡ self.old.turns }
        ensures store { self.new.store ≡ self.old.store }
    {
        match self.pending.push(event) {
            Ok(()) => Ok(()),
            Err(_) => Err(NoMemory),
        }
    }

    // Notes an instance of so many cells, which is fresh from then on.
    #[inline(always)]
    pub(super) fn note(&mut self, instance: u64, cells: u32) -> Result<(), NoMemory>
        ensures noted { OnOk result (self.new.fresh.items ≡ self.old.fresh.items ++ record { instance = instance; cells = cells } ∷ []) }
        ensures state { (h : List Event) → state_of self.new h ≡ state_of self.old h }
        ensures same { Same self.old self.new }
        ensures names { self.new.names ≡ self.old.names }
        ensures store { self.new.store ≡ self.old.store }
    {
        match self.fresh.push(Made { instance, cells }) {
            Ok(()) => Ok(()),
            Err(_) => Err(NoMemory),
        }
    }

    /// Tells the instances that were made since the last call, in the order of their numbers; then the pending events in their
    /// order, which are forgotten; then those instances that have ended. After an `Err` a front of the events was told.
    #[inline(always)]
    pub fn tell<P: Probes>(&mut self, probes: &mut P) -> Result<(), NoMemory>
        ensures told { OnOk result ((h l : List Event) → P.stands_for probes.old (h ++ l) → P.stands_for probes.new (h ++ (l ++ self.old.pending.items))) }
        ensures rest { OnOk result ((l : List Event) → state_of self.new (l ++ self.old.pending.items) ≡ state_of self.old l) }
        ensures front { OnErr result ((h l : List Event) → P.stands_for probes.old (h ++ l) → (n : ℕ) × P.stands_for probes.new (h ++ (l ++ take n self.old.pending.items))) }
        ensures up_to { OnErr result ((n : ℕ) × ((h l : List Event) → P.stands_for probes.old (h ++ l) → P.stands_for probes.new (h ++ (l ++ take n self.old.pending.items)))) }
        ensures taken { OnOk result (Rising (P.top probes.old) self.old.fresh.items → (cell : Cell) → HasCell cell self.old.fresh.items → IsLive cell.instance self.old.store → P.takes probes.new cell) }
        ensures stay { (cell : Cell) → IsLive cell.instance self.old.store → P.takes probes.old cell → P.takes probes.new cell }
        ensures same { Same self.old self.new }
        ensures names { self.new.names ≡ self.old.names }
        ensures store { self.new.store ≡ self.old.store }
        ensures goes_by { P.owners probes.new ≡ P.owners probes.old }
    {
        if self.pending.is_empty() && self.fresh.is_empty() && !self.closed {
            return Ok(());
        }
        tell_made(&self.fresh, probes)?;
        tell_all(&self.pending, probes)?;
        self.pending.clear();
        tell_ended(&mut self.shown, &self.store, probes);
        keep_living(&mut self.shown, &self.fresh, &self.store, probes)?;
        self.fresh.clear();
        self.closed = false;
        Ok(())
    }
}

// Tells instances that were made, in their order.
fn tell_made<P: Probes>(fresh: &[Made], probes: &mut P) -> Result<(), NoMemory>
    ensures taken { OnOk result (Rising (P.top probes.old) fresh.now → (cell : Cell) → HasCell cell fresh.now → P.takes probes.new cell) }
    ensures kept { (h : List Event) → P.stands_for probes.old h → P.stands_for probes.new h }
    ensures stay { (cell : Cell) → P.takes probes.old cell → P.takes probes.new cell }
    ensures goes_by { P.owners probes.new ≡ P.owners probes.old }
{
    for made in fresh {
        probes.made(made.instance, made.cells)?;
    }
    Ok(())
}

// Tells events in their order. After an `Err` a front of them was told.
fn tell_all<P: Probes>(events: &[Event], probes: &mut P) -> Result<(), NoMemory>
    ensures told { OnOk result ((h l : List Event) → P.stands_for probes.old (h ++ l) → P.stands_for probes.new (h ++ (l ++ events.now))) }
    ensures front { OnErr result ((n : ℕ) × ((h l : List Event) → P.stands_for probes.old (h ++ l) → P.stands_for probes.new (h ++ (l ++ take n events.now)))) }
    ensures stay { (cell : Cell) → P.takes probes.old cell → P.takes probes.new cell }
    ensures goes_by { P.owners probes.new ≡ P.owners probes.old }
{
    for event in events {
        probes.see(*event)?;
    }
    Ok(())
}
