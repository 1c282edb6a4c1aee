//! What sees the events of a run.

ghost use Rattle.std.specs.Prelude.{◌≡◌, ◌≢◌, ◌<◌, ◌≤◌, ℕ, Option, List, [], ◌∷◌, ◌++◌, OnOk, OnErr, IsOk, ⊤};
ghost use Rattle.c_events.specs.declared.events.Event.{Event};
ghost use Rattle.c_events.specs.declared.events.Cell.{Cell};
ghost use Rattle.atac_base.specs.Telling.{IsOf};

use c_base::place::NoMemory;
use c_events::events::Event;
use std::alloc::Global;

/// What sees the events of a run. It stands for the lists of events that its test holds of, and takes the definitions and
/// uses of some cells: those of instances that were made and haven't ended. Of an instance whose number isn't above `top` it
/// may take none. An event may be free: where its cell is taken, it is always seen. The owners of uses that it goes by stay.
pub trait Probes {
    ghost stands_for: { Self → List Event → Type 0 };

    ghost takes: { Self → Cell → Type 0 };

    ghost top: { Self → ℕ };

    ghost free: { Self → Event → Type 0 };

    ghost owners: { Self → List (Option ℕ) };

    /// Sees one event. After an `Err` it stands for what it stood for before.
    fn see(&mut self, event: Event) -> Result<(), NoMemory>
        ensures seen { OnOk result ((h : List Event) → stands_for self.old h → stands_for self.new (h ++ event ∷ [])) }
        ensures kept { OnErr result ((h : List Event) → stands_for self.old h → stands_for self.new h) }
        ensures stay { (cell : Cell) → takes self.old cell → takes self.new cell }
        ensures below { top self.new ≤ top self.old }
        ensures frees { IsOf (takes self.old) event → free self.old event → IsOk result }
        ensures goes_by { owners self.new ≡ owners self.old };

    /// An instance of so many cells is made. Instances are told in the order of their numbers.
    fn made(&mut self, instance: u64, cells: u32) -> Result<(), NoMemory>
        ensures kept { (h : List Event) → stands_for self.old h → stands_for self.new h }
        ensures taken { OnOk result (top self.old < instance → (cell : Cell) → cell.instance ≡ instance → cell.index < cells → takes self.new cell) }
        ensures stay { (cell : Cell) → takes self.old cell → takes self.new cell }
        ensures below { top self.old < instance → top self.new ≤ instance }
        ensures goes_by { owners self.new ≡ owners self.old };

    /// An instance has ended.
    fn ended(&mut self, instance: u64)
        ensures kept { (h : List Event) → stands_for self.old h → stands_for self.new h }
        ensures stay { (cell : Cell) → cell.instance ≢ instance → takes self.old cell → takes self.new cell }
        ensures below { top self.new ≤ top self.old }
        ensures goes_by { owners self.new ≡ owners self.old };
}

/// Keeps the events. It stands for the list that it keeps, and takes every cell; no event is free.
#[derive(Drop)]
pub struct EventList {
    events: Vec<Event>,
}

impl EventList {
    /// No event yet.
    pub fn new(alloc: Global) -> EventList
        ensures { ⟦<EventList as Probes>⟧.stands_for result [] }
    {
        EventList {
            events: Vec::new(alloc),
        }
    }

    /// The events so far, in their order.
    pub fn events(&self) -> &[Event]
        ensures { ⟦<EventList as Probes>⟧.stands_for self.now result.now }
    {
        self.events.as_slice()
    }
}

impl Probes for EventList {
    ghost stands_for = { λ s h. s.events.items ≡ h };

    ghost takes = { λ s cell. ⊤ };

    ghost top = { λ s. 0 };

    ghost free = { λ s e. ⊥ };

    ghost owners = { λ s. [] };

    #[inline]
    fn see(&mut self, event: Event) -> Result<(), NoMemory> {
        self.events.push(event)?;
        Ok(())
    }

    #[inline(always)]
    fn made(&mut self, instance: u64, cells: u32) -> Result<(), NoMemory> {
        Ok(())
    }

    #[inline(always)]
    fn ended(&mut self, instance: u64) {}
}

/// Hears nothing. It stands for every list, takes every cell and no memory: each event is free.
#[derive(Drop)]
pub struct Deaf;

impl Probes for Deaf {
    ghost stands_for = { λ s h. ⊤ };

    ghost takes = { λ s cell. ⊤ };

    ghost top = { λ s. 0 };

    ghost free = { λ s e. ⊤ };

    ghost owners = { λ s. [] };

    #[inline(always)]
    fn see(&mut self, event: Event) -> Result<(), NoMemory> {
        Ok(())
    }

    #[inline(always)]
    fn made(&mut self, instance: u64, cells: u32) -> Result<(), NoMemory> {
        Ok(())
    }

    #[inline(always)]
    fn ended(&mut self, instance: u64) {}
}
