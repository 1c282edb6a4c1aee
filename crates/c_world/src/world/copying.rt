//! Elements whose cells are copied.

ghost use Rattle.std.specs.Prelude.{◌≡◌, ◌<◌, ◌≤◌, ◌-◌, List, OnErr, true, false};
ghost use Rattle.c_events.specs.declared.events.Event.{Event};
ghost use Rattle.c_store.specs.Cells.{IsWritten};
ghost use Rattle.c_store.specs.Copies.{copy_of, reach_of};
ghost use Rattle.c_world.specs.World.{state_of, Same};

use super::World;
use c_store::value::{Fault, Pointer};

impl<'p> World<'p> {
    /// Takes so many turns; false exactly where fewer are left, and then none is.
    pub fn take_turns(&mut self, count: u32) -> bool
        ensures taken { result ≡ true → (count ≤ self.old.turns) × ((h : List Event) → state_of self.new h ≡ record (state_of self.old h) { turns = self.old.turns - count }) }
        ensures none { result ≡ false → (self.old.turns < count) × ((h : List Event) → state_of self.new h ≡ record (state_of self.old h) { turns = 0 }) }
        ensures turns { self.new.turns ≤ self.old.turns }
        ensures same { Same self.old self.new }
        ensures names { self.new.names ≡ self.old.names }
        ensures store { self.new.store ≡ self.old.store }
    {
        if u64::from(count) > self.turns {
            self.turns = 0;
            return false;
        }
        self.turns -= u64::from(count);
        true
    }

    /// Whether the cells of an element may be read, if they have values.
    pub fn reach_cells(&self, at: Pointer) -> Result<(), Fault>
        ensures { result ≡ reach_of self.now.store at }
    {
        self.store.reach_cells(at)
    }

    /// Makes the cells of an element equal to those of another of its size. After an `Err` the store is as it was.
    pub fn copy(&mut self, from: Pointer, to: Pointer) -> Result<(), Fault>
        requires { from.size ≡ to.size }
        ensures is { IsWritten result self.new.store (copy_of self.old.store from to) }
        ensures kept { OnErr result (self.new.store ≡ self.old.store) }
        ensures state { (h : List Event) → state_of self.new h ≡ record (state_of self.old h) { store = self.new.store } }
        ensures same { Same self.old self.new }
        ensures names { self.new.names ≡ self.old.names }
        ensures turns { self.new.turns ≡ self.old.turns }
    {
        self.store.copy(from, to)
    }
}
