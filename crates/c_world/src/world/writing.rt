//! Cells, read and written, with what a definition logs.

ghost use Rattle.std.specs.Prelude.{◌≡◌, List, IfOk, OnErr};
ghost use Rattle.c_events.specs.declared.events.Event.{Event};
ghost use Rattle.c_store.specs.Cells.{read_of, write_of, IsWritten};
ghost use Rattle.c_meaning.specs.Firsts.{quiet};
ghost use Rattle.c_meaning.specs.Declarations.{scalar_written};
ghost use Rattle.c_world.specs.Steps.{name_site, marked, stored_at};
ghost use Rattle.c_world.specs.World.{state_of, answered, Same};

use super::World;
use crate::answers::Site;
use crate::places::{cell_at, whole};
use c_base::place::NoMemory;
use c_constants::probes::probe_number;
use c_events::events::Event;
use c_meaning::end::Stop;
use c_store::value::{Fault, Pointer, Value};
use c_syntax::tree::Named;

impl<'p> World<'p> {
    /// The value in a cell.
    #[inline(always)]
    pub fn read(&self, at: Pointer) -> Result<Value, Fault>
        ensures { result ≡ read_of self.now.store at }
    {
        self.store.read(at)
    }

    /// Writes a cell. After an `Err` the store is as it was.
    #[inline(always)]
    pub fn write(&mut self, at: Pointer, value: Value) -> Result<(), Fault>
        ensures is { IsWritten result self.new.store (write_of self.old.store at value) }
        ensures kept { OnErr result (self.new.store ≡ self.old.store) }
        ensures state { (h : List Event) → state_of self.new h ≡ record (state_of self.old h) { store = self.new.store } }
        ensures same { Same self.old self.new }
        ensures names { self.new.names ≡ self.old.names }
        ensures turns { self.new.turns ≡ self.old.turns }
    {
        self.store.write(at, value)
    }

    /// Writes the cell of a scalar's instance (C89, 3.5.7), and logs for the probe round its declared name. NoResult comes where
    /// the probe has no number, else the fault of the cell.
    pub fn write_scalar(
        &mut self,
        name: &Option<Named>,
        instance: u64,
        value: Value,
    ) -> Result<Option<Stop>, NoMemory>
        ensures done { IfOk result (λ r. (h : List Event) → scalar_written name.now (quiet 0) instance value (state_of self.old h) ≡ answered r (state_of self.new h)) }
        ensures same { Same self.old self.new }
        ensures names { self.new.names ≡ self.old.names }
    {
        let stopped = self.write_marked(name_site(name), whole(instance, 1), value)?;
        Ok(stopped)
    }

    // Writes a cell, and logs that it is defined at the site.
    pub(super) fn write_marked(
        &mut self,
        site: Site,
        at: Pointer,
        value: Value,
    ) -> Result<Option<Stop>, NoMemory>
        ensures done { IfOk result (λ r. (h : List Event) → stored_at site at value (state_of self.old h) ≡ answered r (state_of self.new h)) }
        ensures same { Same self.old self.new }
        ensures names { self.new.names ≡ self.old.names }
    {
        match self.write(at, value) {
            Err(fault) => Ok(Some(Stop::Fault(fault))),
            Ok(()) => {
                let stopped = self.log_marked(site, at)?;
                Ok(stopped)
            }
        }
    }

    // Logs that the cell is defined at the site.
    fn log_marked(&mut self, site: Site, at: Pointer) -> Result<Option<Stop>, NoMemory>
        ensures done { IfOk result (λ r. (h : List Event) → marked site at (state_of self.old h) ≡ answered r (state_of self.new h)) }
        ensures same { Same self.old self.new }
        ensures names { self.new.names ≡ self.old.names }
    {
        match site {
            Site::Unmarked => Ok(None),
            Site::Unclear => Ok(Some(Stop::Fault(Fault::NoResult))),
            Site::Marked(site) => {
                let cell = cell_at(at)?;
                self.log(Event::Def(site, cell))?;
                Ok(None)
            }
        }
    }
}

// What stands round a declared name.
pub(super) fn name_site(name: &Option<Named>) -> Site
    ensures { result ≡ name_site name.now }
{
    let Some(named) = name else {
        return Site::Unmarked;
    };
    let Some(mark) = &named.probe else {
        return Site::Unmarked;
    };
    match probe_number(mark.number.bytes()) {
        None => Site::Unclear,
        Some(site) => Site::Marked(site),
    }
}
