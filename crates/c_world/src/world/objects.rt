//! Arrays and structures, initialised (C89, 3.5.7).

ghost use Rattle.std.specs.Prelude.{◌≡◌, ◌≤◌, ℕ, List, length, Some, IfOk};
ghost use Rattle.c_events.specs.declared.events.Event.{Event};
ghost use Rattle.c_syntax.specs.Shape.{TypeOf};
ghost use Rattle.c_syntax.specs.View.{init_shape, maybe_init};
ghost use Rattle.c_meaning.specs.State.{tells};
ghost use Rattle.c_meaning.specs.Layout.{variable_kind};
ghost use Rattle.c_meaning.specs.Constants.{init_cells};
ghost use Rattle.c_meaning.specs.Firsts.{quiet};
ghost use Rattle.c_meaning.specs.Places.{first_cell};
ghost use Rattle.c_meaning.specs.Declarations.{name_marks, filled, filled_whole, file_cells};
ghost use Rattle.c_base.specs.Kept.{kept};
ghost use Rattle.c_world.specs.Steps.{stored_maybe, filled_at, filled_object};
ghost use Rattle.c_world.specs.World.{state_of, tables_of, answered, Same};

use super::World;
use super::writing::name_site;
use crate::answers::Site;
use crate::places::{first_cell, next_cell};
use c_base::place::NoMemory;
use c_compute::layout::variable_cells;
use c_compute::objects::{file_cells, init_cells};
use c_meaning::end::Stop;
use c_store::value::{Fault, Pointer, Value};
use c_syntax::tree::{Init, Named};

impl<'p> World<'p> {
    /// Writes an initialiser in braces, or that of an array by a string, into the cells of a variable (C89, 3.5.7), and logs
    /// for the probe round its declared name that each is defined.
    pub fn fill_object(
        &mut self,
        variable: u32,
        name: &Option<Named>,
        init: &Init,
    ) -> Result<Option<Stop>, NoMemory>
        ensures done { IfOk result (λ r. (h : List Event) (n : ℕ) → filled_object (tables_of self.old) variable name.now (init_shape init.now) (quiet n) (state_of self.old h) ≡ answered r (state_of self.new h)) }
        ensures same { Same self.old self.new }
        ensures names { self.new.names ≡ self.old.names }
    {
        if variable == 0 || variable > self.program.tables().variables() {
            return Ok(Some(Stop::Fault(Fault::NoResult)));
        }
        match self.names.instance(variable) {
            None => Ok(Some(Stop::Fault(Fault::NoResult))),
            Some(instance) => {
                let stopped = self.fill_local(variable, instance, name, init)?;
                Ok(stopped)
            }
        }
    }

    // Writes the initialiser of a variable into its instance.
    fn fill_local(
        &mut self,
        variable: u32,
        instance: u64,
        name: &Option<Named>,
        init: &Init,
    ) -> Result<Option<Stop>, NoMemory>
        requires { (1 ≤ variable) × (variable ≤ length (tables_of self.old).variables) }
        ensures done { IfOk result (λ r. (h : List Event) (n : ℕ) (k : TypeOf) → variable_kind (tables_of self.old) variable ≡ Some k → filled_whole (tables_of self.old) k name.now (quiet n) instance (init_cells (tables_of self.old) self.old.names.file k (init_shape init.now)) (state_of self.old h) ≡ answered r (state_of self.new h)) }
        ensures same { Same self.old self.new }
        ensures names { self.new.names ≡ self.old.names }
    {
        let count = variable_cells(&mut self.sizes, self.program.tables(), variable)?;
        let kind = &self.program.tables().variable(variable).kind;
        let cells = init_cells(
            self.alloc,
            self.program.tables(),
            self.names.filing(),
            kind,
            init,
        )?;
        let stopped = self.fill_whole(name, instance, count, &cells)?;
        Ok(stopped)
    }

    // The same at file scope, where there may be none.
    pub(super) fn fill_filed(
        &mut self,
        variable: u32,
        instance: u64,
        name: &Option<Named>,
        init: &Option<Init>,
    ) -> Result<Option<Stop>, NoMemory>
        requires { (1 ≤ variable) × (variable ≤ length (tables_of self.old).variables) }
        ensures done { IfOk result (λ r. (h : List Event) (n : ℕ) (k : TypeOf) → variable_kind (tables_of self.old) variable ≡ Some k → filled_whole (tables_of self.old) k name.now (quiet n) instance (file_cells (tables_of self.old) self.old.names.file k (maybe_init init.now)) (state_of self.old h) ≡ answered r (state_of self.new h)) }
        ensures same { Same self.old self.new }
        ensures names { self.new.names ≡ self.old.names }
    {
        let count = variable_cells(&mut self.sizes, self.program.tables(), variable)?;
        let kind = &self.program.tables().variable(variable).kind;
        let cells = file_cells(
            self.alloc,
            self.program.tables(),
            self.names.filing(),
            kind,
            init,
        )?;
        let stopped = self.fill_whole(name, instance, count, &cells)?;
        Ok(stopped)
    }

    // Writes these cells into an instance of so many. There is no memory for 4,294,967,295 or more.
    fn fill_whole(
        &mut self,
        name: &Option<Named>,
        instance: u64,
        count: u32,
        cells: &[Option<Value>],
    ) -> Result<Option<Stop>, NoMemory>
        ensures done { IfOk result (λ r. (h : List Event) (n m : ℕ) → count ≡ kept m → filled tells (name_marks name.now) (quiet n) (first_cell instance m) cells.now (state_of self.old h) ≡ answered r (state_of self.new h)) }
        ensures same { Same self.old self.new }
        ensures names { self.new.names ≡ self.old.names }
    {
        if count == u32::MAX {
            return Err(NoMemory);
        }
        let stopped = self.fill_cells(name_site(name), first_cell(instance, count), cells)?;
        Ok(stopped)
    }

    // Writes these cells from the place on, and logs that each is defined at the site.
    fn fill_cells(
        &mut self,
        site: Site,
        at: Pointer,
        cells: &[Option<Value>],
    ) -> Result<Option<Stop>, NoMemory>
        ensures done { IfOk result (λ r. (h : List Event) → filled_at site at cells.now (state_of self.old h) ≡ answered r (state_of self.new h)) }
        ensures same { Same self.old self.new }
        ensures names { self.new.names ≡ self.old.names }
    {
        let mut at = at;
        let mut cells = cells;
        while let Some((cell, others)) = cells.split_first() {
            let stopped = self.fill_cell(site, at, *cell)?;
            if stopped.is_some() {
                return Ok(stopped);
            }
            at = next_cell(at)?;
            cells = others;
        }
        Ok(None)
    }

    // Writes the cell, where there is a value for it.
    #[inline(always)]
    fn fill_cell(
        &mut self,
        site: Site,
        at: Pointer,
        cell: Option<Value>,
    ) -> Result<Option<Stop>, NoMemory>
        ensures done { IfOk result (λ r. (h : List Event) → stored_maybe site at cell (state_of self.old h) ≡ answered r (state_of self.new h)) }
        ensures same { Same self.old self.new }
        ensures names { self.new.names ≡ self.old.names }
    {
        match cell {
            None => Ok(None),
            Some(value) => {
                let stopped = self.write_marked(site, at, value)?;
                Ok(stopped)
            }
        }
    }
}
