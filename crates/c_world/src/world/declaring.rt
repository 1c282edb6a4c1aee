//! Local variables, made (C89, 3.5.7).

ghost use Rattle.std.specs.Prelude.{◌≡◌, ℕ, suc, List, ◌++◌, Option, IfOk, OnOk};
ghost use Rattle.c_events.specs.declared.events.Event.{Event};
ghost use Rattle.c_syntax.specs.declared.tree.Named.{Named};
ghost use Rattle.c_syntax.specs.declared.tree.Star.{Star};
ghost use Rattle.c_syntax.specs.Shape.{LengthShapes, declarator, arrays, no_init};
ghost use Rattle.c_meaning.specs.Firsts.{quiet};
ghost use Rattle.c_meaning.specs.Knot.{Knot};
ghost use Rattle.c_meaning.specs.Declarations.{declared_name};
ghost use Rattle.c_world.specs.Names.{IsActive, scope_counts};
ghost use Rattle.c_world.specs.Shown.{noted};
ghost use Rattle.c_world.specs.Steps.{placed, placed_at, placed_or, declared, made_variable};
ghost use Rattle.c_world.specs.World.{state_of, tables_of, answered, Same};

use super::World;
use crate::answers::Placed;
use c_base::place::NoMemory;
use c_compute::layout::variable_cells;
use c_meaning::end::Stop;
use c_store::value::{Fault, MakeErr};

impl<'p> World<'p> {
    /// Takes the turns of a local variable's declarator, one for each of its cells, and makes its instance, which is all that
    /// one without an initialiser does (C89, 3.5.7). Turns or Room comes exactly where the definition stops there.
    pub fn declare(&mut self, variable: u32) -> Result<Option<Stop>, NoMemory>
        requires { IsActive self.old.names.calls }
        ensures done { IfOk result (λ r. (h : List Event) → declared (tables_of self.old) variable (state_of self.old h) ≡ answered r (state_of self.new h)) }
        ensures named { IfOk result (λ r. (h : List Event) (k : Knot) (stars : List Star) (x : Option Named) (ls : LengthShapes) (n : ℕ) → variable ≡ suc n → declared_name (tables_of self.old) k (declarator stars x (arrays ls) no_init) (quiet n) (state_of self.old h) ≡ answered r (state_of self.new h)) }
        ensures same { Same self.old self.new }
        ensures active { OnOk result (IsActive self.new.names.calls) }
        ensures counts { OnOk result (scope_counts self.new.names.calls ≡ scope_counts self.old.names.calls) }
    {
        let stopped = self.take_declarator(variable)?;
        Ok(stopped)
    }

    fn take_declarator(&mut self, variable: u32) -> Result<Option<Stop>, NoMemory>
        requires { IsActive self.old.names.calls }
        ensures done { IfOk result (λ r. (h : List Event) → declared (tables_of self.old) variable (state_of self.old h) ≡ answered r (state_of self.new h)) }
        ensures same { Same self.old self.new }
        ensures active { OnOk result (IsActive self.new.names.calls) }
        ensures counts { OnOk result (scope_counts self.new.names.calls ≡ scope_counts self.old.names.calls) }
    {
        if variable == 0 || variable > self.program.tables().variables() {
            return Ok(Some(Stop::Fault(Fault::NoResult)));
        }
        let cells = variable_cells(&mut self.sizes, self.program.tables(), variable)?;
        if u64::from(cells) > self.turns {
            self.turns = 0;
            return Ok(Some(Stop::Turns));
        }
        self.turns -= u64::from(cells);
        match self.place(variable, cells)? {
            Some(_) => Ok(None),
            None => Ok(Some(Stop::Room)),
        }
    }

    // Makes an instance of the variable's type for it.
    pub(super) fn place_variable(&mut self, variable: u32) -> Result<Placed, NoMemory>
        requires { IsActive self.old.names.calls }
        ensures done { IfOk result (λ r. (h : List Event) → made_variable (tables_of self.old) variable (state_of self.old h) ≡ placed_or r (state_of self.new h)) }
        ensures same { Same self.old self.new }
        ensures active { OnOk result (IsActive self.new.names.calls) }
        ensures counts { OnOk result (scope_counts self.new.names.calls ≡ scope_counts self.old.names.calls) }
    {
        if variable == 0 || variable > self.program.tables().variables() {
            return Ok(Placed::Stopped(Stop::Fault(Fault::NoResult)));
        }
        let cells = variable_cells(&mut self.sizes, self.program.tables(), variable)?;
        match self.place(variable, cells)? {
            Some(instance) => Ok(Placed::At(instance)),
            None => Ok(Placed::Stopped(Stop::Room)),
        }
    }

    // Makes an instance of so many cells for the variable; None where there is no room.
    fn place(&mut self, variable: u32, cells: u32) -> Result<Option<u64>, NoMemory>
        requires { IsActive self.old.names.calls }
        ensures done { IfOk result (λ r. (h : List Event) → placed variable cells (state_of self.old h) ≡ placed_at r (state_of self.new h)) }
        ensures noted { IfOk result (λ r. self.new.fresh.items ≡ self.old.fresh.items ++ noted r cells) }
        ensures same { Same self.old self.new }
        ensures active { OnOk result (IsActive self.new.names.calls) }
        ensures counts { OnOk result (scope_counts self.new.names.calls ≡ scope_counts self.old.names.calls) }
    {
        if self.made == u64::MAX {
            return Err(NoMemory);
        }
        match self.store.make(cells) {
            Err(MakeErr::NoMemory) => Err(NoMemory),
            Err(MakeErr::Room) => Ok(None),
            Ok(instance) => {
                self.made = instance;
                self.names.bind(variable, instance)?;
                self.note(instance, cells)?;
                Ok(Some(instance))
            }
        }
    }
}
