//! What is asked of the state.

ghost use Rattle.std.specs.Prelude.{◌≡◌, List, length};
ghost use Rattle.c_events.specs.declared.events.Event.{Event};
ghost use Rattle.c_syntax.specs.View.{type_of};
ghost use Rattle.c_meaning.specs.State.{activation_in, function_in, instance_of};
ghost use Rattle.c_meaning.specs.Places.{variable_place, selected_place};
ghost use Rattle.c_world.specs.Steps.{found};
ghost use Rattle.c_world.specs.World.{state_of, tables_of};

use super::World;
use crate::places::{cells_in, has_part, object_at};
use c_meaning::end::Stop;
use c_store::value::{Fault, Pointer};
use c_syntax::tree::CType;
use c_tables::tables::Tables;
use c_tree::program::Program;

impl<'p> World<'p> {
    /// The program.
    #[inline(always)]
    pub fn program(&self) -> &'p Program
        ensures { result.now ≡ self.now.program.now }
    {
        self.program
    }

    /// The program's tables.
    #[inline(always)]
    pub fn tables(&self) -> &'p Tables
        ensures { result.now ≡ self.now.program.now.tables }
    {
        self.program.tables()
    }

    /// The activation that is active; 0 where none is.
    #[inline(always)]
    pub fn activation(&self) -> u64
        ensures { result ≡ activation_in self.now.names.calls }
    {
        self.names.activation()
    }

    /// The number of the active function; 0 where none is. It looks for it among all that the active call has bound.
    pub fn function(&self) -> u32
        ensures { result ≡ function_in self.now.names.calls }
    {
        self.names.function()
    }

    /// How many calls are active.
    #[inline(always)]
    pub fn depth(&self) -> u32
        ensures { result ≡ length self.now.names.calls }
    {
        self.names.depth()
    }

    /// The instance that the variable of that number stands for.
    #[inline(always)]
    pub fn instance(&self, variable: u32) -> Option<u64>
        ensures { (h : List Event) → result ≡ instance_of variable (state_of self.now h) }
    {
        self.names.instance(variable)
    }

    /// A pointer to the variable of that number and type (C89, 3.2.2.1); NoResult where it stands for no instance.
    #[inline(always)]
    pub fn variable(&self, kind: &CType, number: u32) -> Result<Pointer, Stop>
        ensures { (h : List Event) → variable_place (tables_of self.now) (type_of kind.now) number (state_of self.now h) ≡ found result (state_of self.now h) }
    {
        match self.names.instance(number) {
            None => Err(Stop::Fault(Fault::NoResult)),
            Some(instance) => object_at(instance, cells_in(self.program.tables(), kind)),
        }
    }

    /// A pointer to the first of `length` elements of `size` cells, which lie in the element at that place from the offset on
    /// (C89, 3.3.2.1 and 3.3.2.3); NoResult where they don't lie in it, else the fault of the place.
    #[inline(always)]
    pub fn select(&self, at: Pointer, offset: u32, length: u32, size: u32) -> Result<Pointer, Stop>
        ensures { (h : List Event) → selected_place at offset length size (state_of self.now h) ≡ found result (state_of self.now h) }
    {
        if !has_part(at, offset, length, size) {
            return Err(Stop::Fault(Fault::NoResult));
        }
        match self.store.select(at, offset, length, size) {
            Ok(place) => Ok(place),
            Err(fault) => Err(Stop::Fault(fault)),
        }
    }
}
