//! Scalars, initialised (C89, 3.5.7).

ghost use Rattle.std.specs.Prelude.{◌≡◌, List, IfOk};
ghost use Rattle.c_events.specs.declared.events.Event.{Event};
ghost use Rattle.c_world.specs.Steps.{filled_one};
ghost use Rattle.c_world.specs.World.{state_of, tables_of, answered, Same};

use super::World;
use c_base::place::NoMemory;
use c_compute::operators::converted;
use c_meaning::end::Stop;
use c_store::value::{Fault, Value};
use c_syntax::tree::Named;

impl<'p> World<'p> {
    /// Writes the value of an initialiser, converted to the variable's type (C89, 3.5.7), into the variable's cell, and
    /// tells the probe round its declared name.
    pub fn fill(
        &mut self,
        variable: u32,
        name: &Option<Named>,
        value: Value,
    ) -> Result<Option<Stop>, NoMemory>
        ensures done { IfOk result (λ r. (h : List Event) → filled_one (tables_of self.old) variable name.now value (state_of self.old h) ≡ answered r (state_of self.new h)) }
        ensures same { Same self.old self.new }
        ensures names { self.new.names ≡ self.old.names }
    {
        if variable == 0 || variable > self.program.tables().variables() {
            return Ok(Some(Stop::Fault(Fault::NoResult)));
        }
        match self.names.instance(variable) {
            None => Ok(Some(Stop::Fault(Fault::NoResult))),
            Some(instance) => {
                let value = converted(&self.program.tables().variable(variable).kind, value);
                let stopped = self.write_scalar(name, instance, value)?;
                Ok(stopped)
            }
        }
    }
}
