//! Programs of the checker without their probes.

ghost use Rattle.std.specs.Prelude.{◌≡◌, IfOk};
ghost use Rattle.c_syntax.specs.View.{unit_shape};
ghost use Rattle.c_tables.specs.Tables.{tables_shape};
ghost use Rattle.c_tree.specs.Erased.{erased_unit};
ghost use Rattle.c_tree.specs.Programs.{HoldsProgram};

use crate::unit::erased_unit;
use c_base::place::NoMemory;
use c_copy_tables::copy_tables;
use c_tree::program::Program;
use std::alloc::Global;

/// The program without its probes and its program line, with the same tables. What is left is to be a program. NoMemory is the
/// only error.
pub fn erase_probes(alloc: Global, program: &Program) -> Result<Program, NoMemory>
    requires { ∥ HoldsProgram (erased_unit (unit_shape program.now.unit)) (tables_shape program.now.tables) ∥₁ }
    ensures unit { IfOk result (λ q. unit_shape q.unit ≡ erased_unit (unit_shape program.now.unit)) }
    ensures tables { IfOk result (λ q. tables_shape q.tables ≡ tables_shape program.now.tables) }
{
    let unit = erased_unit(alloc, program.unit())?;
    let tables = copy_tables(alloc, program.tables())?;
    Ok(Program::from_typed(unit, tables))
}
