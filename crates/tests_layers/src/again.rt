//! A program with its probes, and without them again.

ghost use Rattle.std.specs.Prelude.{◌≡◌, IfOk};
ghost use Rattle.c_syntax.specs.View.{unit_shape};
ghost use Rattle.c_tables.specs.Tables.{tables_shape};
ghost use Rattle.c_sites.specs.Refused.{AreSites};

use c_base::place::NoMemory;
use c_sites::Sites;
use c_tree::program::Program;
use probe_in::instrument;
use probe_out::erase_probes;
use std::alloc::Global;

/// The program with its probes, without them again: it is the program.
pub fn without_probes(alloc: Global, program: &Program, sites: &Sites) -> Result<Program, NoMemory>
    requires { AreSites program.now sites.now }
    ensures unit { IfOk result (λ q. unit_shape q.unit ≡ unit_shape program.now.unit) }
    ensures tables { IfOk result (λ q. tables_shape q.tables ≡ tables_shape program.now.tables) }
{
    let probed = instrument(alloc, program, sites, &[7; 32])?;
    erase_probes(alloc, &probed)
}
