//! Programs of the checker with their probes.

ghost use Rattle.std.specs.Prelude.{◌≡◌, ℕ, Some, IfOk};
ghost use Rattle.hex.specs.Hex.{encode_lower};
ghost use Rattle.c_constants.specs.Probes.{digest_of};
ghost use Rattle.c_syntax.specs.View.{unit_shape};
ghost use Rattle.c_tree.specs.Erased.{erased_unit};
ghost use Rattle.c_tree.specs.Programs.{digest_in};
ghost use Rattle.c_sites_probes.specs.Owned.{owner_of, owned_in};
ghost use Rattle.c_meaning.specs.Sources.{source_of};
ghost use Rattle.c_sites.specs.Refused.{AreSites};
ghost use Rattle.probe_rules.specs.Instrumented.{instrumented};
ghost use Rattle.probe_rules.specs.Simulation.{Simulates};
ghost use Rattle.probe_laws.specs.Owners.{owner_in_program};

use crate::unit::instrumented;
use c_base::place::NoMemory;
use c_copy_tables::copy_tables;
use c_sites::Sites;
use c_syntax::text::Text;
use c_tree::program::Program;
use std::alloc::Global;

// The digest as 64 lower-case hexadecimal digits, which read back as it.
fn digest_text(alloc: Global, digest: &[u8; 32]) -> Result<Text, NoMemory>
    ensures spelled { IfOk result (λ t. t ≡ encode_lower digest.now) }
    ensures read { IfOk result (λ t. digest_of t ≡ Some digest.now) }
{
    match hex::encode(alloc, digest.as_slice()) {
        Ok(digits) => Text::from_bytes(alloc, digits.as_bytes()),
        Err(_) => Err(NoMemory),
    }
}

/// The program with its probes, behind a line with the digest. Its sites show that it may have them. It does what the
/// program does, its log is the program's events, each use probe belongs to the decision of its use, and without its probes it
/// is the program.
pub fn instrument(
    alloc: Global,
    program: &Program,
    sites: &Sites,
    digest: &[u8; 32],
) -> Result<Program, NoMemory>
    requires { AreSites program.now sites.now }
    ensures program { IfOk result (λ q. source_of q ≡ instrumented (encode_lower digest.now) (source_of program.now)) }
    ensures digest { IfOk result (λ q. digest_in q.unit.line ≡ Some digest.now) }
    ensures simulates { IfOk result (λ q. Simulates (source_of q) (source_of program.now)) }
    ensures erased { IfOk result (λ q. erased_unit (unit_shape q.unit) ≡ unit_shape program.now.unit) }
    ensures owns { IfOk result (λ q. (u : ℕ) → owner_of u (owned_in (unit_shape q.unit)) ≡ owner_in_program (source_of program.now) u) }
{
    let digits = digest_text(alloc, digest)?;
    let unit = instrumented(alloc, &digits, program.unit())?;
    let tables = copy_tables(alloc, program.tables())?;
    Ok(Program::from_typed(unit, tables))
}
