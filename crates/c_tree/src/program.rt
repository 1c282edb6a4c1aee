//! Typed programs.

ghost use Rattle.std.specs.Prelude.{◌≡◌, option_map, is_some};
ghost use Rattle.c_syntax.specs.View.{unit_shape};
ghost use Rattle.c_tables.specs.Tables.{tables_shape};
ghost use Rattle.c_tree.specs.Programs.{HoldsProgram, digest_in};

use crate::tree::Unit;
use c_constants::probes;
use c_tables::tables::Tables;

/// A translation unit without complaint: each expression is noted with its type (C89, 3.3), and the tables hold the
/// structures, functions, variables and strings that its types and notes name. A text gives its tokens, and its program line,
/// if there is one, has a digest. With probes put in it is one as well, and without them it is one.
#[derive(Drop)]
pub struct Program {
    unit: Unit,
    tables: Tables,
    ghost typed: { ∥ HoldsProgram (unit_shape unit) (tables_shape tables) ∥₁ },
}

impl Program {
    /// The program of a unit that was typed, plain or with its probes, and of its tables.
    pub fn from_typed(unit: Unit, tables: Tables) -> Program
        requires { ∥ HoldsProgram (unit_shape unit) (tables_shape tables) ∥₁ }
        ensures unit { result.unit ≡ unit }
        ensures tables { result.tables ≡ tables }
    {
        Program { unit, tables }
    }

    /// The unit, with its notes.
    pub fn unit(&self) -> &Unit
        ensures unit { result.now ≡ self.now.unit }
        ensures typed { ∥ HoldsProgram (unit_shape result.now) (tables_shape self.now.tables) ∥₁ }
    {
        &self.unit
    }

    /// The tables.
    pub fn tables(&self) -> &Tables
        ensures tables { result.now ≡ self.now.tables }
        ensures typed { ∥ HoldsProgram (unit_shape self.now.unit) (tables_shape result.now) ∥₁ }
    {
        &self.tables
    }

    /// The digest in the program line; None exactly where there is no line.
    #[tactic(auto, using(crate::proofs::Programs::held_line))]
    pub fn digest(&self) -> Option<[u8; 32]>
        ensures digest { result ≡ digest_in self.now.unit.line }
        ensures there { is_some result ≡ is_some self.now.unit.line }
    {
        let line = self.unit.line.as_ref()?;
        probes::digest(line.digest.bytes())
    }
}
