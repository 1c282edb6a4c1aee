//! The laws on notes and tables, as contracts.

ghost use Rattle.flow_accepted.specs.Tables.{AcceptedIsKinded, AcceptedIsLayered, ProgramsHaveScalarParameters};

/// In a program of the checker the note of a name has the type of its variable's row, that of an element the type of its array's elements,
/// and that of a member the type of its structure's field.
#[tactic(auto, using(crate::proofs::KindedUnits::accepted_is_kinded))]
pub fn accepted_is_kinded()
    ensures { AcceptedIsKinded }
{}

/// In a program of the checker no structure lies in itself, of those that lie in a variable.
#[tactic(auto, using(crate::proofs::Layered::accepted_is_layered))]
pub fn accepted_is_layered()
    ensures { AcceptedIsLayered }
{}

/// And each parameter of a function with a body has a scalar type in its row.
#[tactic(auto, using(crate::proofs::Scalars::programs_have_scalar_parameters))]
pub fn programs_have_scalar_parameters()
    ensures scalar { ProgramsHaveScalarParameters }
{}
