//! The laws, as contracts.

ghost use Rattle.flow_owned.specs.Laws.{ProgramsOwnTheirNames, ProgramsHaveApartFields};

/// In each program of the checker, each name of a variable in a function's body is that of the variable's row.
#[tactic(auto, using(crate::proofs::Programs::programs_own_their_names))]
pub fn programs_own_their_names()
    ensures own { ProgramsOwnTheirNames }
{}

/// In each program of the checker the fields of a structure have different names, and neither `.` nor `[` stands in one.
pub fn programs_have_apart_fields()
    ensures apart { ProgramsHaveApartFields }
{}
