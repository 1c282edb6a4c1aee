//! The laws, as contracts.

ghost use Rattle.probe_laws.specs.Laws.{TypedFits, TakenIsPlain, TakenIsFew, ProgramSimulates};
ghost use Rattle.probe_laws.specs.Owning.{ProgramOwns, ProgramOwnsFew};

/// A plain unit in which nothing is complained of is fit; a program that the sites don't refuse is plain and has few items;
/// and, whatever the digest, it does with its probes what it does without them, and logs what it does, and each use probe
/// belongs to the decision of its use.
#[tactic(auto, using(crate::proofs::Laws::typed_fits, crate::proofs::Laws::taken_is_plain, crate::proofs::Laws::taken_is_few, crate::proofs::Laws::program_simulates, crate::proofs::Owners::program_owns, crate::proofs::Owners::program_owns_few))]
pub fn programs_simulate()
    ensures fits { TypedFits }
    ensures plain { TakenIsPlain }
    ensures few { TakenIsFew }
    ensures simulates { ProgramSimulates }
    ensures owns { ProgramOwns }
    ensures owns_few { ProgramOwnsFew }
{}
