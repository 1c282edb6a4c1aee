//! The laws, as contracts.

ghost use Rattle.flow_places.specs.Laws.{RunsAreInPlace, RunPairsAreListed};

/// In each run, whatever it reads and wherever it stops, each definition and use of a local variable is in place; so each
/// pair of such sites of one variable that the events make is listed.
#[tactic(auto, using(crate::proofs::Laws::runs_are_in_place))]
pub fn runs_are_in_place()
    ensures places { RunsAreInPlace }
    ensures pairs { RunPairsAreListed }
{}
