//! The law, as a contract.

ghost use Rattle.c_unplaced_runs.specs.Runs.{RunsSeeNoPlace};

/// Programs that are equal but for places print, end, fault and log alike on each input, in as many turns.
#[tactic(auto, using(crate::proofs::Runs::runs_see_no_place))]
pub fn runs_see_no_place()
    ensures { RunsSeeNoPlace }
{}
