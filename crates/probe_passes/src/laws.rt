//! The law, as a contract.

ghost use Rattle.probe_passes.specs.Passes.{PassesAgree};

/// A unit of which nothing is complained, where a call is one of a function with a body, is typed alike where each call is allowed.
#[tactic(auto, using(crate::proofs::Units::passes_agree))]
pub fn passes_agree()
    ensures { PassesAgree }
{}
