//! The laws that rest on initialisers, as contracts.

ghost use Rattle.flow_accepted.specs.Orderly.{AcceptedIsOrderly, AcceptedCallsWalk, AcceptedCallsLeave};

/// A program of the checker that isn't refused is orderly, where each string and list that initialises a local variable
/// gives it a value, and no other expression initialises one that is no scalar; so what each call of a run did by itself
/// is a walk of its function.
#[tactic(auto, using(crate::proofs::OrderlyPrograms::accepted_is_orderly))]
pub fn initialised_is_orderly()
    ensures orderly { AcceptedIsOrderly }
    ensures walks { AcceptedCallsWalk }
    ensures leaves { AcceptedCallsLeave }
{}
