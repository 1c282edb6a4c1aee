//! The law, as a contract.

ghost use Rattle.c_outcomes.specs.Outcomes.{OutcomesAreFew};

/// No outcome of a decision has a number above that of the unit's tokens: a test has two, and a switch one for each of its case
/// constants (C89, 3.6.4.2) and one more.
#[tactic(auto, using(crate::proofs::Within::outcomes_are_few))]
pub fn outcomes_are_few()
    ensures { OutcomesAreFew }
{}
