//! The laws, as contracts.

ghost use Rattle.cover_sound.specs.Sound.{LogsAreTold, CoveredFactsAreSound};

/// What a run logs has numbers of 1 to 16,383, and outcomes of 1 and more; and so have the facts that such events cover.
#[tactic(auto, using(crate::proofs::Logs::logs_are_told, crate::proofs::Facts::covered_facts_are_sound))]
pub fn facts_of_runs_are_sound()
    ensures logs { LogsAreTold }
    ensures covered { CoveredFactsAreSound }
{}
