//! The laws on sites by their numbers, as contracts.

ghost use Rattle.flow_parts.specs.Sites.{WalksStandInTheirFunction, DefinitionsAreParts, UsesAreParts, CoveredOutcomesAreListed, CoveredPUsesHaveOutcomes};

/// The definitions and uses of each walk stand in its function, and its outcomes are listed of their decisions.
pub fn walks_stand_in_their_function()
    ensures walks { WalksStandInTheirFunction }
{}

/// Each definition and use of a variable that is declared in a function is one of the program's parts, under the same number
/// and with the numbers of the same leaf names.
pub fn local_sites_are_parts()
    ensures definitions { DefinitionsAreParts }
    ensures uses { UsesAreParts }
{}

/// Of a program with such parts: each outcome that the events of a run cover, by itself and of a p-use, is listed of its decision.
pub fn covered_outcomes_are_listed()
    ensures outcomes { CoveredOutcomesAreListed }
    ensures p_uses { CoveredPUsesHaveOutcomes }
{}
