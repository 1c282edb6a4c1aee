//! The laws of runs, as contracts.

ghost use Rattle.flow_accepted.specs.Laws.{TakenIsOrderly, TakenHasParts, TakenCallsWalk, TakenCallsLeave, TakenPairsAreListed, TakenPUsesAreListed};

/// A program of the checker that isn't refused is orderly; and its notes, names, types and parameters are as what is proved of
/// its local variables asks.
pub fn accepted_is_orderly()
    ensures orderly { TakenIsOrderly }
    ensures parts { TakenHasParts }
{}

/// So what each call of a run did by itself is a walk of its function.
pub fn accepted_calls_are_walks()
    ensures walks { TakenCallsWalk }
    ensures leaves { TakenCallsLeave }
{}

/// And each pair, and the pair of each p-use, that the events of a run cover between a definition and a use of one local
/// variable or parameter is listed.
pub fn accepted_pairs_are_listed()
    ensures pairs { TakenPairsAreListed }
    ensures p_uses { TakenPUsesAreListed }
{}
