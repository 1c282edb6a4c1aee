//! The law on pairs, as a contract.

ghost use Rattle.flow_calls.specs.Pairs.{PairsAreListed};

/// Where each definition and use is in place, and each call is a walk, each pair of direct sites of one local variable that
/// the events make is listed: a walk has both, and neither a making of the variable nor a strong definition between.
pub fn pairs_are_listed()
    ensures law { PairsAreListed }
{}
