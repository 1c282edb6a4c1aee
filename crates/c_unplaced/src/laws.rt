//! The law, as a contract.

ghost use Rattle.c_unplaced.specs.Unplaced.{TypingSeesNoPlace};

/// A unit without its places is typed as the unit is, and is complained of alike, but for places.
#[tactic(auto, using(crate::proofs::Units::unit_typed))]
pub fn typing_sees_no_place()
    ensures { TypingSeesNoPlace }
{}
