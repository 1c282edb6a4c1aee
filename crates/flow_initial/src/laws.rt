//! The laws, as contracts.

ghost use Rattle.flow_initial.specs.Lengths.{ArraysAreFilled};
ghost use Rattle.flow_initial.specs.Values.{BeginningsGiveValues};

/// A string that initialises an array of at least one element gives some cell a value, and so does a list whose first item does.
#[tactic(auto, using(crate::proofs::Beginnings::beginnings_give_values))]
pub fn beginnings_give_values()
    ensures { BeginningsGiveValues }
{}

/// Each array among the variables and the fields of a unit has an element.
#[tactic(auto, using(crate::proofs::Arrays::arrays_are_filled))]
pub fn arrays_are_filled()
    ensures { ArraysAreFilled }
{}
