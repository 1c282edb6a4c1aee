//! The laws, as contracts.

ghost use Rattle.c_placing.specs.Placing.{PlacedHasKinds, PlacedIsShaped, UnitIsPlaced};
ghost use Rattle.c_placing.specs.Unplaced.{PlacedIsEqual};

/// Each unit can be placed on tokens of the kinds that it is written with; the grammar allows it there, where it allows it at
/// all; it is the unit but for its places; and the tokens that a unit stands on have the kinds that it is written with.
#[tactic(auto, using(crate::proofs::Placing::unit_is_placed, crate::proofs::PlacedShaped::placed_is_shaped, crate::proofs::PlacedEqual::placed_is_equal, crate::proofs::Written::placed_kinds))]
pub fn units_are_placed()
    ensures placed { UnitIsPlaced }
    ensures shaped { PlacedIsShaped }
    ensures equal { PlacedIsEqual }
    ensures kinds { PlacedHasKinds }
{}
