//! The laws, as contracts.

ghost use Rattle.c_unnoted.specs.Unnoted.{TypedIsWritten, TypingSeesNoNote, UnnotedUnits};

/// A unit without its notes is typed as the unit is, and is complained of alike.
#[tactic(auto, using(crate::proofs::Units::unit_typed))]
pub fn typing_sees_no_note()
    ensures { TypingSeesNoNote }
{}

/// It has the functions with bodies and the complaints of the unit, and its types, where the unit has no notes but those that typing writes.
#[tactic(auto, using(crate::proofs::Units::units_unnoted))]
pub fn unnoted_units()
    ensures { UnnotedUnits }
{}

/// A unit without notes, typed, has those that typing writes, and no others.
#[tactic(auto, using(crate::proofs::Units::typed_written))]
pub fn typed_is_written()
    ensures { TypedIsWritten }
{}
