//! The laws, as contracts.

ghost use Rattle.probe_parsed.specs.Parsed.{InstrumentedIsParsed};
ghost use Rattle.probe_parsed.specs.Readable.{InstrumentedIsReadable, InstrumentedIsShaped, WrittenBare};
ghost use Rattle.probe_parsed.specs.Sizes.{ShortIsWithin};

/// The tokens of a program with its probes can be written and read, where those of the program can and they are within the
/// limits; they are within them where they are few and their text is short.
#[tactic(auto, using(crate::proofs::Readable::instrumented_is_readable, crate::proofs::Sizes::short_is_within))]
pub fn tokens_are_readable()
    ensures readable { InstrumentedIsReadable }
    ensures within { ShortIsWithin }
{}

/// The grammar allows a program with its probes, and it is written alike without its notes.
#[tactic(auto, using(crate::proofs::FirmUnits::instrumented_is_shaped, c_tree::proofs::BareForms::tokens_same))]
pub fn units_are_shaped()
    ensures shaped { InstrumentedIsShaped }
    ensures bare { WrittenBare }
{}

/// The text of a program with its probes gives tokens that are its unit, but for places and notes.
#[tactic(auto, using(crate::proofs::Parsed::instrumented_is_parsed))]
pub fn text_is_parsed()
    ensures { InstrumentedIsParsed }
{}
