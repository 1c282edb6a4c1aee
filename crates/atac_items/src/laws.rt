//! The laws, as contracts.

ghost use Rattle.atac_items.specs.Fitting.{TestsHaveOneText, CountsHaveOneText};
ghost use Rattle.atac_items.specs.Programs.{ItemsOfProgramsFit};

/// The numbers of the facts of an accepted program's items have 16 bits, and those of outcomes 32.
pub fn items_of_programs_fit()
    ensures { ItemsOfProgramsFit }
{}

/// Tests that agree on such facts make one report, one marked source and one JSON of such items; and counts one text of hits.
#[tactic(auto, using(crate::proofs::Texts::tests_have_one_text, crate::proofs::Texts::counts_have_one_text))]
pub fn texts_are_one()
    ensures tests { TestsHaveOneText }
    ensures counts { CountsHaveOneText }
{}
