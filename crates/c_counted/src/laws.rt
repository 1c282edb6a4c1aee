//! The laws, as contracts.

ghost use Rattle.c_counted.specs.Labels.{LabelsAreNoMore};
ghost use Rattle.c_counted.specs.Places.{ComplaintsAreAtTokens, TokensAreCounted};
ghost use Rattle.c_counted.specs.Sizes.{TablesAreNoLarger};

/// Behind a unit typing has counted as many tokens as the unit has.
#[tactic(auto, using(crate::proofs::Counted::tokens_are_counted))]
pub fn tokens_are_counted()
    ensures { TokensAreCounted }
{}

/// A complaint's place is that of its token: of the one behind as many others as the complaint counts.
#[tactic(auto, using(crate::proofs::Written::complaints_at_tokens))]
pub fn complaints_are_at_tokens()
    ensures { ComplaintsAreAtTokens }
{}

/// The structures with their fields, the functions, the variables and the literals of a unit are together at most as many as its tokens.
#[tactic(auto, using(crate::proofs::AddingUnits::tables_are_no_larger))]
pub fn tables_are_no_larger()
    ensures { TablesAreNoLarger }
{}

/// Each switch has at most as many labels as the unit has tokens.
pub fn labels_are_no_more()
    ensures { LabelsAreNoMore }
{}
