//! Rows of items.

use c_base::labels::OutcomeLabel;
use c_base::place::Pos;

/// An outcome of a decision, both by their numbers, with the decision's place and the outcome's label.
#[derive(Clone, Copy, Debug, PartialEq, Eq)]
pub struct OutcomeRow {
    pub decision: u16,
    pub outcome: u32,
    pub pos: Pos,
    pub label: OutcomeLabel,
}

/// A definition and a use, by their numbers and places, and the index of the leaf name of the use, counted from 0.
#[derive(Clone, Copy, Debug, PartialEq, Eq)]
pub struct PairRow {
    pub def: u16,
    pub def_pos: Pos,
    pub user: u16,
    pub use_pos: Pos,
    pub name: u32,
}

/// A pair whose use belongs to a decision, with one of the decision's outcomes.
#[derive(Clone, Copy, Debug, PartialEq, Eq)]
pub struct PUseRow {
    pub pair: PairRow,
    pub outcome: u32,
    pub label: OutcomeLabel,
}
