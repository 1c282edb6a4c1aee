//! A row of a graph.

use flow_walks::action::Action;

/// What is met at a row: an action, or nothing; the call of the function of that number, which has a body; the body has
/// been left.
#[derive(Clone, Copy, Drop)]
pub enum Step {
    Act(Action),
    Enter(u32),
    Leave,
}

/// What is met, and the rows that may follow.
#[derive(Drop)]
pub struct GraphRow {
    pub met: Step,
    pub next: Vec<u32>,
}
