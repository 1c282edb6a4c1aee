//! Rows of a flow graph.

use flow_walks::action::Action;

/// A row of a flow graph: its action, and the rows that may come next.
#[derive(Drop)]
pub struct FlowRow {
    pub action: Action,
    pub next: Vec<u32>,
}
