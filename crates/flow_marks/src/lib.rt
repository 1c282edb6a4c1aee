//! Rows of a flow graph, and which marks reach which of them.
#![tactic(auto)]

pub mod flow;
pub mod words;
