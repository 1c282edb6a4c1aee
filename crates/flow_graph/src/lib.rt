//! The flow graph of a function: its paths are the function's walks.
#![tactic(auto)]

mod counting;
mod flow;
mod graphs;
mod laying;
mod parameters;
mod programs;

pub use crate::graphs::Graph;
pub use crate::laying::lay_external;
pub use crate::programs::graph;
