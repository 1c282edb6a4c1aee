//! Expressions with their probes: each probe has the number that what it stands round has in the walk over the program.
#![tactic(auto)]

mod marks;
pub mod names;
pub mod nodes;
pub mod numbers;
mod selects;
mod stating;
