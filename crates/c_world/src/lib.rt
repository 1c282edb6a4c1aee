//! The state of a running program, with the steps that are no expression's.
#![tactic(auto)]

mod answers;
mod names;
pub mod places;
pub mod world;
