//! The facts of a run have numbers that a trace may have.
#![tactic(auto)]

pub mod laws;
