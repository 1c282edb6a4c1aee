//! Expressions with their probes are typed as they stand.
#![tactic(auto)]

pub mod laws;
