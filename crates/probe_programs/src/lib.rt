//! Declarations, statements and units with their probes are typed as they stand, so a program with its probes is a program of the checker.
#![tactic(auto)]

pub mod laws;
