//! Laws of the written text of a program with its probes: it is read as that program, up to the check of types.
#![tactic(auto)]

pub mod laws;
