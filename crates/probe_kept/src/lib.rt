//! The laws that the written text of a program with its probes reads back, in one way, and runs as the program.
#![tactic(auto)]

pub mod laws;
