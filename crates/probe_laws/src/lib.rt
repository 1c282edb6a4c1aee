//! Laws of programs with probes: every program of the checker does what it does with its probes.
#![tactic(auto)]

pub mod programs;
