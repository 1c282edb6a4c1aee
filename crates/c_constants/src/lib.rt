//! The values that are known before the program runs: the constants of C (C89, 3.1.3 and 3.4), and the meaning of
//! specifier words (C89, 3.5.2) and of the numbers and digests in probes.
#![tactic(auto)]

pub mod constants;
pub mod laws;
pub mod numbers;
pub mod operators;
pub mod places;
pub mod probes;
pub mod words;
