//! The law of copies: what a structure's copy onto another leaves, and when there is none, by what cells read.
#![tactic(auto)]

pub mod laws;
