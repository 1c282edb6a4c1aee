//! The text that `instrument` keeps, as the other commands read it: it runs as the program that it was made of.
#![tactic(auto)]

pub mod laws;
