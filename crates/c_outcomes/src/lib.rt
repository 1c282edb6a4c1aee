//! The law that the outcomes of a program's decisions are no more than its tokens.
#![tactic(auto)]

pub mod laws;
