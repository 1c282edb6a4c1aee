//! A run sees no place: what a program does doesn't depend on where its tokens stand.
#![tactic(auto)]

pub mod laws;
