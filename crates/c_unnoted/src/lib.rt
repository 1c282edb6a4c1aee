//! Typing sees no note: what is known of a tree, and what is complained of, doesn't depend on what was noted in it.
#![tactic(auto)]

pub mod laws;
