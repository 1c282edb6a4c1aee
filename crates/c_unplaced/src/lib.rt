//! Typing sees no place: what is known of a tree, and what is complained of, doesn't depend on where its tokens stand.
#![tactic(auto)]

pub mod laws;
