//! A tree can be placed on tokens of its kinds, and stays what it is but for its places.
#![tactic(auto)]

pub mod laws;
