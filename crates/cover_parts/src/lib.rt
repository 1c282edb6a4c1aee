//! What a run covers, kept as it goes: rows of words for instances, pairs that wait, and facts that are noted all at once.
#![tactic(auto)]

pub mod pending;
pub mod rows;
pub mod settle;
