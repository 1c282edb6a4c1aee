//! What a run covers, kept as it goes: the facts of its events, and no event.
#![tactic(auto)]

pub mod collector;
pub mod noted;
