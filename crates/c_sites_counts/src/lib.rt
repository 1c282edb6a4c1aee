//! How many blocks, decisions, definitions and uses a program has, by numbers alone: leaf names are counted and not made.
#![tactic(auto)]

pub mod counting;

pub use counting::{SiteCounts, count};
