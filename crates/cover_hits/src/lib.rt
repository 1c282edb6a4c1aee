//! The text of how many runs met each item.
#![tactic(auto)]

mod counting;

pub use counting::hits;
