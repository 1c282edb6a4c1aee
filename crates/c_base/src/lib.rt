//! Places, integer types, the want of memory, and the small lists: what every crate speaks of.
#![tactic(auto)]

pub mod labels;
pub mod numbers;
pub mod place;
