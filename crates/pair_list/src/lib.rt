//! The pairs of a definition and a use, and the items of a program.
#![tactic(auto)]

mod externals;
mod filling;
mod hits;
mod kinds;
mod listing;
mod lookup;
mod mark_lists;
mod marks;
mod masks;
pub mod pairs;
mod passes;
mod push;
mod reached;
mod rows;
pub mod runs;
mod spans;
mod strength;
mod tables;

pub use crate::listing::list;
