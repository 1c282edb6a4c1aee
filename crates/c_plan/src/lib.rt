//! What is known of a program before its run: its functions by their numbers, how many variables its parts declare, and where the
//! parts of statements stand.
#![tactic(auto)]

pub mod block;
pub mod counts;
mod extent;
mod listing;
mod names;
pub mod placed;
pub mod plan;
pub mod routines;
pub mod sequence;
mod start;
