//! A whole run of a program: statements and calls, step by step on a stack of what waits for them to leave.
#![tactic(auto)]

mod entry;
mod first;
mod initial;
mod machine;
mod parts;
mod running;

pub use running::{Ended, run};
