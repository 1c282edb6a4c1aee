//! Statements, functions and units: what is typed, and what is complained of (C89, 3.6 and 3.7).
#![tactic(auto)]

mod checking;
mod expressions;
mod externals;
mod functions;
mod jumps;
mod labels;
mod statements;
mod units;

pub use checking::{TypeRefusal, check};
