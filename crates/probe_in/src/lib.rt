//! A checked program with its probes put in: `instrument`.
#![tactic(auto)]

mod build;
mod declarations;
mod defining;
mod program;
mod statements;
mod unit;

pub use program::instrument;
