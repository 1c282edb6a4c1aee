//! A program without its probes: `erase_probes`.
#![tactic(auto)]

mod build;
mod names;
mod program;
mod statements;
mod tree;
mod unit;

pub use program::erase_probes;
