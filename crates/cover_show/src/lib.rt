//! The text of a source with its uncovered items.
#![tactic(auto)]

mod missed;
mod showing;

pub use showing::show;
