//! Traces of a program, fetched and added up.
#![tactic(auto)]

mod fetching;
mod joining;
mod keeping;

pub use fetching::{fetch_any, fetch_old, fetch_trace};
pub use joining::{join, no_runs};
pub use keeping::spelled;
