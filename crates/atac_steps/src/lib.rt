//! The steps of a command that reach the outside: each fetch, put and keep, why a command stops, and the status of a call.
#![tactic(auto)]

mod outside;
mod status;
mod stop;

pub use outside::{fetch, keep, put};
pub use status::Status;
pub use stop::{Stop, TraceFault};
