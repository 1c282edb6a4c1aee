//! The program and the inputs that `self` draws from a seed, and the summary of their runs.
#![tactic(auto)]

mod bodies;
mod draws;
mod generating;
mod made;
mod telling;
#[cfg(test)]
mod tests;

pub use generating::generated;
pub use made::Generated;
pub use telling::summary;
