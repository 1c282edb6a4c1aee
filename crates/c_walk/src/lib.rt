//! The items of a program: its blocks, decisions, definitions and uses, in the order of its tree.
#![tactic(auto)]

pub mod around;
pub mod items;
pub mod outcomes;
pub mod places;
mod stating;
pub mod taken;
pub mod tests;
pub mod units;
mod walker;
mod walking;
