//! What the checker does at one operator, name, call, probe, bracket, tag, field and enumerator.
#![tactic(auto)]

pub mod calls;
pub mod checker;
mod functions;
mod members;
mod names;
mod operators;
pub mod probes;
mod rows;
pub mod ruling;
mod selects;
pub mod sides;
pub mod sort;
