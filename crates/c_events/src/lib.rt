//! The events of a run, and the owners of use probes, as data.
#![tactic(auto)]

pub mod events;
pub mod owners;
