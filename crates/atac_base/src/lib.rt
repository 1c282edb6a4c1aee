//! What the outside of a run is told and gives: probes, items, shelves that hold bytes under names, sinks that take bytes. It
//! passes on places, events, owners and facts.
#![tactic(auto)]

pub mod items;
pub mod memory;
pub mod outside;
pub mod probes;
pub mod rows;

pub use atac_facts::{fact, facts};
pub use c_base::{labels, numbers, place};
pub use c_events::{events, owners};
