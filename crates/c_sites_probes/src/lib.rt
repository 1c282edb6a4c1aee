//! The probes of a text: the first one, and to which decision each use probe belongs.
#![tactic(auto)]

pub mod marked;
mod owned;
pub mod owners;
