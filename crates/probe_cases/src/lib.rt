//! The constants that a select probe holds: each is typed as the integer that it spells, and those of a switch differ.
#![tactic(auto)]

pub mod laws;
