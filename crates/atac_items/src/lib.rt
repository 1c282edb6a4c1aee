//! The laws that the facts of a program's items fit their types, and that so no text of them tells tests apart that agree on such facts.
#![tactic(auto)]

pub mod laws;
