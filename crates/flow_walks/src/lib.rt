//! Walks: what the runs of a function's body may meet, one after the other, chosen freely over its tree.
#![tactic(auto)]

pub mod action;
