//! The laws that each name of a variable is the variable's own, and that the fields of a structure have names of their own.
#![tactic(auto)]

pub mod laws;
