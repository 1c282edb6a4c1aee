//! The tables of a program: its structures, functions, variables and string literals, numbered from 1, and the functions
//! that every program has.
#![tactic(auto)]

pub mod builtins;
pub mod tables;
