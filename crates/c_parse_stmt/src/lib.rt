//! Statements, read from tokens: each function finds what the reader of the grammar finds.
#![tactic(auto)]

pub mod forms;
pub mod stmt;
