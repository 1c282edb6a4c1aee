//! Expressions, types and declarations, read from tokens: each function finds what the reader of the grammar finds.
#![tactic(auto)]

pub mod decl;
pub mod expr;
mod init;
mod operand;
pub mod spec;
