//! The tree of a program and the tables that its types and names point into. What speaks of trees is passed on from c_syntax.
#![tactic(auto)]

pub mod complaints;
pub mod meaning;
pub mod program;

pub use c_syntax::{height, sentences, text, token, tree};
