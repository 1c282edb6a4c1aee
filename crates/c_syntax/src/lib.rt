//! Tokens, syntax trees, their shapes, and the definitions that speak of them.
#![tactic(auto)]

pub mod height;
mod phrases;
pub mod sentences;
pub mod text;
pub mod token;
pub mod tree;
mod words;
mod writer;
