//! Copies of trees: each has the shape of what is copied.
#![tactic(auto)]

pub mod build;
pub mod labels;
pub mod parts;
pub mod tree;
