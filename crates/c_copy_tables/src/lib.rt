//! Copies of the tables of a program: each has the rows of what is copied.
#![tactic(auto)]

mod tables;

pub use tables::copy_tables;
