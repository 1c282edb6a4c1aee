//! The two passes of typing agree: a unit of which nothing is complained in the second pass is typed alike in the first one.
#![tactic(auto)]

pub mod laws;
