//! Names and what they stand for, in the scopes that are open (C89, 3.1.2.1).
#![tactic(auto)]

pub mod laws;
pub mod names;
pub mod scopes;
