//! What names stand for, the same behind each expression and each call.
#![tactic(auto)]

pub mod laws;
