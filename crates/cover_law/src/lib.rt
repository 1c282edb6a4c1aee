//! What a list of events covers, as a test, and the law that it is what is covered by positions.
#![tactic(auto)]

pub mod laws;
