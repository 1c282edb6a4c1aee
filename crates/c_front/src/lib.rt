//! The front end: a text's tokens, its unit and its program, or its refusal; and the names of refusals.
#![tactic(auto)]

pub mod front;
pub mod names;

pub use front::{FrontRefusal, read};
