//! The words of a call: which command they are, with its operands, or none.
#![tactic(auto)]

mod words;

pub use words::{Asked, View, read_words};
