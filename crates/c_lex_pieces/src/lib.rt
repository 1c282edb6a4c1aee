//! The piece that stands at the front of a text, and the token that it spells (C89, 3.1).
#![tactic(auto)]

pub mod bytes;
pub mod front;
pub mod kinds;
mod marks;
mod numbers;
pub mod quotes;
