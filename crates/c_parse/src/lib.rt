//! The parser: tokens into the one unit that is written by them, or the place where there is none (proofs/UnitWhole).
#![tactic(auto)]

mod refusal;
mod unit;

pub use refusal::ParseRefusal;
pub use unit::parse;
