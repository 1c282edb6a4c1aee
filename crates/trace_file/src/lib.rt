//! The trace file: a program's digest, how many runs there were, and how many of them met each fact.
#![tactic(auto)]

mod kind;
mod reading;
mod refusal;
mod rows;
mod sums;
mod trace;
mod writing;

pub use reading::decode;
pub use refusal::{DecodeRefusal, EncodeRefusal};
pub use rows::Rows;
pub use sums::{add_run, add_tally, add_trace, facts_tally};
pub use trace::Trace;
pub use writing::encode;
