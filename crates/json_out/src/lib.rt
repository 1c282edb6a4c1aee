//! Items as JSON, with which of them facts cover.
#![tactic(auto)]

mod members;
mod rows;
mod text;
mod whole;

pub use text::json_text;
