//! Whole expressions whose value is taken at once, without frames: those that hold no call, cast, field, `?:` or comma.
#![tactic(auto)]

pub mod direct;
pub mod forms;
mod parts;
mod values;
