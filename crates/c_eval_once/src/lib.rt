//! What an expression does without waiting: leaves, operators on values, cells, probes, and built-ins.
#![tactic(auto)]

pub mod at_once;
pub mod builtins;
pub mod cells;
pub mod copying;
pub mod leaf;
pub mod number;
pub mod reply;
pub mod telling;
