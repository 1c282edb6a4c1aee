//! Expressions, evaluated step by step on a stack of what waits for their operands.
#![tactic(auto)]

pub mod advance;
pub mod frame;
pub mod work;
