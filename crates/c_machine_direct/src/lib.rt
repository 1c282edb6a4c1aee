//! Statements that are done at once, without frames: those that hold no loop, no `switch` and no declaration, and whose expressions are direct.
#![tactic(auto)]

pub mod forms;
pub mod marks;
pub mod statements;
