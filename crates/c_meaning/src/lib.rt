//! What a program does: the meaning of each part of its tree, and of a whole run.
#![tactic(auto)]

pub mod end;
