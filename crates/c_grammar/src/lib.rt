//! The grammar of expressions, types and declarations: the reader as a plain function on lists (specs/Reader), proved
//! to find each part that the grammar allows and no other one (proofs/Sound, Complete), and the functions that the
//! parser stands on: looking at tokens, the levels of operators, the making of nodes.
#![tactic(auto)]

pub mod allow;
pub mod build;
pub mod levels;
pub mod look;
pub mod nodes;
pub mod size;
pub mod stars;
