//! The law of the order of items: they are those of a program's parts, in preorder and in the order of the text, each part told by its role.
#![tactic(auto)]

pub mod laws;
