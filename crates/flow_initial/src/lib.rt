//! What the initialisers of a program give: values for the cells of their variables, which have at least one.
#![tactic(auto)]

pub mod laws;
