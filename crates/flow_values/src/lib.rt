//! Initialisers of local variables give them values, in programs of the checker: in functions' bodies, whose walk counts the rows that
//! typing adds, and where constants have values, as they do once the objects of file scope are made.
#![tactic(auto)]

pub mod bodies;
pub mod constants;
