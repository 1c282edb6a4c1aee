//! Elements, fields and structures: where they lie in their variables, what their cells are called, and that those in local variables are
//! sites that may be told of by their leaf names.
#![tactic(auto)]

pub mod elements;
pub mod sites;
