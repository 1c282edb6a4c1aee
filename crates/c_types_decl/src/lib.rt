//! Declarations (C89, 3.5): variables, functions and their parameters, and initialisers (C89, 3.5.7).
#![tactic(auto)]

mod bodies;
pub mod declarations;
mod entities;
pub mod functions;
mod initialisers;
mod lengths;
pub mod names;
mod parameters;
mod rules;
pub mod scopes;
mod signatures;
mod slots;
mod specifiers;
mod values;
pub mod variables;
