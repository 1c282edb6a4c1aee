//! Types for every expression, and for the types and structures that hold expressions (C89, 3.3 and 3.5).
#![tactic(auto)]

mod enumerators;
mod fields;
mod groups;
mod infix;
pub mod lengths;
mod lists;
mod members;
pub mod nodes;
mod pairs;
pub mod specifiers;
