//! The types of C, and what each operator makes of the types of its operands (C89, 3.1.2.5, 3.2 and 3.3).
#![tactic(auto)]

pub mod choosing;
pub mod extent;
pub mod judged;
pub mod kinds;
pub mod laws;
pub mod layout;
pub mod operators;
pub mod single;
pub mod storing;
