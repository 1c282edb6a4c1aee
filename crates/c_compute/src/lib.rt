//! What is worked out of types, values and constants while a program runs, and the cells that constant initialisers give
//! (C89, 3.4 and 3.5.7).
#![tactic(auto)]

pub mod constants;
pub mod filing;
mod ints;
pub mod layout;
pub mod objects;
pub mod operators;
mod places;
mod pointers;
mod strings;
mod values;
mod zeros;
