//! The store of a running C program: instances of cells, and the pointers into them.
#![tactic(auto)]

mod instance;
pub mod store;
pub mod value;
