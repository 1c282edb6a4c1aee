//! The law that the pairs which a run makes and covers between local variables, elements, fields and copied structures among them, are listed;
//! and by the numbers of the list of sites: what a walk meets stands in its function, and sites of local variables are these.
#![tactic(auto)]

pub mod parts;
pub mod sited;
