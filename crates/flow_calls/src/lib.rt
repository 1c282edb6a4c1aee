//! Laws of runs: each call of a run is a walk of its function, and a pair of direct sites of one local variable that the run makes is one that
//! such a walk has.
#![tactic(auto)]

pub mod calls;
pub mod misses;
