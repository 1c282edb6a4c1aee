//! Laws of runs of the programs that the checker accepts: they are orderly, and their notes, layers and parameters are as is asked of them, so
//! that calls are walks and covered pairs are listed.
#![tactic(auto)]

pub mod laws;
pub mod orderly;
pub mod tables;
