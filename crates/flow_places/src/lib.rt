//! The law that each definition and use of a run is in place: in the instance of its variable that its own call made last.
#![tactic(auto)]

pub mod places;
