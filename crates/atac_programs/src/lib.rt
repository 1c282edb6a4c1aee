//! Programs as the commands want them, from their texts on: checked, listed, with probes, run, or run into a trace; and the
//! section of a run.
#![tactic(auto)]

pub mod checking;
pub mod counting;
pub mod listing;
pub mod probing;
pub mod program;
pub mod recordable;
pub mod sections;
