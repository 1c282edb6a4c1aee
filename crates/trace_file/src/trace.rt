//! A trace, as data.

use crate::rows::Rows;

/// What is known of the runs of a program.
#[derive(Drop)]
pub struct Trace {
    /// The SHA-256 of the program's text.
    pub digest: [u8; 32],
    /// How many runs there were.
    pub runs: u32,
    /// How many of them said of each fact only that it was met in one of several runs.
    pub old_runs: u32,
    /// The facts, and in how many runs each was met.
    pub tally: Rows,
}
