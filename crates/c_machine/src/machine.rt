//! A call of a function, as far as it has come.

mod beginning;
mod calling;
mod choosing;
mod declaring;
mod leaving;
mod listing;
mod looping;
mod returning;
mod stepping;
mod turning;

use crate::parts::{Active, Use, Waiting};
use crate::running::Ended;
use c_eval::frame::Frame;
use c_eval::work::Work;
use c_meaning::end::Stop;

/// A call of a function, as far as it has come, with what waits for statements to leave, the last one on top; stacks that are
/// done with, for the expressions of the next calls; and how the run has ended, once a step says that it has.
#[derive(Drop)]
pub struct Machine<'p> {
    pub function: u32,
    pub active: Active<'p>,
    pub work: Work<'p>,
    pub used: Use<'p>,
    pub waiting: Vec<Waiting<'p>>,
    pub spare: Vec<Vec<Frame<'p>>>,
    pub ended: Ended,
}

/// How a run begins: a machine runs, or the run stops.
#[derive(Drop)]
pub enum Begun<'p> {
    Running(Machine<'p>),
    Stopped(Stop),
}
