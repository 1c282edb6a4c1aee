//! What the steps of a run answer.

use c_meaning::end::Stop;

/// The instance that was made, or why the run stops.
#[derive(Clone, Copy, Drop)]
pub enum Placed {
    At(u64),
    Stopped(Stop),
}

/// What stands round a declared name: no probe; one of that definition site; or one whose number is none.
#[derive(Clone, Copy, Drop)]
pub enum Site {
    Unmarked,
    Marked(u16),
    Unclear,
}
