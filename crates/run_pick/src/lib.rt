//! Which runs are kept of some, so that the others cover no item besides.
#![tactic(auto)]

mod lines;
mod marking;
mod picks;
mod sets;

pub use lines::pick_text;
pub use picks::{Picks, pick};
pub use sets::joined;
