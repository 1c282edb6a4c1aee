//! What each command does, in which order: it fetches the files, does what is asked for, and puts and keeps what comes of it.
#![tactic(auto)]

mod commands;
mod covering;
mod picking;
mod recording;
mod telling;
mod watching;

pub use commands::carry_out;
