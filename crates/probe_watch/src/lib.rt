//! Watchers: they see the events of a run and say a text of them. A list of the events, how often each block was entered, and
//! the call that lets one of several watchers see the runs of a program.
#![tactic(auto)]

mod counter;
mod feeding;
mod lines;
mod lister;
#[cfg(test)]
mod tests;
mod told;
mod watcher;

pub use counter::BlockCounter;
pub use feeding::{FeedRefusal, feed};
pub use lister::EventLister;
pub use watcher::Watcher;
