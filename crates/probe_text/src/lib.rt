//! The text of a program with its probes, within the limits of what is read back.
#![tactic(auto)]

mod text;

pub use text::{TextRefusal, probed_text};
