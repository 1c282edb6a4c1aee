//! The top call: reads the words, has the command carried out, and tells why it stopped.
#![tactic(auto)]

pub mod top;

pub use atac_steps::Status;
