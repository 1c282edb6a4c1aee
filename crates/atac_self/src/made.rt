//! A program with its inputs, as data.

/// A program's text, and inputs for it.
#[derive(Drop)]
pub struct Generated {
    pub program: Vec<u8>,
    pub inputs: Vec<Vec<u8>>,
}
