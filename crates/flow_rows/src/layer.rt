//! What lays a function.

use crate::numbers::Numbers;
use crate::rows::Rows;

/// The rows so far, and what is numbered so far.
#[derive(Drop)]
pub struct Layer {
    pub rows: Rows,
    pub numbers: Numbers,
}
