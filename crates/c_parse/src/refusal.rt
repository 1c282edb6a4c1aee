//! Why there is no unit.

use c_base::place::Pos;

/// Why tokens are no unit: the place of the first token that begins no external declaration, or want of memory.
#[derive(Clone, Copy, Debug, PartialEq, Eq)]
pub enum ParseRefusal {
    Syntax(Pos),
    NoMemory,
}
