//! Places in a text, the integer types, and the want of memory.

use std::alloc::{AllocError, AllocFailed};

/// A place in a text. Both numbers count from 1; a column counts bytes.
#[derive(Clone, Copy, Debug, PartialEq, Eq)]
pub struct Pos {
    pub line: u32,
    pub col: u32,
}

/// The integer types (C89, 3.1.2.5): char has 8 bits, short 16, int 32 and long 64.
#[derive(Clone, Copy, Debug, PartialEq, Eq)]
pub enum IntKind {
    Char,
    Short,
    Int,
    Long,
    UChar,
    UShort,
    UInt,
    ULong,
}

/// Memory was wanted and not found.
#[derive(Clone, Copy, Debug, PartialEq, Eq)]
pub struct NoMemory;

impl From<AllocError> for NoMemory {
    fn from(_: AllocError) -> NoMemory {
        NoMemory
    }
}

impl<T: Drop> From<AllocFailed<T>> for NoMemory {
    fn from(_: AllocFailed<T>) -> NoMemory {
        NoMemory
    }
}
