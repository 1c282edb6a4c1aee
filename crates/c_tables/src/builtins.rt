//! The functions that every program has.

/// The functions that every program has (C89, 4.9.7.6, 4.9.7.9 and 4.10.4.3).
#[derive(Clone, Copy, Debug, PartialEq, Eq)]
pub enum Builtin {
    GetChar,
    PutChar,
    Exit,
}
