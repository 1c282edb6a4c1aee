//! What names stand for, and what is complained of.
use c_base::place::Pos;
use c_tables::builtins::Builtin;

/// What an ordinary name stands for (C89, 3.1.2.1): a variable or a function, by its number; a parameter while its list
/// is read, by its number in the list, counted from 1; a built-in function; an enumeration constant, by its value; or
/// what has no type, since a complaint stands in its declaration.
#[derive(Clone, Copy, Debug, PartialEq, Eq)]
pub enum Entity {
    Variable(u32),
    Parameter(u32),
    Function(u32),
    Builtin(Builtin),
    Constant(i32),
    Unknown,
}

/// What a tag stands for (C89, 3.5.2.3): a structure, by its number, or an enumeration.
#[derive(Clone, Copy, Debug, PartialEq, Eq)]
pub enum Tag {
    Structure(u32),
    Enumeration,
}

/// Where an expression stands in an assignment by `=`, parentheses and probes round places looked through: it is its left
/// side, or its right one where the left one is a structure; or it is neither.
#[derive(Clone, Copy, Debug, PartialEq, Eq)]
pub enum Side {
    Neither,
    Left,
    Right,
}

/// A complaint: the number of its token, counted from 0; its own number; and the token's place.
#[derive(Clone, Copy, Debug, PartialEq, Eq)]
pub struct Complaint {
    pub token: u32,
    pub number: u8,
    pub pos: Pos,
}
