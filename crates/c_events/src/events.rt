//! Cells of objects, and what a run tells of them, as data.

/// A cell of an object: the number of the object's instance, and the cell's index in it, from 0.
#[derive(Clone, Copy, Debug, PartialEq, Eq)]
pub struct Cell {
    pub instance: u64,
    pub index: u32,
}

/// What a run tells: a block is entered; a definition site writes a cell; a use site reads a cell in an
/// activation; a decision ends with an outcome in an activation. Sites are numbered from 1.
#[derive(Clone, Copy, Debug, PartialEq, Eq)]
pub enum Event {
    Block(u16),
    Def(u16, Cell),
    Use(u16, Cell, u64),
    Test(u16, u32, u64),
}
