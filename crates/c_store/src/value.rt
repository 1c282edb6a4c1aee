/// A pointer: to the element `index` of an array of `length` elements, each of `size` cells, that begins at the cell `base` of an instance.
#[derive(Clone, Copy, PartialEq, Eq, Debug, Drop)]
pub struct Pointer {
    pub instance: u64,
    pub base: u32,
    pub length: u32,
    pub size: u32,
    pub index: u32,
}

/// What a cell holds.
#[derive(Clone, Copy, PartialEq, Eq, Debug, Drop)]
pub enum Value {
    Int(i128),
    Null,
    At(Pointer),
}

/// Why no instance was made: too many cells would live, or there is no memory.
#[derive(Clone, Copy, PartialEq, Eq, Debug, Drop)]
pub enum MakeErr {
    Room,
    NoMemory,
}

/// Why an operation has no result.
#[derive(Clone, Copy, PartialEq, Eq, Debug, Drop)]
pub enum Fault {
    DivideByZero,
    Overflow,
    ShiftCount,
    Null,
    Dangling,
    OutOfBounds,
    Uninitialised,
    OtherArray,
    WriteLiteral,
    NoResult,
}

/// The comparisons.
#[derive(Clone, Copy, PartialEq, Eq, Debug, Drop)]
pub enum Order {
    Lt,
    Gt,
    Le,
    Ge,
    Eq,
    Ne,
}
