/// Where an expression stands: in the function with that number, or 0, and in the expression of the decision with that
/// number, if it is in one.
#[derive(Clone, Copy, Debug, PartialEq, Eq)]
pub struct Around {
    pub function: u32,
    pub owner: Option<u32>,
}

/// What is done with the value of a place: it is read; it is written, to the left of `=` (C89, 3.3.16.1); it is read and
/// written, to the left of another assignment and at `++` and `--`; a structure's cells are copied, to the right of `=`; or
/// its address is taken.
#[derive(Clone, Copy, Debug, PartialEq, Eq)]
pub enum Taken {
    Read,
    Written,
    Changed,
    Copied,
    Addressed,
}
