//! A mark, as data.

/// A direct definition, its variable, one of its leaf names, and whether that names one cell.
#[derive(Clone, Copy, Debug, PartialEq, Eq)]
pub struct Mark {
    pub def: u16,
    pub variable: u32,
    pub name: u32,
    pub strong: bool,
}
