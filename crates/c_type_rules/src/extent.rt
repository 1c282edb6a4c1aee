// How much room an object takes.

ghost use Rattle.std.specs.Prelude.{◌*◌, ◌≤◌};

/// The number of bytes of which an address is a multiple (C89, 3.1.2.5).
#[derive(Clone, Copy, Debug, PartialEq, Eq)]
pub enum Align {
    One,
    Two,
    Four,
    Eight,
}

/// The room that an object takes: its bytes (C89, 3.3.3.4), its alignment, and its cells, which are the scalars inside.
#[derive(Clone, Copy, Debug)]
pub struct Layout {
    pub size: u64,
    pub align: Align,
    pub cells: u32,
    ghost few: { cells ≤ 1048576 },
    ghost small: { size ≤ 8 * cells },
}

/// The room of a type; or that the type is incomplete (C89, 3.1.2.5), or that it has more than 1048576 cells.
#[derive(Clone, Copy, Debug)]
pub enum Measured {
    Known(Layout),
    Incomplete,
    TooLarge,
}
