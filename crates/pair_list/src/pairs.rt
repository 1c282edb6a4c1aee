//! A pair of a definition and a use, as data.

/// A pair of a definition and a use, by their numbers.
#[derive(Clone, Copy, Debug, PartialEq, Eq)]
pub struct Pair {
    pub def: u16,
    pub used: u16,
}

/// Why there is no list: c-uses and p-uses are more than 1,000,000 items, which is refusal 51; or there is no memory.
#[derive(Clone, Copy, Debug, PartialEq, Eq)]
pub enum ListRefusal {
    TooManyPairs,
    NoMemory,
}
