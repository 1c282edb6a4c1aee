//! The rows to which a part of a function leads.

/// Behind an expression's value; or, at the test position of the decision of that number, where it is true and where it
/// is false.
#[derive(Clone, Copy, Drop)]
pub enum To {
    Value(u32),
    Test(u16, u32, u32),
}

/// Behind a statement: behind its end, behind a `break`, behind a `continue`, and behind a `return`.
#[derive(Clone, Copy, Drop)]
pub struct Targets {
    pub next: u32,
    pub broken: u32,
    pub continued: u32,
    pub returned: u32,
}
