/// Where a function's body stands: the index of its extent, and how many variables of the program are declared before it.
#[derive(Clone, Copy, Drop)]
pub struct Start {
    pub at: u32,
    pub before: u32,
}
