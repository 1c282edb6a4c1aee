/// How many statements stand in a statement, itself too, and how many variables it declares.
#[derive(Clone, Copy, Drop)]
pub struct Extent {
    pub statements: u32,
    pub variables: u32,
}
