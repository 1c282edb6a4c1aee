//! Which of 64 marks have a name or a variable, as data.

/// What marks are looked up by.
#[derive(Clone, Copy, Debug, PartialEq, Eq)]
pub enum By {
    Name,
    Variable,
}

/// Words with a bit for each of 64 marks: one for each name, one for each variable, both from a low one on, and one of the marks that name one cell.
#[derive(Drop)]
pub struct Tables {
    pub low_name: u32,
    pub names: Vec<u64>,
    pub low_variable: u32,
    pub variables: Vec<u64>,
    pub strong: u64,
}
