//! What is counted in a program, as data.

use c_base::place::Pos;
use c_syntax::tree::CType;

/// A direct place: a variable, a field of a direct place, or an element of a direct place that is an array. It has the
/// variable's number, its own name, which is the variable's with each field as `.f` and each index as `[]`, and its type.
#[derive(Drop)]
pub struct Direct {
    pub variable: u32,
    pub name: Vec<u8>,
    pub kind: CType,
}

/// What a decision may come to: true or false, one of the two alone, or one of these case constants or none of them.
#[derive(Drop)]
pub enum Outcomes {
    Both,
    OnlyTrue,
    OnlyFalse,
    Cases(Vec<i128>),
}

/// What is counted in a program, with the place of its first token. A site has the number of the function that it stands
/// in, or 0, and its place, if it is direct; a use has the number of the decision whose expression holds it, the innermost
/// one, if there is one.
#[derive(Drop)]
pub enum Item {
    Block(Pos),
    Decision(Pos, Outcomes),
    Def(Pos, u32, Option<Direct>),
    Used(Pos, u32, Option<Direct>, Option<u32>),
}
