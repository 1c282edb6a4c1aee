//! What waits for the operands of an expression.

use c_meaning::end::Stop;
use c_store::value::{Pointer, Value};
use c_syntax::tree::{CType, Node};

/// A node, and what it waits for.
#[derive(Drop)]
pub struct Frame<'p> {
    pub node: &'p Node,
    pub wait: Wait<'p>,
}

/// What a node waits for: the value of its first operand; as a probe the value in it; the place of its operand; its own
/// place, to be read; the value of its second operand, with that of the first; the truth of its last operand; what is
/// written into that place, as it is or combined with this value of the place; the place of the structure that is copied
/// into that place; the operand that `?:` has chosen; the left side of a comma, whose right side is wanted as a place; an
/// argument, with the types of its parameter and those behind it, the arguments to come, and those that are done.
#[derive(Drop)]
pub enum Wait<'p> {
    Operand,
    Probe,
    Place,
    Read,
    Second(Value),
    Truth,
    Into(Pointer),
    Combine(Pointer, Value),
    Copy(Pointer),
    Chosen,
    Comma,
    Argument(&'p [CType], &'p [Node], Vec<Value>),
}

/// What comes next: a node's value or its place is wanted; a value, or none, or a place is come to.
#[derive(Clone, Copy)]
pub enum Focus<'p> {
    Value(&'p Node),
    Place(&'p Node),
    Given(Option<Value>),
    At(Pointer),
}

/// How a step leaves: there is more to do; the expression's value, or none; a call of the function of that number with
/// its converted arguments; the run stops.
#[derive(Drop)]
pub enum Step {
    More,
    Answer(Option<Value>),
    Call(u32, Vec<Value>),
    Stopped(Stop),
}

/// A node behind its parentheses and probes, or a stop at one of these.
#[derive(Clone, Copy)]
pub enum Passed<'p> {
    Node(&'p Node),
    Stopped(Stop),
}
