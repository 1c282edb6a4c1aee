//! What waits for a statement to leave, and what comes next.

ghost use Rattle.std.specs.Prelude.{◌≡◌, true};
ghost use Rattle.c_machine_direct.specs.Forms.{is_direct_loop};

use c_eval::frame::Frame;
use c_meaning::end::{Flow, Stop};
use c_plan::block::Block;
use c_plan::placed::Placed;
use c_plan::sequence::Sequence;
use c_syntax::tree::{Named, Node};

/// What the value of an expression chooses in its statement: of an `if`; the next turn of a loop, or none; the next turn
/// whatever it is, as the first or the last part of a `for`; of a `switch`.
#[derive(Clone, Copy, Drop)]
pub enum Purpose {
    Choose,
    Test,
    Again,
    Switch,
}

/// What an expression's value is for: nothing; the result of a function; a choice in a statement; the initial value of a
/// variable, with its instance, its number and its declared name.
#[derive(Clone, Copy, Drop)]
pub enum Use<'p> {
    Discard,
    Return,
    Stmt(Purpose, Placed<'p>),
    Init(u64, u32, &'p Option<Named>),
}

/// How a declarator leaves: it is done; the run stops; or the value of its initialiser is wanted.
#[derive(Clone, Copy, Drop)]
pub enum Declared<'p> {
    Done,
    Stopped(Stop),
    Value(&'p Node, Use<'p>),
}

/// What waits for a statement to leave: the rest of a list of statements; a loop, round its body; a scope, to be ended; a
/// `switch`, to be left; declarators, declarations and statements, behind a declarator; a caller, with the number of the
/// function that it called, and what waits in its expression for the result.
#[derive(Drop)]
pub enum Waiting<'p> {
    Rest(Sequence<'p>),
    Loop(Placed<'p>),
    Scope,
    Switch,
    Names(Block<'p>),
    Caller(u32, Vec<Frame<'p>>, Use<'p>),
}

/// A loop whose test, step and body are done at once, at each of its turns.
#[derive(Clone, Copy, Drop)]
pub struct Turning<'p> {
    pub placed: Placed<'p>,
    ghost direct: { is_direct_loop placed.stmt.now.form ≡ true },
}

/// What comes next: a statement is begun; one was left; the body of such a loop was left, for its next turn; an expression is
/// evaluated.
#[derive(Clone, Copy, Drop)]
pub enum Active<'p> {
    Open(Placed<'p>),
    Left(Flow),
    Turn(Turning<'p>),
    Busy,
}

/// How a step leaves: there is more to do, or the run has ended, as the machine then says.
#[derive(Clone, Copy, Drop)]
pub enum Step {
    More,
    Ended,
}
