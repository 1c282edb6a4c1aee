//! How runs end and how statements are left, as data.

use c_store::value::{Fault, Value};
use c_syntax::text::Text;

/// How a run ends: `main` returned a status; `exit` was called with one (C89, 4.10.4.3); a fault was met in the
/// function of that name; no turn was left; too many calls were active; or too many cells would have lived.
#[derive(Drop)]
pub enum End {
    Returned(i32),
    Exited(i32),
    Fault(Fault, Text),
    Turns,
    Depth,
    Room,
}

/// A run: the bytes that it wrote, the turns that it took, and how it ended.
#[derive(Drop)]
pub struct RunEnd {
    pub output: Text,
    pub turns: u64,
    pub end: End,
}

/// Why a run stops before `main` returns.
#[derive(Clone, Copy, PartialEq, Eq, Debug, Drop)]
pub enum Stop {
    Fault(Fault),
    Exited(i32),
    Turns,
    Depth,
    Room,
}

/// How a statement leaves: to what follows it; out of the innermost loop or `switch`; to the loop's next turn; or back to
/// the caller, with a value or without (C89, 3.6.6).
#[derive(Clone, Copy, PartialEq, Eq, Debug, Drop)]
pub enum Flow {
    Next,
    Break,
    Continue,
    Return(Option<Value>),
}
