//! The tokens of a text: cut, directives obeyed, macros replaced, strings joined; and tokens written as a text.
#![tactic(auto)]

mod directive;
mod expand;
mod join;
pub mod laws;
pub mod lexer;
mod line;
mod obey;
mod output;
mod places;
mod scan;
mod table;
pub mod write;

pub use lexer::{TextKind, lex};
pub use scan::LexRefusal;
pub use write::text_of;
