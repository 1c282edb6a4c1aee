//! The pieces of a directive's line.

ghost use Rattle.std.specs.Prelude.{◌≡◌, ◌≤◌, [], ◌∷◌, ◌++◌, length, map, OnOk, IfOk};
ghost use Rattle.c_lex.specs.Macros.{bytes_of, spelled};
ghost use Rattle.c_lex.specs.Line.{Lines, end_at, line_of, line_to};

use crate::table::Piece;
use c_base::place::NoMemory;
use c_lex_pieces::front::{Class, Front, longest};
use std::alloc::Global;

/// What stands behind the pieces of a line: its end, or what is refused by this number.
#[derive(Clone, Copy, Debug, PartialEq, Eq)]
pub enum End {
    Whole,
    Refused(u8),
}

/// The pieces of a line, their length in bytes, and what stands behind them.
#[derive(Drop)]
pub struct Line<'t> {
    pub pieces: Vec<Piece<'t>>,
    pub size: usize,
    pub end: End,
}

fn ends(class: Class) -> Option<End>
    ensures { result ≡ end_at class }
{
    match class {
        Class::Newline => Some(End::Whole),
        Class::Hash => Some(End::Refused(1)),
        _ => None,
    }
}

/// Appends a piece.
pub fn push<'t>(pieces: &mut Vec<Piece<'t>>, piece: Piece<'t>) -> Result<(), NoMemory>
    ensures { OnOk result (pieces.new.items ≡ pieces.old.items ++ piece.entry ∷ []) }
{
    match pieces.push(piece) {
        Ok(()) => Ok(()),
        Err(_) => Err(NoMemory),
    }
}

/// Cuts the text up to the next newline outside a comment.
#[tactic(auto, using(crate::proofs::Lines::line_end, crate::proofs::Lines::line_refused, crate::proofs::Lines::line_stop, crate::proofs::Lines::line_on, crate::proofs::Lines::line_whole, crate::proofs::Lines::spelled_more, crate::proofs::Lines::bytes_more))]
pub fn cut_line<'t>(alloc: Global, text: &'t [u8]) -> Result<Line<'t>, NoMemory>
    ensures line { IfOk result (λ l. line_of text.now ≡ line_to (map spelled l.pieces.items) l.size l.end) }
    ensures within { IfOk result (λ l. l.size ≤ length text.now) }
    ensures size { IfOk result (λ l. bytes_of (map spelled l.pieces.items) ≡ l.size) }
{
    let mut pieces = Vec::new(alloc);
    let mut rest = text;
    let mut size = 0;
    while !rest.is_empty() {
        match longest(rest) {
            Front::Refused(number) => {
                return Ok(Line {
                    pieces,
                    size,
                    end: End::Refused(number),
                });
            }
            Front::Piece(class, len) => {
                if let Some(end) = ends(class) {
                    return Ok(Line { pieces, size, end });
                }
                let (bytes, behind) = rest.split_at(len);
                push(&mut pieces, Piece { class, bytes })?;
                size += len;
                rest = behind;
            }
        }
    }
    Ok(Line {
        pieces,
        size,
        end: End::Whole,
    })
}
