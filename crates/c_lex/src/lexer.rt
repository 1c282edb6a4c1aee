//! The tokens of a text, or its first refusal.

ghost use Rattle.std.specs.Prelude.{◌≡◌, ◌≤◌, length, IfOk, IfErr};
ghost use Rattle.c_lex.specs.Scan.{Scans, scanned};
ghost use Rattle.c_lex.specs.ReadBack.{AreSound, kinds_of};
ghost use Rattle.c_lex.specs.Given.{IsRefused, Refuses, begin, given, room_of};

use crate::join::join;
use crate::output::{Output, Room};
use crate::scan::{LexRefusal, Scan};
use c_base::place::Pos;
use c_lex_pieces::front::longest;
use c_syntax::token::Token;
use indexmap::IndexMap;
use std::alloc::Global;

/// Which limits hold: for a plain text 100,000 tokens, 4,194,304 bytes of all tokens as they are spelled and 1,000,000
/// replacements of macros; for one with probes 350,000, 67,108,864 and 1,000,000.
#[derive(Clone, Copy, Debug, PartialEq, Eq)]
pub enum TextKind {
    Plain,
    Probed,
}

fn room(kind: TextKind) -> Room
    ensures { result ≡ room_of kind }
{
    match kind {
        TextKind::Plain => Room {
            tokens: 100_000,
            bytes: 4_194_304,
            replacements: 1_000_000,
        },
        TextKind::Probed => Room {
            tokens: 350_000,
            bytes: 67_108_864,
            replacements: 1_000_000,
        },
    }
}

#[tactic(auto, using(crate::proofs::Scanning::scan_end, crate::proofs::Scanning::scan_on))]
fn scan(alloc: Global, text: &[u8], kind: TextKind) -> Result<Vec<Token>, LexRefusal>
    requires { length text.now ≤ 67108864 }
    ensures tokens { IfOk result (λ v. Scans text.now (begin kind) (scanned v.items)) }
    ensures refused { IfErr result (λ e. Refuses e text.now (begin kind)) }
{
    let mut scan = Scan {
        alloc,
        place: Pos { line: 1, col: 1 },
        fresh: true,
        table: IndexMap::new(alloc),
        opened: Vec::new(alloc),
        out: Output {
            tokens: Vec::new(alloc),
            room: room(kind),
            left_out: false,
        },
    };
    let mut rest = text;
    while !rest.is_empty() {
        match scan.take(longest(rest), rest) {
            Ok(len) => {
                let (_, more) = rest.split_at(len);
                rest = more;
            }
            Err(refusal) => return Err(refusal),
        }
    }
    Ok(scan.out.tokens)
}

/// The tokens of a text of at most 67,108,864 bytes, with the directives obeyed, the macros replaced and adjacent strings
/// joined (C89, 3.1 and 3.8); or the first refusal from the left, with its place. Its number is 1 for a byte that begins
/// nothing, 2 for a comment without end, 3 for a quote without end on its line, or a character constant that holds none or
/// several characters, 4 for an escape that isn't right, 5 for a number that isn't, 6 at the `#` of what is no directive,
/// 7 at a name that is defined again with other tokens, 8 at a token of the text that passes a limit, and 9 at one that
/// gives a word that the language leaves out.
#[tactic(auto, using(crate::proofs::Scanning::whole))]
pub fn lex(alloc: Global, text: &[u8], kind: TextKind) -> Result<Vec<Token>, LexRefusal>
    requires { length text.now ≤ 67108864 }
    ensures tokens { IfOk result (λ v. given kind text.now ≡ scanned v.items) }
    ensures refused { IfErr result (λ e. IsRefused e (given kind text.now)) }
    // Each is a token that a piece can spell, and no two strings are adjacent.
    ensures sound { IfOk result (λ v. AreSound kind (kinds_of v.items)) }
{
    let tokens = scan(alloc, text, kind)?;
    Ok(join(alloc, tokens)?)
}
