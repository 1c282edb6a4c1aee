//! What directives do (C89, 3.8).

ghost use Rattle.std.specs.Prelude.{◌≡◌, [], ◌∷◌, ◌++◌, map, Some, OnOk, IfOk, codes};
ghost use Rattle.c_lex.specs.Macros.{rows_of, set_row, spelled};
ghost use Rattle.c_lex.specs.Directive.{defines, does};
ghost use Rattle.c_lex.specs.Scan.{effect, eof_body, included, null_body, same_spelling};
ghost use Rattle.c_lex.specs.Obeyed.{effect_of};

use crate::directive::{Directive, Header};
use crate::line::push;
use crate::table::{Piece, Table, find, set};
use c_base::place::NoMemory;
use c_lex_pieces::front::Class;
use c_syntax::token::Mark;
use std::alloc::Global;

/// What came of a directive: it is done, or it is refused at its `#`, by a number behind its pieces, or at its name.
#[derive(Clone, Copy, Debug, PartialEq, Eq)]
pub enum Outcome {
    Done,
    AtHash,
    AtStop(u8),
    AtName,
}

fn same(a: &[Piece<'_>], b: &[Piece<'_>]) -> bool
    ensures { result ≡ same_spelling (map spelled a.now) (map spelled b.now) }
{
    if a.len() != b.len() {
        return false;
    }
    for (i, piece) in a.iter().enumerate() {
        if piece.bytes != b[i].bytes {
            return false;
        }
    }
    true
}

fn define<'t>(
    table: &mut Table<'t>,
    name: &'t [u8],
    body: Vec<Piece<'t>>,
) -> Result<Outcome, NoMemory>
    ensures { IfOk result (λ o. effect (defines name.now (map spelled body.entry.items)) (rows_of table.old.entries) ≡ effect_of o (rows_of table.new.entries)) }
{
    if let Some((_, there)) = find(table, name) {
        return Ok(if same(there, &body) {
            Outcome::Done
        } else {
            Outcome::AtName
        });
    }
    set(table, name, Some(body))?;
    Ok(Outcome::Done)
}

fn null_pieces<'t>(alloc: Global) -> Result<Vec<Piece<'t>>, NoMemory>
    ensures { IfOk result (λ v. map spelled v.items ≡ null_body) }
{
    let mut body = Vec::new(alloc);
    push(
        &mut body,
        Piece {
            class: Class::Number,
            bytes: b"0".as_slice(),
        },
    )?;
    Ok(body)
}

fn eof_pieces<'t>(alloc: Global) -> Result<Vec<Piece<'t>>, NoMemory>
    ensures { IfOk result (λ v. map spelled v.items ≡ eof_body) }
{
    let mut body = Vec::new(alloc);
    push(
        &mut body,
        Piece {
            class: Class::Mark(Mark::LeftParen),
            bytes: b"(".as_slice(),
        },
    )?;
    push(
        &mut body,
        Piece {
            class: Class::Mark(Mark::Minus),
            bytes: b"-".as_slice(),
        },
    )?;
    push(
        &mut body,
        Piece {
            class: Class::Number,
            bytes: b"1".as_slice(),
        },
    )?;
    push(
        &mut body,
        Piece {
            class: Class::Mark(Mark::RightParen),
            bytes: b")".as_slice(),
        },
    )?;
    Ok(body)
}

fn include<'t>(alloc: Global, table: &mut Table<'t>, header: Header) -> Result<(), NoMemory>
    ensures { OnOk result (rows_of table.new.entries ≡ included header (rows_of table.old.entries)) }
{
    match header {
        Header::Stdio => {
            set(table, b"EOF".as_slice(), Some(eof_pieces(alloc)?))?;
            set(table, b"NULL".as_slice(), Some(null_pieces(alloc)?))
        }
        Header::Stdlib => set(table, b"NULL".as_slice(), Some(null_pieces(alloc)?)),
    }
}

/// Does what a directive says.
pub fn obey<'t>(
    alloc: Global,
    table: &mut Table<'t>,
    directive: Directive<'t>,
) -> Result<Outcome, NoMemory>
    ensures { IfOk result (λ o. effect (does directive.entry) (rows_of table.old.entries) ≡ effect_of o (rows_of table.new.entries)) }
{
    match directive {
        Directive::Nothing => Ok(Outcome::Done),
        Directive::Defines(name, body) => define(table, name, body),
        Directive::Undefines(name) => {
            set(table, name, None)?;
            Ok(Outcome::Done)
        }
        Directive::Includes(header) => {
            include(alloc, table, header)?;
            Ok(Outcome::Done)
        }
        Directive::Unknown => Ok(Outcome::AtHash),
        Directive::Stops(number) => Ok(Outcome::AtStop(number)),
    }
}
