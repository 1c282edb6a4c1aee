//! Directives, read from the pieces of their lines (C89, 3.8).

ghost use Rattle.std.specs.Prelude.{◌≡◌, [], ◌∷◌, ◌++◌, length, map, Some, None, OnOk, IfOk};
ghost use Rattle.c_lex.specs.Macros.{spelled};
ghost use Rattle.c_lex.specs.Output.{is_word};
ghost use Rattle.c_lex.specs.Directive.{at_end, behind_gaps, by_word, define, define_as, directive, does, header_named, include, is_gap, is_name, is_probe_word, only, tokens_in, undefine, with_body};

use crate::line::{End, push};
use crate::output::names;
use crate::table::Piece;
use c_base::place::NoMemory;
use c_lex_pieces::front::Class;
use std::alloc::Global;

/// The headers that can be included.
#[derive(Clone, Copy, Debug, PartialEq, Eq)]
pub enum Header {
    Stdio,
    Stdlib,
}

/// What a directive does; or it is none of the table, or what stands behind its pieces is refused by this number.
#[derive(Drop)]
pub enum Directive<'t> {
    Nothing,
    Defines(&'t [u8], Vec<Piece<'t>>),
    Undefines(&'t [u8]),
    Includes(Header),
    Unknown,
    Stops(u8),
}

/// Whether a piece is blank or a comment.
pub fn gap(class: Class) -> bool
    ensures { result ≡ is_gap class }
{
    matches!(class, Class::Space | Class::Comment)
}

/// The pieces from the first one on that is neither blank nor comment.
fn skip_gaps<'p, 't>(pieces: &'p [Piece<'t>]) -> &'p [Piece<'t>]
    ensures { map spelled result.now ≡ behind_gaps (map spelled pieces.now) }
{
    for (i, piece) in pieces.iter().enumerate() {
        if !gap(piece.class) {
            return &pieces[i..];
        }
    }
    &pieces[pieces.len()..]
}

fn without_gaps<'t>(alloc: Global, pieces: &[Piece<'t>]) -> Result<Vec<Piece<'t>>, NoMemory>
    ensures { IfOk result (λ v. map spelled v.items ≡ tokens_in (map spelled pieces.now)) }
{
    let mut tokens = Vec::new(alloc);
    for piece in pieces {
        if !gap(piece.class) {
            push(&mut tokens, *piece)?;
        }
    }
    Ok(tokens)
}

fn probe_word(word: &[u8]) -> bool
    ensures { result ≡ is_probe_word word.now }
{
    word == b"__atac_program".as_slice()
        || word == b"__atac_block".as_slice()
        || word == b"__atac_test".as_slice()
        || word == b"__atac_select".as_slice()
        || word == b"__atac_use".as_slice()
        || word == b"__atac_def".as_slice()
}

fn name(piece: &Piece<'_>) -> bool
    ensures { result ≡ is_name (spelled piece.now) }
{
    names(piece.class) && !probe_word(piece.bytes)
}

/// The directive where no piece is left, and a comment may come.
fn ended<'t>(whole: Directive<'t>, end: End) -> Directive<'t>
    ensures { does result ≡ at_end (does whole.entry) end }
{
    match end {
        End::Whole => whole,
        End::Refused(number) => {
            if number == 2 {
                Directive::Stops(2)
            } else {
                Directive::Unknown
            }
        }
    }
}

fn alone<'t>(whole: Directive<'t>, pieces: &[Piece<'t>], end: End) -> Directive<'t>
    ensures { does result ≡ only (does whole.entry) (map spelled pieces.now) end }
{
    if pieces.is_empty() {
        ended(whole, end)
    } else {
        Directive::Unknown
    }
}

fn defined_as<'t>(
    alloc: Global,
    name: &'t [u8],
    pieces: &[Piece<'t>],
    end: End,
) -> Result<Directive<'t>, NoMemory>
    ensures { IfOk result (λ d. does d ≡ define_as name.now (map spelled pieces.now) end) }
{
    match pieces.split_first() {
        None => Ok(ended(Directive::Defines(name, Vec::new(alloc)), end)),
        Some((first, rest)) => {
            if !gap(first.class) {
                return Ok(Directive::Unknown);
            }
            match end {
                End::Whole => Ok(Directive::Defines(name, without_gaps(alloc, rest)?)),
                End::Refused(number) => Ok(Directive::Stops(number)),
            }
        }
    }
}

fn defined<'t>(alloc: Global, pieces: &[Piece<'t>], end: End) -> Result<Directive<'t>, NoMemory>
    ensures { IfOk result (λ d. does d ≡ define (map spelled pieces.now) end) }
{
    match pieces.split_first() {
        None => Ok(ended(Directive::Unknown, end)),
        Some((first, rest)) => {
            if name(first) {
                defined_as(alloc, first.bytes, rest, end)
            } else {
                Ok(Directive::Unknown)
            }
        }
    }
}

fn undefined<'t>(pieces: &[Piece<'t>], end: End) -> Directive<'t>
    ensures { does result ≡ undefine (map spelled pieces.now) end }
{
    match pieces.split_first() {
        None => ended(Directive::Unknown, end),
        Some((first, rest)) => {
            if name(first) {
                alone(Directive::Undefines(first.bytes), skip_gaps(rest), end)
            } else {
                Directive::Unknown
            }
        }
    }
}

fn read_header(word: &[u8]) -> Option<Header>
    ensures { result ≡ header_named word.now }
{
    if word == b"stdio".as_slice() {
        Some(Header::Stdio)
    } else if word == b"stdlib".as_slice() {
        Some(Header::Stdlib)
    } else {
        None
    }
}

fn included<'t>(pieces: &[Piece<'t>], end: End) -> Directive<'t>
    ensures { does result ≡ include (map spelled pieces.now) end }
{
    match pieces {
        [] => ended(Directive::Unknown, end),
        [less, word, dot, h, greater, rest @ ..] => {
            if less.bytes == b"<".as_slice()
                && dot.bytes == b".".as_slice()
                && h.bytes == b"h".as_slice()
                && greater.bytes == b">".as_slice()
            {
                match read_header(word.bytes) {
                    None => Directive::Unknown,
                    Some(header) => alone(Directive::Includes(header), skip_gaps(rest), end),
                }
            } else {
                Directive::Unknown
            }
        }
        _ => Directive::Unknown,
    }
}

fn named<'t>(
    alloc: Global,
    word: &[u8],
    pieces: &[Piece<'t>],
    end: End,
) -> Result<Directive<'t>, NoMemory>
    ensures { IfOk result (λ d. does d ≡ by_word word.now (map spelled pieces.now) end) }
{
    if word == b"define".as_slice() {
        defined(alloc, pieces, end)
    } else if word == b"undef".as_slice() {
        Ok(undefined(pieces, end))
    } else if word == b"include".as_slice() {
        Ok(included(pieces, end))
    } else {
        Ok(Directive::Unknown)
    }
}

/// Reads a directive from the pieces of its line.
#[tactic(auto, unfolding(crate::specs::Directive::directive))]
pub fn read<'t>(alloc: Global, pieces: &[Piece<'t>], end: End) -> Result<Directive<'t>, NoMemory>
    ensures { IfOk result (λ d. does d ≡ directive (map spelled pieces.now) end) }
{
    match skip_gaps(pieces).split_first() {
        None => Ok(ended(Directive::Nothing, end)),
        Some((first, rest)) => {
            if names(first.class) {
                named(alloc, first.bytes, skip_gaps(rest), end)
            } else {
                Ok(Directive::Unknown)
            }
        }
    }
}
