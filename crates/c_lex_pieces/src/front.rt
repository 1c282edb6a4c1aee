//! The longest piece at the front of a text, or its refusal (C89, 3.1).

ghost use Rattle.std.specs.Prelude.{◌≡◌, ◌+◌, ◌<◌, ◌≤◌, [], ◌∷◌, length, false, IfSome, slice_index, IsTrue, codes};
ghost use Rattle.c_lex_pieces.specs.Bytes.{run};
ghost use Rattle.c_lex_pieces.specs.Quotes.{before_quote};
ghost use Rattle.c_lex_pieces.specs.Marks.{mark_bytes, mark_front, is_front};
ghost use Rattle.c_lex_pieces.specs.Front.{comment_end, comment_piece, begins_with_digit, number_piece, char_piece, str_piece, mark_piece, front, HasLength};
ghost use Rattle.c_lex_pieces.specs.declared.bytes.ByteSet.TheVariants.{InNumber};

use crate::bytes::{ByteSet, blank, digit, letter, run_of};
use crate::marks::{longest_mark, size_of};
use crate::numbers::right;
use crate::quotes::{Constant, all_right, constant_of, end_of};
use c_syntax::token::Mark;

/// What a piece is (C89, 3.1): a run of blanks that end no line, the end of a line, a comment, a word, a number, a
/// character constant, a string, a mark, or a `#`.
#[derive(Clone, Copy, Debug, PartialEq, Eq)]
pub enum Class {
    Space,
    Newline,
    Comment,
    Word,
    Number,
    Char,
    Str,
    Mark(Mark),
    Hash,
}

/// What stands in front of a text: a piece and how many bytes it has, or the number of the refusal, from 1 to 5.
#[derive(Clone, Copy, Debug, PartialEq, Eq)]
pub enum Front {
    Refused(u8),
    Piece(Class, usize),
}

/// How many bytes stand up to the end of a comment, with its `*/`.
fn comment_size(text: &[u8]) -> Option<usize>
    ensures end { result ≡ comment_end false text.now }
    ensures within { IfSome result (λ n. n ≤ length text.now) }
{
    let mut star = false;
    for (i, b) in text.iter().enumerate() {
        if star && *b == b'/' {
            return Some(i + 1);
        }
        star = *b == b'*';
    }
    None
}

fn starts_comment(text: &[u8]) -> bool
    ensures first { result ≡ is_front (codes "/*") text.now }
    ensures within { IsTrue result → 2 ≤ length text.now }
{
    match text {
        [b'/', b'*', ..] => true,
        _ => false,
    }
}

/// A comment, behind its `/*`.
fn comment(text: &[u8]) -> Front
    ensures front { result ≡ comment_piece (comment_end false text.now) }
    ensures within { HasLength result (length text.now + 2) }
{
    match comment_size(text) {
        None => Front::Refused(2),
        Some(len) => Front::Piece(Class::Comment, len + 2),
    }
}

fn starts_with_digit(text: &[u8]) -> bool
    ensures { result ≡ begins_with_digit text.now }
{
    match text.first() {
        None => false,
        Some(b) => digit(*b),
    }
}

fn number(text: &[u8]) -> Front
    ensures front { result ≡ number_piece text.now (run InNumber text.now) }
    ensures within { 0 < run InNumber text.now → HasLength result (length text.now) }
{
    let len = run_of(ByteSet::InNumber, text);
    if right(&text[..len]) {
        Front::Piece(Class::Number, len)
    } else {
        Front::Refused(5)
    }
}

/// A character constant, behind its first quote.
fn character(text: &[u8]) -> Front
    ensures front { result ≡ char_piece text.now (before_quote 39 false text.now) }
    ensures within { HasLength result (length text.now + 1) }
{
    let Some(len) = end_of(b'\'', text) else {
        return Front::Refused(3);
    };
    match constant_of(&text[..len]) {
        Constant::Value(_) => Front::Piece(Class::Char, len + 2),
        Constant::BadEscape => Front::Refused(4),
        Constant::NotOne => Front::Refused(3),
    }
}

/// A string, behind its first quote.
fn string(text: &[u8]) -> Front
    ensures front { result ≡ str_piece text.now (before_quote 34 false text.now) }
    ensures within { HasLength result (length text.now + 1) }
{
    let Some(len) = end_of(b'"', text) else {
        return Front::Refused(3);
    };
    if all_right(&text[..len]) {
        Front::Piece(Class::Str, len + 2)
    } else {
        Front::Refused(4)
    }
}

/// The byte at an index, counted from 0; 0 behind the end.
fn byte_at(text: &[u8], k: usize) -> u8
    ensures { result ≡ slice_index text.now k }
{
    match text.get(k) {
        None => 0,
        Some(b) => *b,
    }
}

#[tactic(auto, using(crate::proofs::Steps::mark_by_three, crate::proofs::Steps::mark_fits))]
fn mark(text: &[u8]) -> Front
    ensures front { result ≡ mark_piece (mark_front text.now) }
    ensures within { HasLength result (length text.now) }
{
    match longest_mark(byte_at(text, 0), byte_at(text, 1), byte_at(text, 2)) {
        None => Front::Refused(1),
        Some(mark) => Front::Piece(Class::Mark(mark), size_of(mark)),
    }
}

/// The longest piece in front of a text that isn't empty, or why there is none: 1 for a byte that begins no piece, 2 for
/// a comment without end, 3 for a quote without its end on its line or a constant that isn't one character, 4 for a bad
/// escape, 5 for a bad number.
#[tactic(auto, using(crate::proofs::Steps::front_comment))]
pub fn longest(rest: &[u8]) -> Front
    ensures front { result ≡ front rest.now }
    ensures within { HasLength result (length rest.now) }
{
    let Some((first, behind)) = rest.split_first() else {
        return Front::Refused(1);
    };
    let b = *first;
    if b == b'\n' {
        return Front::Piece(Class::Newline, 1);
    }
    if blank(b) {
        return Front::Piece(Class::Space, run_of(ByteSet::Blank, behind) + 1);
    }
    if letter(b) {
        return Front::Piece(Class::Word, run_of(ByteSet::InWord, behind) + 1);
    }
    if digit(b) || (b == b'.' && starts_with_digit(behind)) {
        return number(rest);
    }
    if b == b'\'' {
        return character(behind);
    }
    if b == b'"' {
        return string(behind);
    }
    if b == b'#' {
        return Front::Piece(Class::Hash, 1);
    }
    if starts_comment(rest) {
        let (_, inside) = rest.split_at(2);
        return comment(inside);
    }
    mark(rest)
}
