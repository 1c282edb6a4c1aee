//! What stands between quotes (C89, 3.1.3.4 and 3.1.4).

ghost use Rattle.std.specs.Prelude.{◌≡◌, ◌+◌, ◌<◌, ◌≤◌, length, IfSome, false, is_some};
ghost use Rattle.c_lex_pieces.specs.Numbers.{value};
ghost use Rattle.c_lex_pieces.specs.Quotes.{before_quote, byte_of, simple_escape, octal_escape, hexadecimal_escape, escape, character, characters, constant, all_values};

use crate::bytes::{ByteSet, run_of};
use crate::numbers::value_of;

/// A character or escape between quotes: how many bytes spell it, and its value; None for a bad escape (C89, 3.1.3.4).
#[derive(Clone, Copy, Debug)]
pub struct Character {
    pub size: usize,
    pub value: Option<u8>,
}

/// How many bytes stand before the closing quote; None where the line ends first. `\` takes the byte behind it.
pub(crate) fn end_of(quote: u8, text: &[u8]) -> Option<usize>
    ensures end { result ≡ before_quote quote false text.now }
    ensures within { IfSome result (λ n. n < length text.now) }
{
    let mut escaped = false;
    for (i, b) in text.iter().enumerate() {
        if *b == b'\n' {
            return None;
        }
        if !escaped && *b == quote {
            return Some(i);
        }
        escaped = !escaped && *b == b'\\';
    }
    None
}

fn byte_value(base: u8, digits: &[u8]) -> Option<u8>
    requires { 1 ≤ base }
    ensures { result ≡ byte_of (value base digits.now) }
{
    match value_of(base, digits) {
        None => None,
        Some(value) => if value <= 255 {
            Some(value as u8)
        } else {
            None
        }
    }
}

fn simple(b: u8) -> Option<u8>
    ensures { result ≡ simple_escape b }
{
    match b {
        b'\'' | b'"' | b'?' | b'\\' => Some(b),
        b'a' => Some(7),
        b'b' => Some(8),
        b'f' => Some(12),
        b'n' => Some(10),
        b'r' => Some(13),
        b't' => Some(9),
        b'v' => Some(11),
        _ => None,
    }
}

fn octal(three: &[u8]) -> Character
    ensures escape { result ≡ octal_escape three.now }
    ensures within { result.size ≤ length three.now + 1 }
{
    let count = run_of(ByteSet::Digit(8), three);
    Character {
        size: count + 1,
        value: byte_value(8, &three[..count]),
    }
}

fn hexadecimal(text: &[u8]) -> Character
    ensures escape { result ≡ hexadecimal_escape text.now }
    ensures within { result.size ≤ length text.now + 2 }
{
    let count = run_of(ByteSet::Digit(16), text);
    let value = if count == 0 {
        None
    } else {
        byte_value(16, &text[..count])
    };
    Character {
        size: count + 2,
        value,
    }
}

/// The escape whose `\` stands before this text.
fn escape_of(text: &[u8]) -> Character
    ensures escape { result ≡ escape text.now }
    ensures within { result.size ≤ length text.now + 1 }
    ensures some { 1 ≤ result.size }
{
    let Some((b, rest)) = text.split_first() else {
        return Character {
            size: 1,
            value: None,
        };
    };
    if *b == b'x' {
        return hexadecimal(rest);
    }
    if b'0' <= *b && *b <= b'7' {
        return octal(text.get(..3).unwrap_or(text));
    }
    Character {
        size: 2,
        value: simple(*b),
    }
}

/// The character or escape in front.

pub(crate) fn character_of(inside: &[u8]) -> Character
    ensures first { result ≡ character inside.now }
    ensures within { result.size ≤ length inside.now }
    ensures some { 0 < length inside.now → 1 ≤ result.size }
{
    let Some((b, rest)) = inside.split_first() else {
        return Character {
            size: 0,
            value: None,
        };
    };
    if *b == b'\\' {
        escape_of(rest)
    } else {
        Character {
            size: 1,
            value: Some(*b),
        }
    }
}

/// What stands between the quotes of a character constant: one character, one bad escape, or none or several.
#[derive(Clone, Copy, Debug)]
pub enum Constant {
    Value(u8),
    BadEscape,
    NotOne,
}

#[tactic(auto, using(crate::proofs::Steps::no_characters, crate::proofs::Steps::several, crate::proofs::Steps::single))]
pub(crate) fn constant_of(inside: &[u8]) -> Constant
    ensures { result ≡ constant (characters inside.now) }
{
    if inside.is_empty() {
        return Constant::NotOne;
    }
    let first = character_of(inside);
    if first.size < inside.len() {
        return Constant::NotOne;
    }
    match first.value {
        None => Constant::BadEscape,
        Some(value) => Constant::Value(value),
    }
}

/// Whether each escape between the quotes of a string is right.
#[tactic(auto, using(crate::proofs::Steps::no_characters, crate::proofs::Steps::bad_value, crate::proofs::Steps::right_value))]
pub(crate) fn all_right(inside: &[u8]) -> bool
    ensures { result ≡ is_some (all_values (characters inside.now)) }
{
    let mut rest = inside;
    while !rest.is_empty() {
        let first = character_of(rest);
        let Some(_) = first.value else {
            return false;
        };
        let (_, behind) = rest.split_at(first.size);
        rest = behind;
    }
    true
}
