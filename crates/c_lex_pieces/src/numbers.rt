//! Which numbers are right (C89, 3.1.3.2).

ghost use Rattle.std.specs.Prelude.{◌≡◌, ◌+◌, ◌*◌, ◌^◌, ◌<◌, ◌≤◌, length, SomeIff, IsTrue};
ghost use Rattle.c_lex_pieces.specs.Numbers.{value, is_u, is_l, is_suffix, is_right_in, begins_with_x, is_right};

use crate::bytes::{ByteSet, digit_value, run_of};

/// What digits of a base are worth, counted no further than 2^64: None from there on.
#[tactic(auto, using(crate::proofs::Values::value_at))]
pub(crate) fn value_of(base: u8, digits: &[u8]) -> Option<u64>
    requires { 1 ≤ base }
    ensures { SomeIff result (value base digits.now < 2 ^ 64) (value base digits.now) }
{
    let mut sum: u64 = 0;
    for d in digits {
        let Some(shifted) = sum.checked_mul(base as u64) else {
            return None;
        };
        let Some(next) = shifted.checked_add(digit_value(*d) as u64) else {
            return None;
        };
        sum = next;
    }
    Some(sum)
}

fn letter_u(b: u8) -> bool
    ensures { result ≡ is_u b }
{
    b == b'u' || b == b'U'
}

fn letter_l(b: u8) -> bool
    ensures { result ≡ is_l b }
{
    b == b'l' || b == b'L'
}

fn suffix(text: &[u8]) -> bool
    ensures { result ≡ is_suffix text.now }
{
    match text {
        [] => true,
        [a] => letter_u(*a) || letter_l(*a),
        [a, b] => (letter_u(*a) && letter_l(*b)) || (letter_l(*a) && letter_u(*b)),
        _ => false,
    }
}

/// Whether the text is a digit or more of the base, worth less than 2^64, and a suffix.
fn right_in(base: u8, text: &[u8]) -> bool
    requires { 1 ≤ base }
    ensures { result ≡ is_right_in base text.now }
{
    let count = run_of(ByteSet::Digit(base), text);
    let (digits, rest) = text.split_at(count);
    0 < count && (value_of(base, digits).is_some() && suffix(rest))
}

fn starts_with_x(text: &[u8]) -> bool
    ensures first { result ≡ begins_with_x text.now }
    ensures within { IsTrue result → 1 ≤ length text.now }
{
    match text.first() {
        None => false,
        Some(b) => *b == b'x' || *b == b'X',
    }
}

/// Whether the run of a number is right: decimal, octal or hexadecimal, below 2^64, with a suffix or
/// without (C89, 3.1.3.2).
pub(crate) fn right(text: &[u8]) -> bool
    ensures { result ≡ is_right text.now }
{
    let Some((b, rest)) = text.split_first() else {
        return false;
    };
    if *b != b'0' {
        return right_in(10, text);
    }
    if starts_with_x(rest) {
        let (_, digits) = rest.split_at(1);
        return right_in(16, digits);
    }
    right_in(8, text)
}
