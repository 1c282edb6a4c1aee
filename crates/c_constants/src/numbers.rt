//! Integer constants (C89, 3.1.3.2).

ghost use Rattle.std.specs.Prelude.{◌≡◌, ◌*◌, ◌^◌, ◌<◌, ◌≤◌, length, SomeIff, IfSome, is_some, pos};
ghost use Rattle.c_arith.specs.Arith.{InRange};
ghost use Rattle.c_constants.specs.declared.constants.Constant.TheVariants.{Known};
ghost use Rattle.c_lex_pieces.specs.declared.bytes.ByteSet.TheVariants.{Digit};
ghost use Rattle.c_lex_pieces.specs.Bytes.{digit_of, run};
ghost use Rattle.c_lex_pieces.specs.Numbers.{value, is_u, is_l, is_right};
ghost use Rattle.c_constants.specs.Numbers.{base, suffix_of, number_in, number_of};

use crate::constants::Constant;
use c_base::place::IntKind;
use c_type_rules::kinds::{Radix, Suffix, constant_kind};

/// An integer constant's value and type.
#[derive(Clone, Copy, Debug, PartialEq, Eq)]
pub struct Number {
    pub value: u64,
    pub kind: IntKind,
}

impl Number {
    /// It, as a constant expression.
    pub fn constant(self) -> Constant
        ensures { result ≡ Known self.kind (pos self.value) }
    {
        Constant::Known(self.kind, i128::from(self.value))
    }
}

/// The integer constant of that spelling (C89, 3.1.3.2): hexadecimal behind `0x`, octal from a leading zero on, else decimal,
/// with a value below 2^64 and a suffix of at most one `u` and one `l`.
pub fn number_of(spelled: &[u8]) -> Option<Number>
    ensures value { result ≡ number_of spelled.now }
    ensures right { is_some result ≡ is_right spelled.now }
    ensures held { IfSome result (λ n. InRange n.kind (pos n.value)) }
{
    match spelled {
        [] => None,
        [b'0', b'x' | b'X', digits @ ..] => number_in(Radix::Hexadecimal, digits),
        [b'0', ..] => number_in(Radix::Octal, spelled),
        _ => number_in(Radix::Decimal, spelled),
    }
}

// Digits of the base, and a suffix.
fn number_in(radix: Radix, text: &[u8]) -> Option<Number>
    ensures value { result ≡ number_in radix text.now }
    ensures held { IfSome result (λ n. InRange n.kind (pos n.value)) }
{
    let base = base(radix);
    let count = run_of(base, text);
    if count == 0 {
        return None;
    }
    let (digits, letters) = text.split_at(count);
    let value = value_of(base, digits)?;
    let suffix = suffix_of(letters)?;
    let kind = constant_kind(value, radix, suffix);
    Some(Number { value, kind })
}

fn base(radix: Radix) -> u8
    ensures value { result ≡ base radix }
    ensures one { 1 ≤ result }
{
    match radix {
        Radix::Octal => 8,
        Radix::Decimal => 10,
        Radix::Hexadecimal => 16,
    }
}

// At most one u and one l, in either order.
fn suffix_of(letters: &[u8]) -> Option<Suffix>
    ensures { result ≡ suffix_of letters.now }
{
    let (unsigned, long) = match letters {
        [] => (false, false),
        [a] if letter_u(*a) => (true, false),
        [a] if letter_l(*a) => (false, true),
        [a, b] if letter_u(*a) && letter_l(*b) || letter_l(*a) && letter_u(*b) => (true, true),
        _ => return None,
    };
    Some(Suffix { unsigned, long })
}

fn letter_u(b: u8) -> bool
    ensures { result ≡ is_u b }
{
    b == b'u' || b == b'U'
}

fn letter_l(b: u8) -> bool
    ensures { result ≡ is_l b }
{
    b == b'l' || b == b'L'
}

/// What a byte is worth as a digit; 16 for a byte that is none.
fn digit_value(b: u8) -> u8
    ensures { result ≡ digit_of b }
{
    match b {
        b'0'..=b'9' => b - 48,
        b'a'..=b'f' => b - 87,
        b'A'..=b'F' => b - 55,
        _ => 16,
    }
}

/// How many digits of the base stand in front.
pub(crate) fn run_of(base: u8, text: &[u8]) -> usize
    ensures run { result ≡ run (Digit base) text.now }
    ensures within { result ≤ length text.now }
{
    for (i, b) in text.iter().enumerate() {
        if digit_value(*b) >= base {
            return i;
        }
    }
    text.len()
}

/// What digits of the base are worth, below 2^64: None from there on.
#[tactic(auto, using(crate::proofs::Digits::value_at))]
pub(crate) fn value_of(base: u8, digits: &[u8]) -> Option<u64>
    requires { 1 ≤ base }
    ensures { SomeIff result (value base digits.now < 2 ^ 64) (value base digits.now) }
{
    let mut sum: u64 = 0;
    for d in digits {
        let shifted = sum.checked_mul(u64::from(base))?;
        sum = shifted.checked_add(u64::from(digit_value(*d)))?;
    }
    Some(sum)
}
