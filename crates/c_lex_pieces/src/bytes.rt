//! Runs of bytes of one set.

ghost use Rattle.std.specs.Prelude.{◌≡◌, ◌≤◌, length};
ghost use Rattle.c_lex_pieces.specs.Bytes.{is_blank, is_digit, is_letter, digit_of, is_in, run};

/// The bytes that a run is made of: blanks that end no line; letters, digits and `_`; these and `.`; the digits of a
/// base (C89, 2.2.1 and 3.1).
#[derive(Clone, Copy, Debug)]
pub enum ByteSet {
    Blank,
    InWord,
    InNumber,
    Digit(u8),
}

pub(crate) fn blank(b: u8) -> bool
    ensures { result ≡ is_blank b }
{
    b == b'\t' || ((11 <= b && b <= 13) || b == b' ')
}

pub(crate) fn digit(b: u8) -> bool
    ensures { result ≡ is_digit b }
{
    b'0' <= b && b <= b'9'
}

pub(crate) fn letter(b: u8) -> bool
    ensures { result ≡ is_letter b }
{
    (b'a' <= b && b <= b'z') || ((b'A' <= b && b <= b'Z') || b == b'_')
}

/// What a byte is worth as a digit; 16 for a byte that is none.
pub(crate) fn digit_value(b: u8) -> u8
    ensures { result ≡ digit_of b }
{
    if digit(b) {
        b - b'0'
    } else if b'a' <= b && b <= b'f' {
        b - 87
    } else if b'A' <= b && b <= b'F' {
        b - 55
    } else {
        16
    }
}

fn belongs(set: ByteSet, b: u8) -> bool
    ensures { result ≡ is_in set b }
{
    match set {
        ByteSet::Blank => blank(b),
        ByteSet::InWord => letter(b) || digit(b),
        ByteSet::InNumber => (letter(b) || digit(b)) || b == b'.',
        ByteSet::Digit(base) => digit_value(b) < base,
    }
}

/// How many bytes of the set stand in front.
pub(crate) fn run_of(set: ByteSet, text: &[u8]) -> usize
    ensures run { result ≡ run set text.now }
    ensures within { result ≤ length text.now }
{
    for (i, b) in text.iter().enumerate() {
        if !belongs(set, *b) {
            return i;
        }
    }
    text.len()
}
