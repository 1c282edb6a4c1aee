//! The numbers and the digests that stand in probes.

ghost use Rattle.std.specs.Prelude.{◌≡◌, IfSome};
ghost use Rattle.std.specs.List.{list_all};
ghost use Rattle.hex.specs.Hex.{encode_lower};
ghost use Rattle.c_constants.specs.Probes.{probe_number_of, digest_of, is_lower_digit};

use crate::numbers::{run_of, value_of};
use hex::FromHex;

/// A probe's number: decimal digits with no leading zero, from 1 to 16383.
pub fn probe_number(spelled: &[u8]) -> Option<u16>
    ensures { result ≡ probe_number_of spelled.now }
{
    let (first, _) = spelled.split_first()?;
    if *first == b'0' || run_of(10, spelled) != spelled.len() {
        return None;
    }
    let value = value_of(10, spelled)?;
    if 1 <= value && value <= 16383 {
        Some(value as u16)
    } else {
        None
    }
}

/// The 32 bytes that 64 lower-case hexadecimal digits stand for.
pub fn digest(text: &[u8]) -> Option<[u8; 32]>
    ensures value { result ≡ digest_of text.now }
    ensures spelled { IfSome result (λ bytes. encode_lower bytes ≡ text.now) }
{
    if text.len() == 64 && is_lower(text) {
        <[u8; 32] as FromHex>::from_hex(text).ok()
    } else {
        None
    }
}

// Whether each byte is a digit or a letter from a to f.
fn is_lower(text: &[u8]) -> bool
    ensures { result ≡ list_all is_lower_digit text.now }
{
    for b in text {
        if !is_lower_digit(*b) {
            return false;
        }
    }
    true
}

// A digit, or a letter from a to f.
fn is_lower_digit(b: u8) -> bool
    ensures { result ≡ is_lower_digit b }
{
    (b'0' <= b && b <= b'9') || (b'a' <= b && b <= b'f')
}
