//! Places behind bytes.

ghost use Rattle.std.specs.Prelude.{◌≡◌, ◌+◌, ◌<◌, ◌≤◌, ◌^◌, length};
ghost use Rattle.c_lex.specs.Places.{moved};

use c_base::place::Pos;

/// The place behind these bytes.
pub fn behind(place: Pos, bytes: &[u8]) -> Pos
    requires line { place.line + length bytes.now < 2 ^ 32 }
    requires col { place.col + length bytes.now < 2 ^ 32 }
    ensures moved { result ≡ moved place bytes.now }
    ensures line { result.line ≤ place.line + length bytes.now }
    ensures col { result.col ≤ place.col + length bytes.now }
{
    let mut at = place;
    for b in bytes {
        if *b == b'\n' {
            at.line += 1;
            at.col = 1;
        } else {
            at.col += 1;
        }
    }
    at
}
