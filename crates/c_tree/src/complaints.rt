//! The numbers of complaints, and their order.

ghost use Rattle.std.specs.Prelude.{◌≡◌, MatchOption, []};
ghost use Rattle.c_tree.specs.Units.{IsFirst, order, earlier};

use crate::meaning::Complaint;

/// The number of a name that stands for nothing (C89, 3.1.2.1).
pub const UNKNOWN_NAME: u8 = 30;

/// The number of a name that is declared once more in its scope, or with another type (C89, 3.5).
pub const DECLARED_TWICE: u8 = 31;

/// The number of an operand that is no place, where one is wanted (C89, 3.3.16).
pub const NOT_A_LEFT_SIDE: u8 = 32;

/// The number of a type that doesn't fit where it stands.
pub const WRONG_TYPE: u8 = 33;

/// The number of more or fewer arguments than parameters (C89, 3.3.2.2).
pub const WRONG_ARG_COUNT: u8 = 34;

/// The number of no constant, or none in its range, where one is wanted (C89, 3.4).
pub const NOT_CONSTANT: u8 = 35;

/// The number of a case that comes twice in a `switch` (C89, 3.6.4.2).
pub const CASE_TWICE: u8 = 36;

/// The number of a label, jump, word or probe that may not stand there.
pub const STRAY: u8 = 37;

/// The number of no definition of `main` (C89, 2.1.2.2.1).
pub const NO_MAIN: u8 = 38;

/// The number of an incomplete type, where an object or value of it would be (C89, 3.1.2.5).
pub const INCOMPLETE_TYPE: u8 = 39;

/// The number of a call of a function that is defined nowhere.
pub const UNDEFINED: u8 = 40;

/// The number of a field that the structure doesn't have (C89, 3.3.2.3).
pub const UNKNOWN_FIELD: u8 = 41;

/// The number of a type with too many cells.
pub const TOO_LARGE_TYPE: u8 = 42;

/// The first complaint: that of the least token, and at one token that of the lowest number; None exactly where there is
/// none.
pub fn first(complaints: &[Complaint]) -> Option<Complaint>
    ensures { MatchOption result (complaints.now ≡ []) (λ c. IsFirst c complaints.now) }
{
    let mut best = *complaints.first()?;
    for i in 0..complaints.len() {
        best = earlier(complaints[i], best);
    }
    Some(best)
}

// The one that comes before the other.
fn earlier(a: Complaint, b: Complaint) -> Complaint
    ensures { result ≡ earlier a b }
{
    if order(a) < order(b) { a } else { b }
}

// Its number in the order of complaints.
fn order(complaint: Complaint) -> u64
    ensures { result ≡ order complaint }
{
    complaint.token as u64 * 256 + complaint.number as u64
}
