// The places of file-scope variables and of their parts, and constant initialisers (C89, 3.4 and 3.5.7).

ghost use Rattle.std.specs.Prelude.{◌≡◌};
ghost use Rattle.c_syntax.specs.View.{type_of};
ghost use Rattle.c_constants.specs.Constants.{probed, is_place, is_index, reaches, element, field, is_array, initialises, Holds};

use crate::constants::{Constant, value};
use c_syntax::tree::CType;

/// A probe of a block or a test round an expression: a constant expression stays one.
pub fn probed(a: Constant) -> Constant
    ensures value { result ≡ probed a }
    ensures held { Holds a → Holds result }
{
    match a {
        Constant::Known(..) | Constant::Faulty(_) => a,
        _ => Constant::No,
    }
}

/// `a[b]` and `b[a]` (C89, 3.3.2.1), behind each operand's type: an element of a variable's or a part's array, at a constant
/// index from 0 to below its length.
pub fn element(left: &CType, a: Constant, right: &CType, b: Constant) -> Constant
    ensures { result ≡ element (type_of left.now) a (type_of right.now) b }
{
    if reaches(left, a, b) || reaches(right, b, a) {
        Constant::Part
    } else {
        Constant::No
    }
}

// Whether the first is an array's place, and the second an index below its length.
fn reaches(kind: &CType, a: Constant, index: Constant) -> bool
    ensures { result ≡ reaches (type_of kind.now) a index }
{
    match kind {
        CType::Array(_, length) => is_place(a) && is_index(*length, value(index)),
        _ => false,
    }
}

// Whether it is a variable or a part of one.
fn is_place(a: Constant) -> bool
    ensures { result ≡ is_place a }
{
    matches!(a, Constant::Variable | Constant::Part)
}

// Whether the value is from 0 to below the length.
fn is_index(length: u32, value: Option<i128>) -> bool
    ensures { result ≡ is_index length value }
{
    match value {
        Some(index) => 0 <= index && index < i128::from(length),
        None => false,
    }
}

/// `.` (C89, 3.3.2.3): a field of a variable or of a part of one.
pub fn field(a: Constant) -> Constant
    ensures { result ≡ field a }
{
    if is_place(a) {
        Constant::Part
    } else {
        Constant::No
    }
}

/// Whether an expression of that type is a constant initialiser (C89, 3.4 and 3.5.7): a known value, an address, a string, or
/// the name of an array.
pub fn initialises(kind: &CType, a: Constant) -> bool
    ensures { result ≡ initialises (type_of kind.now) a }
{
    match a {
        Constant::Known(..) | Constant::Address | Constant::Literal => true,
        Constant::Variable => matches!(kind, CType::Array(..)),
        Constant::No | Constant::Faulty(_) | Constant::Part => false,
    }
}
