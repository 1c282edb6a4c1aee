//! What is known of an expression before the program runs (C89, 3.4).

ghost use Rattle.std.specs.Prelude.{◌≡◌, IfSome};
ghost use Rattle.c_arith.specs.Arith.{InRange};
ghost use Rattle.c_constants.specs.Constants.{kind_of, value, given, is_null, character, Holds};

use c_arith::convert;
use c_base::place::IntKind;

/// What is known of an expression before the program runs (C89, 3.4).
#[derive(Clone, Copy, Debug, PartialEq, Eq)]
pub enum Constant {
    /// Nothing.
    No,
    /// It is a constant expression of that type, whose evaluation meets a fault.
    Faulty(IntKind),
    /// It is a constant expression of that type with that value.
    Known(IntKind, i128),
    /// It is the place of a whole file-scope variable.
    Variable,
    /// It is the place of a field or an element of one, at constant indexes in range.
    Part,
    /// It is the address of such a variable or part.
    Address,
    /// It is a string.
    Literal,
}

/// The type, if it is a constant expression.
pub fn kind_of(a: Constant) -> Option<IntKind>
    ensures { result ≡ kind_of a }
{
    match a {
        Constant::Known(kind, _) | Constant::Faulty(kind) => Some(kind),
        _ => None,
    }
}

/// The value, if it is a constant expression whose evaluation meets no fault.
pub fn value(a: Constant) -> Option<i128>
    ensures { result ≡ value a }
{
    match a {
        Constant::Known(_, value) => Some(value),
        _ => None,
    }
}

/// Whether it is a constant expression with the value 0, which is a null pointer constant (C89, 3.2.2.3).
pub fn is_null(a: Constant) -> bool
    ensures { result ≡ is_null a }
{
    value(a) == Some(0)
}

/// A character constant (C89, 3.1.3.4): the byte as a signed char, of type int.
pub fn character(byte: u8) -> Constant
    ensures value { result ≡ character byte }
    ensures held { Holds result }
{
    Constant::Known(IntKind::Int, convert(i128::from(byte), IntKind::Char))
}

// The value in that type; without one a fault.
pub(crate) fn given(kind: IntKind, value: Option<i128>) -> Constant
    requires held { IfSome value (InRange kind) }
    ensures value { result ≡ given kind value }
    ensures held { Holds result }
{
    match value {
        Some(value) => Constant::Known(kind, value),
        None => Constant::Faulty(kind),
    }
}
