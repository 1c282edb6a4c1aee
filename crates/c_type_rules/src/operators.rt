// The operators between two operands, and those that change their left one.

ghost use Rattle.std.specs.Prelude.{◌≡◌};
ghost use Rattle.c_syntax.specs.View.{type_of};
ghost use Rattle.c_type_rules.specs.Kinds.{type_in};
ghost use Rattle.c_type_rules.specs.Verdicts.{verdict_of, arithmetic_type, shift_type, sum_type, difference_type, order_type, equality_type, values_type, binary_type};

use crate::judged::{Judged, Operand, int_if, null_for};
use crate::kinds::{common, decayed, promoted, same};
use c_base::place::IntKind;
use c_syntax::tree::{BinaryOp, CType};

/// The operator between two operands (C89, 3.3.5 to 3.3.12), arrays taken as pointers to their first elements.
///
/// - `* / % & ^ |`: two integers, in their common type.
/// - `<< >>`: two integers, in the left one's promoted type.
/// - `+`: two integers; a pointer and an integer, in either order, which give the pointer's type.
/// - `-`: two integers; a pointer and then an integer; two pointers to equal types, which give long.
/// - `< > <= >=`: two integers, or two pointers to equal types, which give int.
/// - `== !=`: the same, or a pointer and a null constant.
pub fn binary(op: BinaryOp, left: Operand, right: Operand) -> Judged
    ensures { verdict_of result ≡ binary_type op (type_in left.kind) left.null (type_in right.kind) right.null }
{
    match (left.kind, right.kind) {
        (Some(a), Some(b)) => of_values(op, decayed(a), left.null, decayed(b), right.null),
        _ => Judged::Unknown,
    }
}

// The operator between two values.
fn of_values(op: BinaryOp, a: CType, a_null: bool, b: CType, b_null: bool) -> Judged
    ensures { verdict_of result ≡ values_type op (type_of a) a_null (type_of b) b_null }
{
    match op {
        BinaryOp::Mul
        | BinaryOp::Div
        | BinaryOp::Rem
        | BinaryOp::BitAnd
        | BinaryOp::BitXor
        | BinaryOp::BitOr => arithmetic(a, b),
        BinaryOp::Shl | BinaryOp::Shr => shift(a, b),
        BinaryOp::Add => sum(a, b),
        BinaryOp::Sub => difference(a, b),
        BinaryOp::Lt | BinaryOp::Gt | BinaryOp::Le | BinaryOp::Ge => order(a, b),
        BinaryOp::Eq | BinaryOp::Ne => equality(a, a_null, b, b_null),
    }
}

// Two integers, in their common type.
fn arithmetic(a: CType, b: CType) -> Judged
    ensures { verdict_of result ≡ arithmetic_type (type_of a) (type_of b) }
{
    match (a, b) {
        (CType::Int(a), CType::Int(b)) => Judged::Fine(CType::Int(common(a, b))),
        _ => Judged::Wrong,
    }
}

// Two integers, in the left one's promoted type.
fn shift(a: CType, b: CType) -> Judged
    ensures { verdict_of result ≡ shift_type (type_of a) (type_of b) }
{
    match (a, b) {
        (CType::Int(a), CType::Int(_)) => Judged::Fine(CType::Int(promoted(a))),
        _ => Judged::Wrong,
    }
}

// Integers, or a pointer and an integer.
fn sum(a: CType, b: CType) -> Judged
    ensures { verdict_of result ≡ sum_type (type_of a) (type_of b) }
{
    match (a, b) {
        (CType::Pointer(to), CType::Int(_)) => Judged::Fine(CType::Pointer(to)),
        (CType::Int(_), CType::Pointer(to)) => Judged::Fine(CType::Pointer(to)),
        (a, b) => arithmetic(a, b),
    }
}

// Integers, a pointer less an integer, or two pointers to equal types.
fn difference(a: CType, b: CType) -> Judged
    ensures { verdict_of result ≡ difference_type (type_of a) (type_of b) }
{
    match (a, b) {
        (CType::Pointer(to), CType::Int(_)) => Judged::Fine(CType::Pointer(to)),
        (CType::Pointer(a), CType::Pointer(b)) => int_if(same(&a, &b), IntKind::Long),
        (a, b) => arithmetic(a, b),
    }
}

// Integers, or two pointers to equal types.
fn order(a: CType, b: CType) -> Judged
    ensures { verdict_of result ≡ order_type (type_of a) (type_of b) }
{
    match (a, b) {
        (CType::Int(_), CType::Int(_)) => Judged::Fine(CType::Int(IntKind::Int)),
        (CType::Pointer(a), CType::Pointer(b)) => int_if(same(&a, &b), IntKind::Int),
        _ => Judged::Wrong,
    }
}

// The same, or a pointer and a null constant.
fn equality(a: CType, a_null: bool, b: CType, b_null: bool) -> Judged
    ensures { verdict_of result ≡ equality_type (type_of a) a_null (type_of b) b_null }
{
    if null_for(a_null, &a, &b) || null_for(b_null, &b, &a) {
        Judged::Fine(CType::Int(IntKind::Int))
    } else {
        order(a, b)
    }
}
