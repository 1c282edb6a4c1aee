// What operators make of two values of type int, which most are.

ghost use Rattle.std.specs.Prelude.{◌≡◌, ◌↔◌, IsTrue};
ghost use Rattle.c_base.specs.declared.place.IntKind.TheVariants.{Int};
ghost use Rattle.c_arith.specs.declared.ArithBinary.TheVariants.{Div, Rem, Shl, Shr};
ghost use Rattle.c_arith.specs.Arith.{InRange, fitted, truth, binary_result};
ghost use Rattle.c_meaning.specs.Operators.{integer, of_integers};
ghost use Rattle.c_compute.specs.Narrow.{is_narrow, given};

use c_base::place::IntKind;
use c_store::value::{Fault, Value};
use c_syntax::tree::BinaryOp;

/// Whether a value of the type becomes an int as an operand (C89, 3.2.1.1).
#[inline(always)]
pub(crate) fn is_narrow(kind: IntKind) -> bool
    ensures { result ≡ is_narrow kind }
{
    matches!(
        kind,
        IntKind::Char | IntKind::Short | IntKind::Int | IntKind::UChar | IntKind::UShort
    )
}

/// Whether the number is one of type int.
#[inline(always)]
pub(crate) fn is_int(number: i128) -> bool
    ensures { IsTrue result ↔ InRange Int number }
{
    -0x8000_0000 <= number && number <= 0x7fff_ffff
}

/// What the operator gives of two ints (C89, 3.3.5 to 3.3.12), or its fault.
#[inline(always)]
pub(crate) fn of_ints(op: BinaryOp, a: i32, b: i32) -> Result<Value, Fault>
    ensures { result ≡ of_integers op Int Int a b }
{
    match op {
        BinaryOp::Add => fitted(i64::from(a) + i64::from(b)),
        BinaryOp::Sub => fitted(i64::from(a) - i64::from(b)),
        BinaryOp::Mul => fitted(i64::from(a) * i64::from(b)),
        BinaryOp::Div => quotient(a, b),
        BinaryOp::Rem => remainder(a, b),
        BinaryOp::Lt => tested(a < b),
        BinaryOp::Gt => tested(a > b),
        BinaryOp::Le => tested(a <= b),
        BinaryOp::Ge => tested(a >= b),
        BinaryOp::Eq => tested(a == b),
        BinaryOp::Ne => tested(a != b),
        BinaryOp::BitAnd => int(a & b),
        BinaryOp::BitXor => int(a ^ b),
        BinaryOp::BitOr => int(a | b),
        BinaryOp::Shl => shifted_up(a, b),
        BinaryOp::Shr => shifted_down(a, b),
    }
}

// The number itself.
#[inline(always)]
fn int(number: i32) -> Result<Value, Fault>
    ensures { result ≡ given number }
{
    Ok(Value::Int(i128::from(number)))
}

// 1 where the test holds, and else 0.
#[inline(always)]
fn tested(test: bool) -> Result<Value, Fault>
    ensures { result ≡ given (truth test) }
{
    Ok(Value::Int(i128::from(test)))
}

// The exact number, or that int hasn't it.
#[inline(always)]
fn fitted(exact: i64) -> Result<Value, Fault>
    ensures { result ≡ integer (fitted Int exact) }
{
    if -0x8000_0000 <= exact && exact <= 0x7fff_ffff {
        Ok(Value::Int(i128::from(exact)))
    } else {
        Err(Fault::Overflow)
    }
}

// Rounded toward zero.
#[inline(always)]
fn quotient(a: i32, b: i32) -> Result<Value, Fault>
    ensures { result ≡ integer (binary_result Div Int a b) }
{
    if b == 0 {
        Err(Fault::DivideByZero)
    } else {
        fitted(i64::from(a) / i64::from(b))
    }
}

// With the dividend's sign; no value where the quotient has none.
#[inline(always)]
fn remainder(a: i32, b: i32) -> Result<Value, Fault>
    ensures { result ≡ integer (binary_result Rem Int a b) }
{
    if b == 0 {
        return Err(Fault::DivideByZero);
    }
    let (a, b) = (i64::from(a), i64::from(b));
    if a / b > 0x7fff_ffff {
        Err(Fault::Overflow)
    } else {
        Ok(Value::Int(i128::from(a % b)))
    }
}

// The bits moved up, within the width; a count from 0 up to below it.
#[inline(always)]
fn shifted_up(a: i32, b: i32) -> Result<Value, Fault>
    ensures { result ≡ integer (binary_result Shl Int a b) }
{
    if b < 0 {
        return Err(Fault::ShiftCount);
    }
    if b >= 32 {
        return Err(Fault::ShiftCount);
    }
    int(a << b as u32)
}

// The bits moved down, with the sign kept.
#[inline(always)]
fn shifted_down(a: i32, b: i32) -> Result<Value, Fault>
    ensures { result ≡ integer (binary_result Shr Int a b) }
{
    if b < 0 {
        return Err(Fault::ShiftCount);
    }
    if b >= 32 {
        return Err(Fault::ShiftCount);
    }
    int(a >> b as u32)
}
