//! The integer arithmetic of C (C89, 3.2.1 and 3.3): conversions, and the operators with their faults.
#![tactic(auto)]

ghost use Rattle.std.specs.Prelude.{◌≡◌, ℤ, pos, ◌+ℤ◌, ◌*ℤ◌, ◌-◌, ◌^◌, ◌<◌, IfOk};
ghost use Rattle.c_arith.specs.Arith.{width, least, greatest, InRange, IsPromoted, IsComparison, Divides, RightFits, pattern, value_of, wrap, truth, overflows, fitted, shift_count, IsTruth, unary_result, binary_result};

use c_base::place::IntKind;

/// The operators of one operand (C89, 3.3.3.3).
#[derive(Clone, Copy, Debug, PartialEq, Eq)]
pub enum ArithUnary {
    Plus,
    Minus,
    Flip,
    Not,
}

/// The operators of two operands (C89, 3.3.5 to 3.3.12).
#[derive(Clone, Copy, Debug, PartialEq, Eq)]
pub enum ArithBinary {
    Add,
    Sub,
    Mul,
    Div,
    Rem,
    Shl,
    Shr,
    And,
    Or,
    Xor,
    Lt,
    Gt,
    Le,
    Ge,
    Eq,
    Ne,
}

/// Why an operation gives no value.
#[derive(Clone, Copy, Debug, PartialEq, Eq)]
pub enum ArithFault {
    DivideByZero,
    Overflow,
    ShiftCount,
}

/// The value of the kind that equals this one modulo 2 to the kind's width (C89, 3.2.1.2).
#[inline]
pub fn convert(value: i128, to: IntKind) -> i128
    ensures value { result ≡ wrap to value }
    ensures in_range { InRange to result }
    ensures congruent { (m : ℤ) × (value ≡ (result +ℤ m *ℤ pos (2 ^ width to))) }
    ensures only { (z m : ℤ) → InRange to z → value ≡ (z +ℤ m *ℤ pos (2 ^ width to)) → z ≡ result }
{
    value_of(pattern(value, to), to)
}

/// What the operator gives, or why it gives no value (C89, 3.3.3.3).
#[inline]
pub fn unary(op: ArithUnary, kind: IntKind, a: i128) -> Result<i128, ArithFault>
    requires promoted { IsPromoted kind }
    requires operand { InRange kind a }
    ensures value { result ≡ unary_result op kind a }
    ensures in_range { IfOk result (InRange kind) }
    ensures truth { op ≡ ArithUnary.Not → IfOk result IsTruth }
{
    match op {
        ArithUnary::Plus => Ok(a),
        ArithUnary::Minus => fitted(kind, -a),
        ArithUnary::Flip => Ok(value_of(mask(kind) - pattern(a, kind), kind)),
        ArithUnary::Not => Ok(truth(a == 0)),
    }
}

/// What the operator gives, or why it gives no value (C89, 3.3.5 to 3.3.12).
#[inline]
pub fn binary(op: ArithBinary, kind: IntKind, a: i128, b: i128) -> Result<i128, ArithFault>
    requires promoted { IsPromoted kind }
    requires left { InRange kind a }
    requires right { RightFits op kind b }
    ensures value { result ≡ binary_result op kind a b }
    ensures in_range { IfOk result (InRange kind) }
    ensures truth { IsComparison op → IfOk result IsTruth }
    ensures division { Divides op a b result }
{
    match op {
        ArithBinary::Add => fitted(kind, a + b),
        ArithBinary::Sub => fitted(kind, a - b),
        ArithBinary::Mul => product(kind, a, b),
        ArithBinary::Div => quotient(kind, a, b),
        ArithBinary::Rem => remainder(kind, a, b),
        ArithBinary::Shl => shifted_up(kind, a, b),
        ArithBinary::Shr => shifted_down(kind, a, b),
        ArithBinary::And => Ok(value_of(pattern(a, kind) & pattern(b, kind), kind)),
        ArithBinary::Or => Ok(value_of(pattern(a, kind) | pattern(b, kind), kind)),
        ArithBinary::Xor => Ok(value_of(pattern(a, kind) ^ pattern(b, kind), kind)),
        ArithBinary::Lt => Ok(truth(a < b)),
        ArithBinary::Gt => Ok(truth(a > b)),
        ArithBinary::Le => Ok(truth(a <= b)),
        ArithBinary::Ge => Ok(truth(a >= b)),
        ArithBinary::Eq => Ok(truth(a == b)),
        ArithBinary::Ne => Ok(truth(a != b)),
    }
}

// 1 where the test holds, and else 0.
fn truth(test: bool) -> i128
    ensures { result ≡ truth test }
{
    if test { 1 } else { 0 }
}

// The value of the exact number, or that a signed kind hasn't the number.
fn fitted(kind: IntKind, exact: i128) -> Result<i128, ArithFault>
    ensures { result ≡ fitted kind exact }
{
    if overflows(kind, exact) {
        Err(ArithFault::Overflow)
    } else {
        Ok(convert(exact, kind))
    }
}

// Whether the kind is signed and hasn't the number.
fn overflows(kind: IntKind, exact: i128) -> bool
    ensures { result ≡ overflows kind exact }
{
    let least = least(kind);
    least < 0 && (exact < least || greatest(kind) < exact)
}

// A product of two unsigned longs may pass an i128, which wraps at a multiple of their 2 ^ 64.
fn product(kind: IntKind, a: i128, b: i128) -> Result<i128, ArithFault>
    requires left { InRange kind a }
    requires right { InRange kind b }
    ensures { result ≡ fitted kind (a *ℤ b) }
{
    fitted(kind, a.wrapping_mul(b))
}

// Rounded toward zero.
fn quotient(kind: IntKind, a: i128, b: i128) -> Result<i128, ArithFault>
    requires left { InRange kind a }
    requires right { InRange kind b }
    ensures { result ≡ binary_result ArithBinary.Div kind a b }
{
    if b == 0 {
        Err(ArithFault::DivideByZero)
    } else {
        fitted(kind, a / b)
    }
}

// With the dividend's sign; no value where the quotient has none.
fn remainder(kind: IntKind, a: i128, b: i128) -> Result<i128, ArithFault>
    requires left { InRange kind a }
    requires right { InRange kind b }
    ensures { result ≡ binary_result ArithBinary.Rem kind a b }
{
    if b == 0 {
        Err(ArithFault::DivideByZero)
    } else if overflows(kind, a / b) {
        Err(ArithFault::Overflow)
    } else {
        Ok(a % b)
    }
}

// The bits moved up, within the width.
fn shifted_up(kind: IntKind, a: i128, b: i128) -> Result<i128, ArithFault>
    ensures { result ≡ binary_result ArithBinary.Shl kind a b }
{
    let count = shift_count(kind, b)?;
    Ok(value_of((pattern(a, kind) << count) & mask(kind), kind))
}

// The bits moved down, with the sign kept.
fn shifted_down(kind: IntKind, a: i128, b: i128) -> Result<i128, ArithFault>
    ensures { result ≡ binary_result ArithBinary.Shr kind a b }
{
    let count = shift_count(kind, b)?;
    Ok(a >> count)
}

// How far a shift by b goes.
fn shift_count(kind: IntKind, b: i128) -> Result<u32, ArithFault>
    ensures value { result ≡ shift_count kind b }
    ensures below { IfOk result (λ count. count < width kind) }
{
    if b < 0 || width(kind) <= b {
        Err(ArithFault::ShiftCount)
    } else {
        Ok(b as u32)
    }
}

// The bits of the value at the kind's width.
fn pattern(value: i128, kind: IntKind) -> u64
    ensures { result ≡ pattern kind value }
{
    (value & mask(kind) as i128) as u64
}

// The value that the bits stand for.
fn value_of(bits: u64, kind: IntKind) -> i128
    requires { bits < 2 ^ width kind }
    ensures { result ≡ value_of kind bits }
{
    let value = bits as i128;
    if value > greatest(kind) {
        value - mask(kind) as i128 - 1
    } else {
        value
    }
}

// All bits of the kind.
fn mask(kind: IntKind) -> u64
    ensures { result ≡ 2 ^ width kind - 1 }
{
    (greatest(kind) - least(kind)) as u64
}

// How many bits the kind has.
fn width(kind: IntKind) -> i128
    ensures { result ≡ pos (width kind) }
{
    match kind {
        IntKind::Char | IntKind::UChar => 8,
        IntKind::Short | IntKind::UShort => 16,
        IntKind::Int | IntKind::UInt => 32,
        IntKind::Long | IntKind::ULong => 64,
    }
}

// The least value of the kind.
fn least(kind: IntKind) -> i128
    ensures { result ≡ least kind }
{
    match kind {
        IntKind::Char => -0x80,
        IntKind::Short => -0x8000,
        IntKind::Int => -0x8000_0000,
        IntKind::Long => -0x8000_0000_0000_0000,
        IntKind::UChar | IntKind::UShort | IntKind::UInt | IntKind::ULong => 0,
    }
}

// The greatest value of the kind.
fn greatest(kind: IntKind) -> i128
    ensures { result ≡ greatest kind }
{
    match kind {
        IntKind::Char => 0x7f,
        IntKind::Short => 0x7fff,
        IntKind::Int => 0x7fff_ffff,
        IntKind::Long => 0x7fff_ffff_ffff_ffff,
        IntKind::UChar => 0xff,
        IntKind::UShort => 0xffff,
        IntKind::UInt => 0xffff_ffff,
        IntKind::ULong => 0xffff_ffff_ffff_ffff,
    }
}
