//! What operators make of values (C89, 3.3).

ghost use Rattle.std.specs.Prelude.{◌≡◌};
ghost use Rattle.c_arith.specs.Arith.{wrap};
ghost use Rattle.c_syntax.specs.Shape.{TypeOf, int, pointer};
ghost use Rattle.c_syntax.specs.View.{type_of};
ghost use Rattle.c_type_rules.specs.Kinds.{decay};
ghost use Rattle.c_meaning.specs.Operators.{converted, is_true, fault_of, integer, of_integers, order_of, by_order, of_pointers, of_pointer_and_integer, of_integer_and_pointer, operated, stepped_by_one, element_pointer, promoted, of_one, target};
ghost use Rattle.c_compute.specs.Narrow.{direction};

use crate::ints::{is_int, is_narrow, of_ints};
use crate::pointers::{compared, differed, stepped, stepped_back};
use c_arith::{ArithFault, ArithUnary, convert};
use c_base::place::IntKind;
use c_constants::operators::{compute, compute_one};
use c_store::value::{Fault, Order, Pointer, Value};
use c_syntax::tree::{BinaryOp, CType, StepOp, UnaryOp};

/// The value in the type: an integer modulo 2 to its width (C89, 3.2.1.2), a null constant as a null pointer (3.2.2.3).
#[inline(always)]
pub fn converted(kind: &CType, value: Value) -> Value
    ensures { result ≡ converted (type_of kind.now) value }
{
    match (kind, value) {
        (CType::Int(kind), Value::Int(number)) => Value::Int(wrapped(*kind, number)),
        (CType::Pointer(_), Value::Int(_)) => Value::Null,
        _ => value,
    }
}

/// Whether the value compares unequal to 0 (C89, 3.3.13 and 3.6.4.1).
#[inline(always)]
pub fn is_true(value: Value) -> bool
    ensures { result ≡ is_true value }
{
    match value {
        Value::Int(number) => number != 0,
        Value::Null => false,
        Value::At(_) => true,
    }
}

/// The fault of a run that one of the arithmetic is.
pub fn fault_of(fault: ArithFault) -> Fault
    ensures { result ≡ fault_of fault }
{
    match fault {
        ArithFault::DivideByZero => Fault::DivideByZero,
        ArithFault::Overflow => Fault::Overflow,
        ArithFault::ShiftCount => Fault::ShiftCount,
    }
}

/// What the operator gives of values of two types, in which an array is a pointer (C89, 3.3.5 to 3.3.12), or its fault; no
/// result where these are no operands of it.
#[inline(always)]
pub fn operated(
    op: BinaryOp,
    left: &CType,
    right: &CType,
    v: Value,
    w: Value,
) -> Result<Value, Fault>
    ensures { result ≡ operated op (decay (type_of left.now)) (decay (type_of right.now)) v w }
{
    match (left, right, v, w) {
        (CType::Int(j), CType::Int(k), Value::Int(a), Value::Int(b)) => {
            of_numbers(op, *j, *k, a, b)
        }
        _ => apart(of_values(op, left, right, v, w)),
    }
}

/// `++` and `--`, before or behind their operand, add 1 to its value or take it away (C89, 3.3.2.4 and 3.3.3.1).
#[inline(always)]
pub fn stepped_by_one(step: StepOp, kind: &CType, value: Value) -> Result<Value, Fault>
    ensures { result ≡ stepped_by_one (direction step) (decay (type_of kind.now)) value }
{
    let (op, by) = match step {
        StepOp::PreInc | StepOp::PostInc => (BinaryOp::Add, 1),
        StepOp::PreDec | StepOp::PostDec => (BinaryOp::Sub, -1),
    };
    match (kind, value) {
        (CType::Int(kind), Value::Int(number)) => of_numbers(op, *kind, IntKind::Int, number, 1),
        (CType::Pointer(_) | CType::Array(_, _), _) => stepped(value, by),
        _ => Err(Fault::NoResult),
    }
}

/// The pointer to an element: a pointer and an integer, in either order (C89, 3.3.2.1).
#[inline(always)]
pub fn element(left: &CType, right: &CType, v: Value, w: Value) -> Result<Value, Fault>
    ensures { result ≡ element_pointer (decay (type_of left.now)) (decay (type_of right.now)) v w }
{
    match (left, right, w) {
        (CType::Pointer(_) | CType::Array(_, _), CType::Int(_), Value::Int(by)) => stepped(v, by),
        _ => apart(of_values(BinaryOp::Add, left, right, v, w)),
    }
}

/// What the operator in front of a value of that type gives, an array taken as a pointer (C89, 3.3.3.3), or its fault; no
/// result where this is no operand of it, and of `&` and `*`, which take places.
#[inline]
pub fn of_one(op: UnaryOp, kind: &CType, value: Value) -> Result<Value, Fault>
    ensures { result ≡ of_one op (decay (type_of kind.now)) value }
{
    match op {
        UnaryOp::Plus => promoted(ArithUnary::Plus, kind, value),
        UnaryOp::Minus => promoted(ArithUnary::Minus, kind, value),
        UnaryOp::Flip => promoted(ArithUnary::Flip, kind, value),
        UnaryOp::Not => Ok(Value::Int(i128::from(!is_true(value)))),
        UnaryOp::AddressOf | UnaryOp::Deref => Err(Fault::NoResult),
    }
}

/// The place that a pointer points to (C89, 3.3.3.2).
#[inline(always)]
pub fn target(value: Value) -> Result<Pointer, Fault>
    ensures { result ≡ target value }
{
    match value {
        Value::At(place) => Ok(place),
        Value::Null => Err(Fault::Null),
        Value::Int(_) => Err(Fault::NoResult),
    }
}

// ---- integers

// The number modulo 2 to the type's width; an int stays.
#[inline(always)]
fn wrapped(kind: IntKind, number: i128) -> i128
    ensures { result ≡ wrap kind number }
{
    match kind {
        IntKind::Int if is_int(number) => number,
        kind => convert(number, kind),
    }
}

// The number, or the fault of the arithmetic.
fn integer(given: Result<i128, ArithFault>) -> Result<Value, Fault>
    ensures { result ≡ integer given }
{
    match given {
        Ok(number) => Ok(Value::Int(number)),
        Err(fault) => Err(fault_of(fault)),
    }
}

/// What the operator gives of two integers of these types (C89, 3.3.5 to 3.3.12), or its fault; at once where both become ints.
#[inline(always)]
pub fn of_numbers(
    op: BinaryOp,
    left: IntKind,
    right: IntKind,
    a: i128,
    b: i128,
) -> Result<Value, Fault>
    ensures { result ≡ of_integers op left right a b }
{
    if is_narrow(left) && is_narrow(right) && is_int(a) && is_int(b) {
        of_ints(op, a as i32, b as i32)
    } else {
        apart(of_integers(op, left, right, a, b))
    }
}

// The result of a call, taken apart: so what is worked out at once needs no room in memory.
#[inline(always)]
pub(crate) fn apart(given: Result<Value, Fault>) -> Result<Value, Fault>
    ensures { result ≡ given }
{
    match given {
        Ok(Value::Int(number)) => Ok(Value::Int(number)),
        Ok(Value::Null) => Ok(Value::Null),
        Ok(Value::At(place)) => Ok(Value::At(place)),
        Err(fault) => Err(fault),
    }
}

// The same in every type.
#[inline(never)]
pub(crate) fn of_integers(
    op: BinaryOp,
    left: IntKind,
    right: IntKind,
    a: i128,
    b: i128,
) -> Result<Value, Fault>
    ensures { result ≡ of_integers op left right a b }
{
    integer(compute(op, left, right, a, b))
}

// An operator that computes in the promoted type.
fn promoted(op: ArithUnary, kind: &CType, value: Value) -> Result<Value, Fault>
    ensures { result ≡ promoted op (decay (type_of kind.now)) value }
{
    match (kind, value) {
        (CType::Int(kind), Value::Int(number)) => integer(compute_one(op, *kind, number)),
        _ => Err(Fault::NoResult),
    }
}

// ---- pointers

// The operator on values that aren't two integers of integer types.
#[inline(never)]
fn of_values(op: BinaryOp, left: &CType, right: &CType, v: Value, w: Value) -> Result<Value, Fault>
    ensures { result ≡ operated op (decay (type_of left.now)) (decay (type_of right.now)) v w }
{
    match (left, right) {
        (CType::Int(j), CType::Int(k)) => of_two_integers(op, *j, *k, v, w),
        (CType::Int(_), CType::Pointer(_) | CType::Array(_, _)) => of_integer_and_pointer(op, v, w),
        (CType::Pointer(_) | CType::Array(_, _), CType::Int(_)) => of_pointer_and_integer(op, v, w),
        (CType::Pointer(_) | CType::Array(_, _), CType::Pointer(_) | CType::Array(_, _)) =>
            of_pointers(op, v, w),
        _ => Err(Fault::NoResult),
    }
}

fn of_two_integers(
    op: BinaryOp,
    left: IntKind,
    right: IntKind,
    v: Value,
    w: Value,
) -> Result<Value, Fault>
    ensures { result ≡ operated op (int left) (int right) v w }
{
    match (v, w) {
        (Value::Int(a), Value::Int(b)) => of_integers(op, left, right, a, b),
        _ => Err(Fault::NoResult),
    }
}

// The order that a comparison tests.
fn order_of(op: BinaryOp) -> Option<Order>
    ensures { result ≡ order_of op }
{
    match op {
        BinaryOp::Lt => Some(Order::Lt),
        BinaryOp::Gt => Some(Order::Gt),
        BinaryOp::Le => Some(Order::Le),
        BinaryOp::Ge => Some(Order::Ge),
        BinaryOp::Eq => Some(Order::Eq),
        BinaryOp::Ne => Some(Order::Ne),
        BinaryOp::Mul
        | BinaryOp::Div
        | BinaryOp::Rem
        | BinaryOp::Add
        | BinaryOp::Sub
        | BinaryOp::Shl
        | BinaryOp::Shr
        | BinaryOp::BitAnd
        | BinaryOp::BitXor
        | BinaryOp::BitOr => None,
    }
}

// Two pointers compared; no result of another operator.
fn by_order(order: Option<Order>, v: Value, w: Value) -> Result<Value, Fault>
    ensures { result ≡ by_order order v w }
{
    match order {
        Some(order) => match compared(order, v, w) {
            Ok(test) => Ok(Value::Int(i128::from(test))),
            Err(fault) => Err(fault),
        },
        None => Err(Fault::NoResult),
    }
}

fn of_pointers(op: BinaryOp, v: Value, w: Value) -> Result<Value, Fault>
    ensures { result ≡ of_pointers op v w }
{
    match op {
        BinaryOp::Sub => match differed(v, w) {
            Ok(distance) => Ok(Value::Int(distance)),
            Err(fault) => Err(fault),
        },
        _ => by_order(order_of(op), v, w),
    }
}

// A pointer moved by an integer, or compared with a null constant.
fn of_pointer_and_integer(op: BinaryOp, v: Value, w: Value) -> Result<Value, Fault>
    ensures { (t : TypeOf) → result ≡ of_pointer_and_integer op (pointer t) v w }
{
    match (op, w) {
        (BinaryOp::Add, Value::Int(by)) => stepped(v, by),
        (BinaryOp::Sub, Value::Int(by)) => stepped_back(v, by),
        _ => by_order(order_of(op), v, as_pointer(w)),
    }
}

fn of_integer_and_pointer(op: BinaryOp, v: Value, w: Value) -> Result<Value, Fault>
    ensures { (t : TypeOf) → result ≡ of_integer_and_pointer op (pointer t) v w }
{
    match (op, v) {
        (BinaryOp::Add, Value::Int(by)) => stepped(w, by),
        _ => by_order(order_of(op), as_pointer(v), w),
    }
}

// An integer beside a pointer is a null constant.
fn as_pointer(value: Value) -> Value
    ensures { (t : TypeOf) → result ≡ converted (pointer t) value }
{
    match value {
        Value::Int(_) => Value::Null,
        Value::Null | Value::At(_) => value,
    }
}
