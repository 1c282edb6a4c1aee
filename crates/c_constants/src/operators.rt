// The operators of constant expressions (C89, 3.4).

ghost use Rattle.std.specs.Prelude.{◌≡◌, true, IfSome, option_map};
ghost use Rattle.c_base.specs.declared.place.IntKind.TheVariants.{Int};
ghost use Rattle.c_arith.specs.Arith.{InRange, IsPromoted, RightFits, wrap, unary_result, binary_result};
ghost use Rattle.c_type_rules.specs.Kinds.{promote};
ghost use Rattle.c_syntax.specs.View.{type_of};
ghost use Rattle.c_constants.specs.Constants.{unary, binary, both, either, choice, cast, address, arithmetic, unary_kind, unary_value, arith_of, is_shift, is_comparison, computing_kind, result_kind, right_operand, binary_value, of_both, truth_value, given, Holds};

use crate::constants::{Constant, given, kind_of, value};
use c_arith::{ArithBinary, ArithFault, ArithUnary, convert};
use c_base::place::IntKind;
use c_syntax::tree::{BinaryOp, CType, UnaryOp};
use c_type_rules::kinds::{common, promoted};

/// The operator in front of an operand (C89, 3.3.3.2 and 3.3.3.3): `+ - ~` in the promoted type, `!` as an int; `&` of a
/// variable or a part of one is an address; `*` is no constant.
pub fn unary(op: UnaryOp, a: Constant) -> Constant
    ensures value { result ≡ unary op a }
    ensures held { Holds result }
{
    match op {
        UnaryOp::Plus => arithmetic(ArithUnary::Plus, a),
        UnaryOp::Minus => arithmetic(ArithUnary::Minus, a),
        UnaryOp::Flip => arithmetic(ArithUnary::Flip, a),
        UnaryOp::Not => arithmetic(ArithUnary::Not, a),
        UnaryOp::AddressOf => address(a),
        UnaryOp::Deref => Constant::No,
    }
}

// The operator on a constant expression.
fn arithmetic(op: ArithUnary, a: Constant) -> Constant
    ensures value { result ≡ arithmetic op a }
    ensures held { Holds result }
{
    match a {
        Constant::Known(kind, value) => {
            given(unary_kind(op, kind), unary_value(op, promoted(kind), value))
        }
        Constant::Faulty(kind) => Constant::Faulty(unary_kind(op, kind)),
        _ => Constant::No,
    }
}

// The type of the result.
fn unary_kind(op: ArithUnary, kind: IntKind) -> IntKind
    ensures { result ≡ unary_kind op kind }
{
    match op {
        ArithUnary::Not => IntKind::Int,
        _ => promoted(kind),
    }
}

// The value of the result, unless there is a fault.
fn unary_value(op: ArithUnary, kind: IntKind, value: i128) -> Option<i128>
    requires { IsPromoted kind }
    ensures value { result ≡ unary_value op kind value }
    ensures held { IfSome result (InRange kind) }
    ensures truth { op ≡ ArithUnary.Not → IfSome result (InRange Int) }
{
    c_arith::unary(op, kind, convert(value, kind)).ok()
}

// The address of a variable or a part.
fn address(a: Constant) -> Constant
    ensures value { result ≡ address a }
    ensures held { Holds result }
{
    match a {
        Constant::Variable | Constant::Part => Constant::Address,
        _ => Constant::No,
    }
}

/// The operator between two constant expressions (C89, 3.3.5 to 3.3.12), in the type where they meet; a shift in the left
/// one's promoted type; comparisons give an int. A fault in an operand or in the operation is one of the whole.
pub fn binary(op: BinaryOp, a: Constant, b: Constant) -> Constant
    ensures value { result ≡ binary op a b }
    ensures held { Holds result }
{
    match (kind_of(a), kind_of(b)) {
        (Some(left), Some(right)) => {
            let kind = computing_kind(op, left, right);
            let computed = computed(op, kind, value(a), value(b));
            given(result_kind(op, left, right), computed)
        }
        _ => Constant::No,
    }
}

// The value of the result, unless there is a fault in it or in an operand.
fn computed(op: BinaryOp, kind: IntKind, left: Option<i128>, right: Option<i128>) -> Option<i128>
    requires { IsPromoted kind }
    ensures value { result ≡ of_both (binary_value op kind) left right }
    ensures held { IfSome result (InRange kind) }
    ensures truth { is_comparison op ≡ true → IfSome result (InRange Int) }
{
    match (left, right) {
        (Some(left), Some(right)) => binary_value(op, kind, left, right),
        _ => None,
    }
}

// The type in which it computes.
fn computing_kind(op: BinaryOp, left: IntKind, right: IntKind) -> IntKind
    ensures value { result ≡ computing_kind op left right }
    ensures promoted { IsPromoted result }
{
    if is_shift(op) {
        promoted(left)
    } else {
        common(left, right)
    }
}

// The type of the result.
fn result_kind(op: BinaryOp, left: IntKind, right: IntKind) -> IntKind
    ensures { result ≡ result_kind op left right }
{
    if is_comparison(op) {
        IntKind::Int
    } else {
        computing_kind(op, left, right)
    }
}

// The value of the result, unless there is a fault.
fn binary_value(op: BinaryOp, kind: IntKind, left: i128, right: i128) -> Option<i128>
    requires { IsPromoted kind }
    ensures value { result ≡ binary_value op kind left right }
    ensures held { IfSome result (InRange kind) }
    ensures truth { is_comparison op ≡ true → IfSome result (InRange Int) }
{
    let left = convert(left, kind);
    let right = right_operand(op, kind, right);
    c_arith::binary(arith_of(op), kind, left, right).ok()
}

/// What the operator gives of two integers of these types (C89, 3.3.5 to 3.3.12), or its fault.
pub fn compute(
    op: BinaryOp,
    left: IntKind,
    right: IntKind,
    a: i128,
    b: i128,
) -> Result<i128, ArithFault>
    ensures { result ≡ binary_result (arith_of op) (computing_kind op left right) (wrap (computing_kind op left right) a) (right_operand op (computing_kind op left right) b) }
{
    let kind = computing_kind(op, left, right);
    let a = convert(a, kind);
    let b = right_operand(op, kind, b);
    c_arith::binary(arith_of(op), kind, a, b)
}

/// What an operator in front of an integer of that type gives (C89, 3.3.3.3), or its fault.
pub fn compute_one(op: ArithUnary, kind: IntKind, a: i128) -> Result<i128, ArithFault>
    ensures { result ≡ unary_result op (promote kind) (wrap (promote kind) a) }
{
    let kind = promoted(kind);
    let a = convert(a, kind);
    c_arith::unary(op, kind, a)
}

// The right operand, which a shift takes as it is.
#[tactic(auto, using(crate::proofs::Held::shift_fits, crate::proofs::Held::right_fits))]
fn right_operand(op: BinaryOp, kind: IntKind, right: i128) -> i128
    ensures value { result ≡ right_operand op kind right }
    ensures fits { RightFits (arith_of op) kind result }
{
    if is_shift(op) {
        right
    } else {
        convert(right, kind)
    }
}

fn is_shift(op: BinaryOp) -> bool
    ensures { result ≡ is_shift op }
{
    matches!(op, BinaryOp::Shl | BinaryOp::Shr)
}

fn is_comparison(op: BinaryOp) -> bool
    ensures { result ≡ is_comparison op }
{
    matches!(
        op,
        BinaryOp::Lt | BinaryOp::Gt | BinaryOp::Le | BinaryOp::Ge | BinaryOp::Eq | BinaryOp::Ne
    )
}

fn arith_of(op: BinaryOp) -> ArithBinary
    ensures { result ≡ arith_of op }
{
    match op {
        BinaryOp::Mul => ArithBinary::Mul,
        BinaryOp::Div => ArithBinary::Div,
        BinaryOp::Rem => ArithBinary::Rem,
        BinaryOp::Add => ArithBinary::Add,
        BinaryOp::Sub => ArithBinary::Sub,
        BinaryOp::Shl => ArithBinary::Shl,
        BinaryOp::Shr => ArithBinary::Shr,
        BinaryOp::Lt => ArithBinary::Lt,
        BinaryOp::Gt => ArithBinary::Gt,
        BinaryOp::Le => ArithBinary::Le,
        BinaryOp::Ge => ArithBinary::Ge,
        BinaryOp::Eq => ArithBinary::Eq,
        BinaryOp::Ne => ArithBinary::Ne,
        BinaryOp::BitAnd => ArithBinary::And,
        BinaryOp::BitXor => ArithBinary::Xor,
        BinaryOp::BitOr => ArithBinary::Or,
    }
}

/// `&&` (C89, 3.3.13): an int; the second operand is evaluated, and its fault counts, only where the first isn't 0.
pub fn both(a: Constant, b: Constant) -> Constant
    ensures value { result ≡ both a b }
    ensures held { Holds result }
{
    match (kind_of(a), kind_of(b)) {
        (Some(_), Some(_)) => match value(a) {
            Some(0) => Constant::Known(IntKind::Int, 0),
            Some(_) => truth_of(value(b)),
            None => Constant::Faulty(IntKind::Int),
        },
        _ => Constant::No,
    }
}

/// `||` (C89, 3.3.14): an int; the second operand is evaluated, and its fault counts, only where the first is 0.
pub fn either(a: Constant, b: Constant) -> Constant
    ensures value { result ≡ either a b }
    ensures held { Holds result }
{
    match (kind_of(a), kind_of(b)) {
        (Some(_), Some(_)) => match value(a) {
            Some(0) => truth_of(value(b)),
            Some(_) => Constant::Known(IntKind::Int, 1),
            None => Constant::Faulty(IntKind::Int),
        },
        _ => Constant::No,
    }
}

// 1 for another value than 0, as an int.
fn truth_of(value: Option<i128>) -> Constant
    ensures value { result ≡ given Int (option_map truth_value value) }
    ensures held { Holds result }
{
    match value {
        Some(0) => Constant::Known(IntKind::Int, 0),
        Some(_) => Constant::Known(IntKind::Int, 1),
        None => Constant::Faulty(IntKind::Int),
    }
}

/// `?:` (C89, 3.3.15): the second operand if the test isn't 0, else the third, in the type where the two meet; a fault of the
/// other one doesn't count.
pub fn choice(test: Constant, a: Constant, b: Constant) -> Constant
    ensures value { result ≡ choice test a b }
    ensures held { Holds result }
{
    match (kind_of(test), kind_of(a), kind_of(b)) {
        (Some(_), Some(left), Some(right)) => {
            let kind = common(left, right);
            match value(test) {
                Some(0) => converted(kind, value(b)),
                Some(_) => converted(kind, value(a)),
                None => Constant::Faulty(kind),
            }
        }
        _ => Constant::No,
    }
}

/// A cast (C89, 3.3.4): to an integer type.
pub fn cast(to: &CType, a: Constant) -> Constant
    ensures value { result ≡ cast (type_of to.now) a }
    ensures held { Holds result }
{
    match (to, kind_of(a)) {
        (CType::Int(kind), Some(_)) => converted(*kind, value(a)),
        _ => Constant::No,
    }
}

// The value converted to that type; without one a fault.
fn converted(kind: IntKind, value: Option<i128>) -> Constant
    ensures value { result ≡ given kind (option_map (wrap kind) value) }
    ensures held { Holds result }
{
    match value {
        Some(value) => Constant::Known(kind, convert(value, kind)),
        None => Constant::Faulty(kind),
    }
}
