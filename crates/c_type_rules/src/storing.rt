// What is stored in an object: assignments, and what goes as one.

ghost use Rattle.std.specs.Prelude.{◌≡◌};
ghost use Rattle.c_syntax.specs.View.{type_of};
ghost use Rattle.c_type_rules.specs.Kinds.{type_in};
ghost use Rattle.c_type_rules.specs.Verdicts.{verdict_of, stored_type, fits_type, is_copy, assigned_type, changed_type, compound_type, moves, step_type, scalar_type, is_probed, probed_type, parameter_type, result_type};

use crate::judged::{Judged, Operand, fine_if, null_for};
use crate::kinds::{decayed, is_integer, is_scalar, is_structure, same};
use c_syntax::tree::{BinaryOp, CType};

/// Whether the value fits into an object of that type, which is then the type of `=` (C89, 3.3.16.1): an integer into an
/// integer, a pointer into a pointer of the equal type, a null constant into a pointer. So an argument goes into its
/// parameter, a value that is returned into the function's result, an initialiser into its object (C89, 3.3.2.2, 3.6.6.4,
/// 3.5.7). Nothing fits into an array, a structure or a void.
pub fn fits(to: Option<CType>, value: Operand) -> Judged
    ensures { verdict_of result ≡ fits_type (type_in to) (type_in value.kind) value.null }
{
    match (to, value.kind) {
        (Some(to), Some(kind)) => stored(to, decayed(kind), value.null),
        _ => Judged::Unknown,
    }
}

// Whether the value fits.
fn stored(to: CType, value: CType, null: bool) -> Judged
    ensures { verdict_of result ≡ stored_type (type_of to) (type_of value) null }
{
    match to {
        CType::Int(_) => fine_if(is_integer(&value), to),
        CType::Pointer(_) => {
            let fits = null_for(null, &value, &to) || same(&to, &value);
            fine_if(fits, to)
        }
        _ => Judged::Wrong,
    }
}

/// The type of `=` (C89, 3.3.16.1): what fits is stored, and has the type of the left side; one structure on both sides is
/// copied, if a place stands to the right, and gives no value.
pub fn assigned(to: Option<CType>, value: Operand, place: bool) -> Judged
    ensures { verdict_of result ≡ assigned_type (type_in to) (type_in value.kind) value.null place }
{
    match (to, value.kind) {
        (Some(to), Some(kind)) => {
            if is_copy(&to, &kind, place) {
                Judged::Fine(CType::Void)
            } else {
                stored(to, decayed(kind), value.null)
            }
        }
        _ => Judged::Unknown,
    }
}

// One structure on both sides, a place to the right.
fn is_copy(to: &CType, kind: &CType, place: bool) -> bool
    ensures { result ≡ is_copy (type_of to.now) (type_of kind.now) place }
{
    match (to, kind) {
        (CType::Struct(m), CType::Struct(n)) => *m == *n && place,
        _ => false,
    }
}

/// `a op= b`, which is `a = a op b` (C89, 3.3.16.2): two integers, or for `+=` and `-=` a pointer and an integer; it has the
/// left side's type.
pub fn compound(op: BinaryOp, left: Option<CType>, right: Option<CType>) -> Judged
    ensures { verdict_of result ≡ compound_type op (type_in left) (type_in right) }
{
    match (left, right) {
        (Some(a), Some(b)) => changed(op, a, b),
        _ => Judged::Unknown,
    }
}

// The left side, changed by the right one.
#[tactic(auto, using(crate::proofs::Steps::changed_pointer))]
fn changed(op: BinaryOp, a: CType, b: CType) -> Judged
    ensures { verdict_of result ≡ changed_type op (type_of a) (type_of b) }
{
    match a {
        CType::Int(_) => fine_if(is_integer(&b), a),
        CType::Pointer(_) => {
            let moves = moves(op, &b);
            fine_if(moves, a)
        }
        _ => Judged::Wrong,
    }
}

// Whether the operator moves a pointer, and what it moves by is an integer.
fn moves(op: BinaryOp, by: &CType) -> bool
    ensures { result ≡ moves op (type_of by.now) }
{
    match op {
        BinaryOp::Add | BinaryOp::Sub => is_integer(by),
        _ => false,
    }
}

/// `++` and `--`, which are `+= 1` and `-= 1` (C89, 3.3.2.4 and 3.3.3.1): an integer or a pointer, which keeps its type.
#[tactic(auto, using(crate::proofs::Steps::stepped_scalar))]
pub fn stepped(kind: Option<CType>) -> Judged
    ensures { verdict_of result ≡ step_type (type_in kind) }
{
    scalar_place(kind)
}

/// A place that holds a scalar (C89, 3.1.2.5): its type.
pub fn scalar_place(kind: Option<CType>) -> Judged
    ensures { verdict_of result ≡ scalar_type (type_in kind) }
{
    match kind {
        None => Judged::Unknown,
        Some(kind) => {
            let is_scalar = is_scalar(&kind);
            fine_if(is_scalar, kind)
        }
    }
}

/// What the probes of uses and definitions stand round: a scalar, and a structure where it is copied. It is the place's type.
pub fn probed_place(copied: bool, kind: Option<CType>) -> Judged
    ensures { verdict_of result ≡ probed_type copied (type_in kind) }
{
    match kind {
        None => Judged::Unknown,
        Some(kind) => {
            let probed = is_scalar(&kind) || copied && is_structure(&kind);
            fine_if(probed, kind)
        }
    }
}

/// A parameter (C89, 3.7.1): an array is a pointer to its first element, and then it is a scalar.
pub fn parameter(kind: Option<CType>) -> Judged
    ensures { verdict_of result ≡ parameter_type (type_in kind) }
{
    match kind {
        None => Judged::Unknown,
        Some(kind) => scalar_place(Some(decayed(kind))),
    }
}

/// What a function gives (C89, 3.5.4.3 and 3.7.1): a scalar, or nothing.
pub fn result_kind(kind: Option<CType>) -> Judged
    ensures { verdict_of result ≡ result_type (type_in kind) }
{
    match kind {
        Some(CType::Void) => Judged::Fine(CType::Void),
        kind => scalar_place(kind),
    }
}
