// Tests, and what is chosen by one.

ghost use Rattle.std.specs.Prelude.{◌≡◌};
ghost use Rattle.c_syntax.specs.View.{type_of};
ghost use Rattle.c_type_rules.specs.Kinds.{type_in};
ghost use Rattle.c_type_rules.specs.Verdicts.{verdict_of, truth_type, logical_type, conditional_type, branches_type, alike_type};

use crate::judged::{Judged, Operand, fine_if, int_if, null_for};
use crate::kinds::{common, decayed, is_scalar, same};
use c_base::place::IntKind;
use c_syntax::tree::CType;

/// `!`, and the test of an `if` or a loop (C89, 3.3.3.3, 3.6.4.1 and 3.6.5): a scalar, whose comparison with 0 is an int.
pub fn truth(kind: Option<CType>) -> Judged
    ensures { verdict_of result ≡ truth_type (type_in kind) }
{
    match kind {
        None => Judged::Unknown,
        Some(kind) => int_if(is_scalar(&decayed(kind)), IntKind::Int),
    }
}

/// `&&` and `||`: two scalars, which give int (C89, 3.3.13 and 3.3.14).
pub fn logical(left: Option<CType>, right: Option<CType>) -> Judged
    ensures { verdict_of result ≡ logical_type (type_in left) (type_in right) }
{
    match (left, right) {
        (Some(a), Some(b)) => {
            let both = is_scalar(&decayed(a)) && is_scalar(&decayed(b));
            int_if(both, IntKind::Int)
        }
        _ => Judged::Unknown,
    }
}

/// `?:` (C89, 3.3.15): a scalar, and then two integers, in their common type; two pointers to equal types; a pointer and a
/// null constant, which give the pointer's type; or two voids.
pub fn conditional(test: Option<CType>, second: Operand, third: Operand) -> Judged
    ensures { verdict_of result ≡ conditional_type (type_in test) (type_in second.kind) second.null (type_in third.kind) third.null }
{
    match (test, second.kind, third.kind) {
        (Some(test), Some(a), Some(b)) => {
            if is_scalar(&decayed(test)) {
                branches(decayed(a), second.null, decayed(b), third.null)
            } else {
                Judged::Wrong
            }
        }
        _ => Judged::Unknown,
    }
}

// One of two values.
fn branches(a: CType, a_null: bool, b: CType, b_null: bool) -> Judged
    ensures { verdict_of result ≡ branches_type (type_of a) a_null (type_of b) b_null }
{
    if null_for(a_null, &a, &b) {
        Judged::Fine(b)
    } else if null_for(b_null, &b, &a) {
        Judged::Fine(a)
    } else {
        alike(a, b)
    }
}

// Integers, pointers to equal types, or two voids.
fn alike(a: CType, b: CType) -> Judged
    ensures { verdict_of result ≡ alike_type (type_of a) (type_of b) }
{
    match (a, b) {
        (CType::Int(a), CType::Int(b)) => Judged::Fine(CType::Int(common(a, b))),
        (CType::Pointer(a), CType::Pointer(b)) => fine_if(same(&a, &b), CType::Pointer(a)),
        (CType::Void, CType::Void) => Judged::Fine(CType::Void),
        _ => Judged::Wrong,
    }
}
