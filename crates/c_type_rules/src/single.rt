// The operators of one operand, and those that reach into an object.

ghost use Rattle.std.specs.Prelude.{◌≡◌, IfOk};
ghost use Rattle.c_type_rules.specs.Kinds.{type_in};
ghost use Rattle.c_type_rules.specs.Verdicts.{verdict_of, promoted_type, target_type, element_type, address_type, structure_type, pointed_type, size_type, cast_type};

use crate::judged::Judged;
use crate::kinds::{boxed, promoted};
use c_base::place::{IntKind, NoMemory};
use c_syntax::tree::CType;
use std::alloc::Global;

/// `+`, `-` and `~` (C89, 3.3.3.3), and the operand of `switch` (C89, 3.6.4.2): an integer, in its promoted type.
pub fn promoted_value(kind: Option<CType>) -> Judged
    ensures { verdict_of result ≡ promoted_type (type_in kind) }
{
    match kind {
        None => Judged::Unknown,
        Some(CType::Int(kind)) => Judged::Fine(CType::Int(promoted(kind))),
        Some(_) => Judged::Wrong,
    }
}

/// `*` (C89, 3.3.3.2): a pointer, or an array as the pointer to its first element; it has the type that is pointed to.
pub fn target(kind: Option<CType>) -> Judged
    ensures { verdict_of result ≡ target_type (type_in kind) }
{
    match kind {
        None => Judged::Unknown,
        Some(CType::Pointer(to)) => Judged::Fine(Box::into_inner(to)),
        Some(CType::Array(of, _)) => Judged::Fine(Box::into_inner(of)),
        Some(_) => Judged::Wrong,
    }
}

/// `a[b]`, which is `*(a + b)` (C89, 3.3.2.1): a pointer and an integer, in either order; it has the type that is pointed to.
pub fn element(left: Option<CType>, right: Option<CType>) -> Judged
    ensures { verdict_of result ≡ element_type (type_in left) (type_in right) }
{
    match (left, right) {
        (None, _) | (_, None) => Judged::Unknown,
        (Some(CType::Int(_)), Some(pointer)) => target(Some(pointer)),
        (Some(pointer), Some(CType::Int(_))) => target(Some(pointer)),
        _ => Judged::Wrong,
    }
}

/// `&` of a place (C89, 3.3.3.2): a pointer to its type, to the whole of an array; a void is no object.
pub fn address(kind: Option<CType>, alloc: Global) -> Result<Judged, NoMemory>
    ensures { IfOk result (λ j. verdict_of j ≡ address_type (type_in kind)) }
{
    match kind {
        None => Ok(Judged::Unknown),
        Some(CType::Void) => Ok(Judged::Wrong),
        Some(kind) => {
            let to = boxed(kind, alloc)?;
            Ok(Judged::Fine(CType::Pointer(to)))
        }
    }
}

/// What stands before `.` (C89, 3.3.2.3): a structure.
pub fn structure(kind: Option<CType>) -> Judged
    ensures { verdict_of result ≡ structure_type (type_in kind) }
{
    match kind {
        None => Judged::Unknown,
        Some(CType::Struct(number)) => Judged::Fine(CType::Struct(number)),
        Some(_) => Judged::Wrong,
    }
}

/// What stands before `->` (C89, 3.3.2.3): a pointer to a structure, which it gives.
pub fn pointed_structure(kind: Option<CType>) -> Judged
    ensures { verdict_of result ≡ pointed_type (type_in kind) }
{
    match target(kind) {
        Judged::Fine(kind) => structure(Some(kind)),
        judged => judged,
    }
}

/// `sizeof` of an expression (C89, 3.3.3.4): of anything but a void; it has the type unsigned long.
pub fn size_of(kind: Option<CType>) -> Judged
    ensures { verdict_of result ≡ size_type (type_in kind) }
{
    match kind {
        None => Judged::Unknown,
        Some(CType::Void) => Judged::Wrong,
        Some(_) => Judged::Fine(CType::Int(IntKind::ULong)),
    }
}

/// A cast (C89, 3.3.4): an integer to an integer type, or anything to void.
pub fn cast(to: Option<CType>, kind: Option<CType>) -> Judged
    ensures { verdict_of result ≡ cast_type (type_in to) (type_in kind) }
{
    match (to, kind) {
        (None, _) | (_, None) => Judged::Unknown,
        (Some(CType::Void), Some(_)) => Judged::Fine(CType::Void),
        (Some(CType::Int(to)), Some(CType::Int(_))) => Judged::Fine(CType::Int(to)),
        _ => Judged::Wrong,
    }
}
