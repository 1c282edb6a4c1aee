// What the lengths in brackets make of the type of a variable or a parameter (C89, 3.5.4.2 and 3.7.1).

ghost use Rattle.std.specs.Prelude.{◌≡◌, map, IfOk};
ghost use Rattle.c_type_rules.specs.Kinds.{type_in};
ghost use Rattle.c_type_rules.specs.Layouts.{measures};
ghost use Rattle.c_syntax.specs.View.{type_of};
ghost use Rattle.c_tree.specs.Declaring.{any_unclear, any_left_out, with_lengths, room_rule, variable_rule, element_pointer, element_lengths, scalar_rule, parameter_rule};
ghost use Rattle.c_checker.specs.RulingView.{ruled_of};
ghost use Rattle.c_checker_parts.specs.LengthView.{length_shape};
ghost use Rattle.c_types_decl.specs.Steps.{pointer_to_element};

use c_base::place::NoMemory;
use c_checker::ruling::{Ruling, by, settled, whole};
use c_checker_parts::lengths::{Length, arrays_of};
use c_syntax::tree::CType;
use c_tree::complaints::{INCOMPLETE_TYPE, TOO_LARGE_TYPE, WRONG_TYPE};
use c_type_rules::extent::Measured;
use c_type_rules::kinds::boxed;
use c_type_rules::layout::measured;
use c_type_rules::storing::parameter;
use std::alloc::Global;

// Whether a complaint stands in one of the lengths.
fn any_unclear(lengths: &[Length]) -> bool
    ensures { result ≡ any_unclear (map length_shape lengths.now) }
{
    for i in 0..lengths.len() {
        if matches!(lengths[i], Length::Unclear) {
            return true;
        }
    }
    false
}

// Whether one of the lengths is left out.
fn any_left_out(lengths: &[Length]) -> bool
    ensures { result ≡ any_left_out (map length_shape lengths.now) }
{
    for i in 0..lengths.len() {
        if matches!(lengths[i], Length::LeftOut) {
            return true;
        }
    }
    false
}

/// The type of a variable: with its lengths, each of which is there; complete, and not too large.
pub fn variable_rule(
    rooms: &[Measured],
    lengths: &[Length],
    kind: Option<CType>,
    alloc: Global,
) -> Result<Ruling, NoMemory>
    ensures { IfOk result (λ r. ruled_of r ≡ variable_rule (measures rooms.now) (map length_shape lengths.now) (type_in kind)) }
{
    match kind {
        None => Ok(Ruling::Unsettled),
        Some(kind) => {
            let ruling = with_lengths(lengths, kind, alloc)?;
            Ok(room_rule(rooms, ruling))
        }
    }
}

// The type with its lengths, each of which is there.
fn with_lengths(lengths: &[Length], kind: CType, alloc: Global) -> Result<Ruling, NoMemory>
    ensures { IfOk result (λ r. ruled_of r ≡ with_lengths (map length_shape lengths.now) (type_of kind)) }
{
    if any_unclear(lengths) {
        return Ok(Ruling::Unsettled);
    }
    if any_left_out(lengths) {
        return Ok(Ruling::Refused(INCOMPLETE_TYPE));
    }
    let kind = arrays_of(lengths, Some(kind), alloc)?;
    Ok(settled(kind))
}

// The type is complete, and not too large.
fn room_rule(rooms: &[Measured], ruling: Ruling) -> Ruling
    ensures { ruled_of result ≡ room_rule (measures rooms.now) (ruled_of ruling) }
{
    match ruling {
        Ruling::Allowed(kind) => whole(kind, rooms),
        other => other,
    }
}

/// The type of a parameter: a scalar; an array is a pointer to its first element.
pub fn parameter_rule(
    rooms: &[Measured],
    lengths: &[Length],
    kind: Option<CType>,
    alloc: Global,
) -> Result<Ruling, NoMemory>
    ensures { IfOk result (λ r. ruled_of r ≡ parameter_rule (measures rooms.now) (map length_shape lengths.now) (type_in kind)) }
{
    match kind {
        None => Ok(Ruling::Unsettled),
        Some(kind) => {
            let ruling = element_lengths(rooms, lengths, kind, alloc)?;
            Ok(scalar_rule(ruling))
        }
    }
}

// An array with a first length in any form is a pointer to its element.
fn element_lengths(
    rooms: &[Measured],
    lengths: &[Length],
    kind: CType,
    alloc: Global,
) -> Result<Ruling, NoMemory>
    ensures { IfOk result (λ r. ruled_of r ≡ element_lengths (measures rooms.now) (map length_shape lengths.now) (type_of kind)) }
{
    match lengths.split_first() {
        None => Ok(Ruling::Allowed(kind)),
        Some((Length::Unclear, _)) => Ok(Ruling::Unsettled),
        Some((_, rest)) => pointer_to_element(rooms, rest, kind, alloc),
    }
}

// A pointer to an array with these inner lengths, each of which is there.
fn pointer_to_element(
    rooms: &[Measured],
    inner: &[Length],
    kind: CType,
    alloc: Global,
) -> Result<Ruling, NoMemory>
    ensures { IfOk result (λ r. ruled_of r ≡ pointer_to_element (measures rooms.now) (map length_shape inner.now) (type_of kind)) }
{
    match with_lengths(inner, kind, alloc)? {
        Ruling::Allowed(kind) => element_pointer(rooms, kind, alloc),
        other => Ok(other),
    }
}

// A pointer to an element, which isn't too large; it may be incomplete.
fn element_pointer(rooms: &[Measured], kind: CType, alloc: Global) -> Result<Ruling, NoMemory>
    ensures { IfOk result (λ r. ruled_of r ≡ element_pointer (measures rooms.now) (type_of kind)) }
{
    match measured(&kind, rooms) {
        Measured::TooLarge => Ok(Ruling::Refused(TOO_LARGE_TYPE)),
        _ => Ok(Ruling::Allowed(CType::Pointer(boxed(kind, alloc)?))),
    }
}

// The type as a parameter has it, a scalar.
fn scalar_rule(ruling: Ruling) -> Ruling
    ensures { ruled_of result ≡ scalar_rule (ruled_of ruling) }
{
    match ruling {
        Ruling::Allowed(kind) => by(WRONG_TYPE, parameter(Some(kind))),
        other => other,
    }
}
