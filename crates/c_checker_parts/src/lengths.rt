// Array lengths, pointers and arrays (C89, 3.5.4).

ghost use Rattle.std.specs.Prelude.{◌≡◌, ◌-◌, ◌^◌, min, map, option_map, Some, OnOk, IfOk};
ghost use Rattle.c_type_rules.specs.Kinds.{type_in};
ghost use Rattle.c_syntax.specs.Shape.{pointer};
ghost use Rattle.c_tree.specs.State.{steps};
ghost use Rattle.c_tree.specs.Parts.{count_of, length_of, is_count, judged_length, pointed, star_tokens, array_of, arrays_of};
ghost use Rattle.c_checker.specs.CheckerView.{state_of};
ghost use Rattle.c_checker.specs.SortView.{sort_of};
ghost use Rattle.c_checker_parts.specs.LengthView.{length_shape};

use c_base::place::{NoMemory, Pos};
use c_checker::checker::Checker;
use c_checker::ruling::settled_if;
use c_checker::sort::Sort;
use c_constants::constants::value;
use c_syntax::tree::{CType, Star};
use c_tree::complaints::NOT_CONSTANT;
use c_type_rules::kinds::boxed;
use std::alloc::Global;

/// What stands in brackets (C89, 3.5.4.2): a number of elements, nothing, or what has a complaint.
#[derive(Clone, Copy, Debug, PartialEq, Eq)]
pub enum Length {
    Counted(u32),
    LeftOut,
    Unclear,
}

/// A length in brackets, which begins at that token: a constant of at least 1.
pub fn judged_length(
    checker: &mut Checker,
    token: u32,
    pos: Pos,
    a: Sort,
) -> Result<Length, NoMemory>
    ensures length { IfOk result (λ l. length_shape l ≡ length_of (sort_of a)) }
    ensures state { OnOk result (state_of checker.new ≡ judged_length token pos (sort_of a) (state_of checker.old)) }
{
    let length = count_of(value(a.constant));
    let counted = is_count(length);
    checker.rule(settled_if(counted, NOT_CONSTANT, a.kind), token, pos)?;
    Ok(length)
}

// As a number of elements.
fn count_of(value: Option<i128>) -> Length
    ensures { length_shape result ≡ count_of value }
{
    match value {
        None => Length::Unclear,
        Some(value) => counted(value),
    }
}

// From 1 on, up to the greatest number of 32 bits.
fn counted(value: i128) -> Length
    ensures { length_shape result ≡ count_of (Some value) }
{
    if value < 1 {
        Length::Unclear
    } else if value < 4_294_967_295 {
        Length::Counted(value as u32)
    } else {
        Length::Counted(4_294_967_295)
    }
}

// Whether it is a number.
fn is_count(length: Length) -> bool
    ensures { result ≡ is_count (length_shape length) }
{
    matches!(length, Length::Counted(_))
}

/// A pointer for each star (C89, 3.5.4.1).
pub fn pointed(
    stars: &[Star],
    kind: Option<CType>,
    alloc: Global,
) -> Result<Option<CType>, NoMemory>
    ensures { IfOk result (λ k. type_in k ≡ pointed stars.now (type_in kind)) }
{
    let mut kind = kind;
    for _star in stars {
        kind = pointer_to(kind, alloc)?;
    }
    Ok(kind)
}

// A pointer to that type.
fn pointer_to(kind: Option<CType>, alloc: Global) -> Result<Option<CType>, NoMemory>
    ensures { IfOk result (λ k. type_in k ≡ option_map pointer (type_in kind)) }
{
    match kind {
        None => Ok(None),
        Some(kind) => Ok(Some(CType::Pointer(boxed(kind, alloc)?))),
    }
}

/// Behind the stars, and the keys `const` behind each.
pub fn step_stars(checker: &mut Checker, stars: &[Star])
    ensures { state_of checker.new ≡ steps (star_tokens stars.now) (state_of checker.old) }
{
    checker.steps(star_tokens(stars));
}

// How many tokens they are, up to the greatest number of 32 bits.
fn star_tokens(stars: &[Star]) -> u32
    ensures { result ≡ min (star_tokens stars.now) (2 ^ 32 - 1) }
{
    let mut total: u32 = 0;
    for star in stars {
        total = total.saturating_add(1).saturating_add(star.consts);
    }
    total
}

/// Arrays of so many elements (C89, 3.5.4.2), the first length outermost; of a length that is left out nothing is known.
#[tactic(auto, using(crate::proofs::LastLength::last_length))]
pub fn arrays_of(
    lengths: &[Length],
    kind: Option<CType>,
    alloc: Global,
) -> Result<Option<CType>, NoMemory>
    ensures { IfOk result (λ k. type_in k ≡ arrays_of (map length_shape lengths.now) (type_in kind)) }
{
    let mut kind = kind;
    let mut left = lengths.len();
    while left > 0 {
        left -= 1;
        kind = array_of(lengths[left], kind, alloc)?;
    }
    Ok(kind)
}

// An array of that length.
fn array_of(length: Length, kind: Option<CType>, alloc: Global) -> Result<Option<CType>, NoMemory>
    ensures { IfOk result (λ k. type_in k ≡ array_of (length_shape length) (type_in kind)) }
{
    match (length, kind) {
        (Length::Counted(n), Some(kind)) => Ok(Some(CType::Array(boxed(kind, alloc)?, n))),
        _ => Ok(None),
    }
}
