//! Types and their conversions (C89, 3.1.2.5 and 3.2).

ghost use Rattle.std.specs.Prelude.{◌≡◌, ◌≤◌, ◌↔◌, IsTrue, IfOk, pos};
ghost use Rattle.c_arith.specs.Arith.{width, InRange, IsPromoted};
ghost use Rattle.c_syntax.specs.View.{type_of};
ghost use Rattle.c_type_rules.specs.Kinds.{same_type, is_integer, is_scalar, is_structure, decay, promote, meet, constant_type};

use c_base::place::{IntKind, NoMemory};
use c_syntax::tree::CType;
use std::alloc::Global;

/// How a constant's digits are written (C89, 3.1.3.2).
#[derive(Clone, Copy, Debug, PartialEq, Eq)]
pub enum Radix {
    Octal,
    Decimal,
    Hexadecimal,
}

/// The letters behind a constant's digits (C89, 3.1.3.2): `u`, and `l`.
#[derive(Clone, Copy, Debug, PartialEq, Eq)]
pub struct Suffix {
    pub unsigned: bool,
    pub long: bool,
}

/// The type, in a box of its own.
pub fn boxed(kind: CType, alloc: Global) -> Result<Box<CType>, NoMemory>
    ensures { IfOk result (λ b. b.value ≡ kind) }
{
    match Box::new(alloc, kind) {
        Ok(b) => Ok(b),
        Err(_) => Err(NoMemory),
    }
}

/// The same type once more.
pub fn copy(kind: &CType, alloc: Global) -> Result<CType, NoMemory>
    ensures { IfOk result (λ k. type_of k ≡ type_of kind.now) }
{
    match kind {
        CType::Int(int) => Ok(CType::Int(*int)),
        CType::Pointer(to) => {
            let to = copy(to, alloc)?;
            Ok(CType::Pointer(boxed(to, alloc)?))
        }
        CType::Array(of, length) => {
            let of = copy(of, alloc)?;
            Ok(CType::Array(boxed(of, alloc)?, *length))
        }
        CType::Struct(number) => Ok(CType::Struct(*number)),
        CType::Void => Ok(CType::Void),
    }
}

/// Whether the types are equal (C89, 3.1.2.6): an array's length counts, and a structure is its declaration.
pub fn same(a: &CType, b: &CType) -> bool
    ensures value { result ≡ same_type (type_of a.now) (type_of b.now) }
    ensures equal { IsTrue result ↔ (type_of a.now ≡ type_of b.now) }
{
    match (a, b) {
        (CType::Int(a), CType::Int(b)) => *a == *b,
        (CType::Pointer(a), CType::Pointer(b)) => same(a, b),
        (CType::Array(a, n), CType::Array(b, m)) => *n == *m && same(a, b),
        (CType::Struct(n), CType::Struct(m)) => *n == *m,
        (CType::Void, CType::Void) => true,
        _ => false,
    }
}

/// Whether it is an integer (C89, 3.1.2.5).
pub fn is_integer(kind: &CType) -> bool
    ensures { result ≡ is_integer (type_of kind.now) }
{
    matches!(kind, CType::Int(_))
}

/// Whether it is an integer or a pointer (C89, 3.1.2.5).
pub fn is_scalar(kind: &CType) -> bool
    ensures { result ≡ is_scalar (type_of kind.now) }
{
    matches!(kind, CType::Int(_) | CType::Pointer(_))
}

/// Whether it is a structure (C89, 3.1.2.5).
pub fn is_structure(kind: &CType) -> bool
    ensures { result ≡ is_structure (type_of kind.now) }
{
    matches!(kind, CType::Struct(_))
}

/// The type as a value has it: an array becomes a pointer to its first element (C89, 3.2.2.1).
pub fn decayed(kind: CType) -> CType
    ensures { type_of result ≡ decay (type_of kind) }
{
    match kind {
        CType::Array(of, _) => CType::Pointer(of),
        kind => kind,
    }
}

/// The integral promotions (C89, 3.2.1.1): char and short, signed or not, become int, and each value stays.
pub fn promoted(kind: IntKind) -> IntKind
    ensures value { result ≡ promote kind }
    ensures promoted { IsPromoted result }
    ensures wide { width kind ≤ width result }
{
    match kind {
        IntKind::Char | IntKind::UChar | IntKind::Short | IntKind::UShort => IntKind::Int,
        kind => kind,
    }
}

/// The usual arithmetic conversions (C89, 3.2.1.5): unsigned long if either is, else long if either is, else unsigned
/// int if either is, and else int.
pub fn common(a: IntKind, b: IntKind) -> IntKind
    ensures value { result ≡ meet a b }
    ensures turned { result ≡ meet b a }
    ensures promoted { IsPromoted result }
    ensures left { width a ≤ width result }
    ensures right { width b ≤ width result }
{
    match (a, b) {
        (IntKind::ULong, _) | (_, IntKind::ULong) => IntKind::ULong,
        (IntKind::Long, _) | (_, IntKind::Long) => IntKind::Long,
        (IntKind::UInt, _) | (_, IntKind::UInt) => IntKind::UInt,
        _ => IntKind::Int,
    }
}

/// The type of an integer constant (C89, 3.1.3.2): the first that holds its value, of int, unsigned int, long and
/// unsigned long; not int or long with `u`, no int with `l`, and no unsigned int where it is decimal without `u`.
pub fn constant_kind(value: u64, radix: Radix, suffix: Suffix) -> IntKind
    ensures value { result ≡ constant_type value radix suffix }
    ensures held { InRange result (pos value) }
    ensures promoted { IsPromoted result }
{
    let may_be_uint = suffix.unsigned || radix != Radix::Decimal;
    if !suffix.unsigned && !suffix.long && value <= 0x7fff_ffff {
        IntKind::Int
    } else if may_be_uint && !suffix.long && value <= 0xffff_ffff {
        IntKind::UInt
    } else if !suffix.unsigned && value <= 0x7fff_ffff_ffff_ffff {
        IntKind::Long
    } else {
        IntKind::ULong
    }
}
