// Laws of the types: each function does nothing, and its contract is the law.

ghost use Rattle.std.specs.Prelude.{◌≡◌, ℕ, ℤ};
ghost use Rattle.c_arith.specs.Arith.{InRange};
ghost use Rattle.c_type_rules.specs.Kinds.{promote, meet};
ghost use Rattle.c_type_rules.specs.Layouts.{bytes, round_up};
ghost use Rattle.c_type_rules.specs.Laws.{Keeps, IsNextMultiple, OperandsTurn, ElementsTurn, VoidIsNone, FitsItself, AddressLeadsBack};

use crate::extent::Align;
use crate::kinds::common;
use c_arith::convert;
use c_base::place::IntKind;
use c_syntax::tree::BinaryOp;

/// The promoted type has each value of the type itself (C89, 3.2.1.1).
pub fn promotion_keeps(kind: IntKind)
    ensures { (z : ℤ) → InRange kind z → InRange (promote kind) z }
{}

/// The common type has each value of either type that isn't negative, and is it signed each value (C89, 3.2.1.5).
pub fn meeting_keeps(a: IntKind, b: IntKind)
    ensures left { (z : ℤ) → InRange a z → Keeps (meet a b) z }
    ensures right { (z : ℤ) → InRange b z → Keeps (meet a b) z }
{}

/// The value converted to the common type: the same value, where that type has it (C89, 3.2.1.2).
pub fn converted(value: i128, a: IntKind, b: IntKind) -> i128
    ensures in_range { InRange (meet a b) result }
    ensures kept { InRange (meet a b) value → result ≡ value }
{
    convert(value, common(a, b))
}

/// The operands of `*`, `+`, `&`, `^`, `|`, `==` and `!=` may change places: the type stays.
pub fn operands_turn(op: BinaryOp)
    ensures { OperandsTurn op }
{}

/// `a[b]` and `b[a]` have one type (C89, 3.3.2.1).
pub fn elements_turn()
    ensures { ElementsTurn }
{}

/// A void stands on no side of an operator (C89, 3.2.2.2).
pub fn void_is_none(op: BinaryOp)
    ensures { VoidIsNone op }
{}

/// Each scalar fits into an object of its own type (C89, 3.3.16.1).
pub fn fits_itself()
    ensures { FitsItself }
{}

/// `*&a` has the type of `a` (C89, 3.3.3.2).
pub fn address_leads_back()
    ensures { AddressLeadsBack }
{}

/// A size is rounded up to the least multiple of the alignment that isn't below it (C89, 3.5.2.1).
pub fn rounding_is_next(align: Align)
    ensures { (n : ℕ) → IsNextMultiple (bytes align) n (round_up n (bytes align)) }
{}
