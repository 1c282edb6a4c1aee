// Laws of constants and of specifier words: each function does nothing, and its contract is the law.

ghost use Rattle.std.specs.Prelude.{◌≡◌};
ghost use Rattle.c_constants.specs.Laws.{UnaryIsArithmetic, BinaryIsArithmetic, StopsEarly, ElementsTurn, WordsTurn};

use crate::constants::Constant;
use c_arith::ArithUnary;
use c_base::place::IntKind;
use c_syntax::token::Key;
use c_syntax::tree::BinaryOp;

/// `+ - ~ !` on a known value of its type give what the program's own arithmetic does (C89, 3.4).
pub fn unary_is_arithmetic(op: ArithUnary)
    ensures { UnaryIsArithmetic op }
{}

/// The operators between two known values that the type they compute in has give what the program's own arithmetic does
/// (C89, 3.4).
pub fn binary_is_arithmetic(op: BinaryOp, left: IntKind, right: IntKind)
    ensures { BinaryIsArithmetic op left right }
{}

/// Behind `0 &&` and `1 ||` no fault counts (C89, 3.3.13 and 3.3.14).
pub fn stops_early(kind: IntKind, b: Constant)
    ensures { StopsEarly kind b }
{}

/// `a[b]` and `b[a]` are one constant (C89, 3.3.2.1).
pub fn elements_turn()
    ensures { ElementsTurn }
{}

/// The words of a type may stand in any order (C89, 3.5.2).
pub fn words_turn(a: Key, b: Key)
    ensures { WordsTurn a b }
{}
