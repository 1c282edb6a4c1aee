// What an operator makes of the types of its operands.

ghost use Rattle.std.specs.Prelude.{◌≡◌};
ghost use Rattle.c_syntax.specs.View.{type_of};
ghost use Rattle.c_syntax.specs.Shape.{int};
ghost use Rattle.c_type_rules.specs.Verdicts.{verdict_of, fine_if, null_for};

use c_base::place::IntKind;
use c_syntax::tree::CType;

/// What comes of an operator: the type of its result; nothing, where a complaint stands inside an operand; or that
/// operands of these types may not stand there.
#[derive(Drop)]
pub enum Judged {
    Fine(CType),
    Unknown,
    Wrong,
}

/// An operand: its type, where no complaint stands inside, and whether it is a null constant, a constant expression of
/// an integer type with the value 0 (C89, 3.2.2.3).
#[derive(Drop)]
pub struct Operand {
    pub kind: Option<CType>,
    pub null: bool,
}

// The type, if the test holds.
pub(crate) fn fine_if(test: bool, kind: CType) -> Judged
    ensures { verdict_of result ≡ fine_if test (type_of kind) }
{
    if test {
        Judged::Fine(kind)
    } else {
        Judged::Wrong
    }
}

// The integer type, if the test holds.
pub(crate) fn int_if(test: bool, kind: IntKind) -> Judged
    ensures { verdict_of result ≡ fine_if test (int kind) }
{
    fine_if(test, CType::Int(kind))
}

// Whether the first is a null constant, and the second a pointer.
pub(crate) fn null_for(null: bool, a: &CType, b: &CType) -> bool
    ensures { result ≡ null_for null (type_of a.now) (type_of b.now) }
{
    null && matches!((a, b), (CType::Int(_), CType::Pointer(_)))
}
