// Operators between two operands, and fields.

ghost use Rattle.std.specs.Prelude.{◌≡◌, OnOk, IfOk};
ghost use Rattle.c_type_rules.specs.Kinds.{type_in};
ghost use Rattle.c_tree.specs.Operators.{left_of, right_of, typed_infix, typed_field};
ghost use Rattle.c_checker.specs.CheckerView.{state_of};
ghost use Rattle.c_checker.specs.SortView.{sort_of, typing_of};
ghost use Rattle.c_types_expr.specs.Forms.{access_of, infix_of};

use c_base::place::{NoMemory, Pos};
use c_checker::checker::Checker;
use c_checker::sides::may_copy;
use c_checker::sort::{Sort, Typing};
use c_syntax::text::Text;
use c_syntax::tree::{BinaryOp, CType};
use c_tree::meaning::Side;

/// The operators between two operands (C89, 3.3.5 to 3.3.17): those that evaluate both, `&&`, `||`, the assignments, and the
/// comma.
#[derive(Clone, Copy, Debug, PartialEq, Eq)]
pub enum Infix {
    Plain(BinaryOp),
    And,
    Or,
    Assign(Option<BinaryOp>),
    Comma,
}

/// Two operands with a token between them: the number and place of the first token of the left one, the number of the token
/// between them, and what is known of both.
#[derive(Drop)]
pub struct Operands {
    pub first: u32,
    pub pos: Pos,
    pub token: u32,
    pub left: Sort,
    pub right: Sort,
}

/// Where the left operand stands in an assignment.
pub fn left_of(op: Infix) -> Side
    ensures { result ≡ left_of (infix_of op) }
{
    match op {
        Infix::Assign(None) => Side::Left,
        _ => Side::Neither,
    }
}

/// Where the right one stands, by the left one's type.
pub fn right_of(op: Infix, left: &Option<CType>) -> Side
    ensures { result ≡ right_of (infix_of op) (type_in left.now) }
{
    match op {
        Infix::Assign(None) => may_copy(left),
        _ => Side::Neither,
    }
}

/// What an operator comes to, by its operands.
pub fn typed_infix(
    checker: &mut Checker,
    op_pos: Pos,
    op: Infix,
    both: Operands,
) -> Result<Typing, NoMemory>
    ensures typing { IfOk result (λ t. typing_of t ≡ (typed_infix both.token op_pos both.first both.pos (infix_of op) (sort_of both.left) (sort_of both.right) (state_of checker.old)).typing) }
    ensures state { OnOk result (state_of checker.new ≡ (typed_infix both.token op_pos both.first both.pos (infix_of op) (sort_of both.left) (sort_of both.right) (state_of checker.old)).state) }
{
    match op {
        Infix::Plain(op) => { checker.typed_plain(both.token, op_pos, op, both.left, both.right) }
        Infix::And => checker.typed_and(both.token, op_pos, both.left, both.right),
        Infix::Or => checker.typed_or(both.token, op_pos, both.left, both.right),
        Infix::Assign(op) => checker.typed_assign(
            both.token, op_pos, both.first, both.pos, op, both.left, both.right,
        ),
        Infix::Comma => Ok(checker.typed_comma(both.left, both.right)),
    }
}

/// What stands before a field (C89, 3.3.2.3).
#[derive(Clone, Copy, Debug, PartialEq, Eq)]
pub enum Access {
    Dot,
    Arrow,
}

/// A field of what stands before the token here.
pub fn typed_access(
    checker: &mut Checker,
    op_pos: Pos,
    access: Access,
    name: &Text,
    pos: Pos,
    a: Sort,
) -> Result<Typing, NoMemory>
    ensures typing { IfOk result (λ t. typing_of t ≡ (typed_field (state_of checker.old).at op_pos (access_of access) name.now pos (sort_of a) (state_of checker.old)).typing) }
    ensures state { OnOk result (state_of checker.new ≡ (typed_field (state_of checker.old).at op_pos (access_of access) name.now pos (sort_of a) (state_of checker.old)).state) }
{
    match access {
        Access::Dot => checker.typed_member(checker.at, op_pos, name.bytes(), pos, a),
        Access::Arrow => checker.typed_arrow(checker.at, op_pos, name.bytes(), pos, a),
    }
}
