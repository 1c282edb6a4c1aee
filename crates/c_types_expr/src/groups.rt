// The forms of expressions by their parts.

ghost use Rattle.std.specs.Prelude.{◌≡◌, OnOk, IfOk};
ghost use Rattle.c_syntax.specs.View.{expr_shape};
ghost use Rattle.c_tree.specs.Typing.{type_form};
ghost use Rattle.c_checker.specs.CheckerView.{state_of};
ghost use Rattle.c_checker.specs.SortView.{typing_of};
ghost use Rattle.c_types_expr.specs.declared.groups.Group.TheVariants.{Leaf};
ghost use Rattle.c_types_expr.specs.Groups.{group_of};

use c_base::place::{NoMemory, Pos};
use c_checker::checker::Checker;
use c_checker::sort::Typing;
use c_syntax::tree::Expr;

/// A form of expressions has no part; one operand; two of them; or others.
#[derive(Clone, Copy, Debug, PartialEq, Eq)]
pub enum Group {
    Leaf,
    Single,
    Pair,
    Other,
}

/// The group of a form.
#[tactic(auto, using(crate::proofs::Steps::step_single))]
pub fn grouped(form: &Expr) -> Group
    ensures { result ≡ group_of (expr_shape form.now) }
{
    match form {
        Expr::Number(_) | Expr::Char(_) | Expr::Str(_) | Expr::Name(_) => Group::Leaf,
        Expr::Index(_, _)
        | Expr::Binary(_, _, _)
        | Expr::And(_, _)
        | Expr::Or(_, _)
        | Expr::Assign(_, _, _)
        | Expr::Comma(_, _) => Group::Pair,
        Expr::Call(_, _) | Expr::SizeOfType(_) | Expr::Cast(_, _) | Expr::Cond(_, _, _) => {
            Group::Other
        }
        Expr::Paren(_)
        | Expr::Unary(_, _)
        | Expr::Step(_, _)
        | Expr::SizeOf(_)
        | Expr::Member(_, _, _)
        | Expr::Arrow(_, _, _)
        | Expr::Probe(_, _) => Group::Single,
    }
}

/// A constant, a string or a name (C89, 3.3.1).
#[tactic(auto, using(crate::proofs::Steps::step_single))]
pub fn type_leaf(
    checker: &mut Checker,
    pos: Pos,
    op_pos: Pos,
    form: &Expr,
) -> Result<Typing, NoMemory>
    requires { group_of (expr_shape form.now) ≡ Leaf }
    ensures tree { OnOk result (expr_shape form.now ≡ (type_form pos op_pos (expr_shape form.now) (state_of checker.old)).form) }
    ensures typing { IfOk result (λ t. typing_of t ≡ (type_form pos op_pos (expr_shape form.now) (state_of checker.old)).typing) }
    ensures state { OnOk result (state_of checker.new ≡ (type_form pos op_pos (expr_shape form.now) (state_of checker.old)).state) }
{
    match form {
        Expr::Number(text) => checker.typed_number(pos, text.bytes()),
        Expr::Char(byte) => Ok(checker.typed_char(*byte)),
        Expr::Str(text) => checker.typed_string(pos, text),
        Expr::Name(text) => checker.typed_name(pos, text.bytes()),
        _ => unreachable!(),
    }
}
