// Expressions with two operands.

ghost use Rattle.std.specs.Prelude.{◌≡◌, OnOk, IfOk};
ghost use Rattle.c_syntax.specs.Shape.{suffix, index, two};
ghost use Rattle.c_syntax.specs.View.{expr_shape, node_shape};
ghost use Rattle.c_tree.specs.State.{step};
ghost use Rattle.c_tree.specs.Typing.{type_node, type_form};
ghost use Rattle.c_checker.specs.CheckerView.{state_of};
ghost use Rattle.c_checker.specs.SortView.{sort_of, typing_of};
ghost use Rattle.c_types_expr.specs.declared.groups.Group.TheVariants.{Pair};
ghost use Rattle.c_types_expr.specs.Forms.{infix_of, type_element, type_two};
ghost use Rattle.c_types_expr.specs.Groups.{group_of};

use crate::infix::{Infix, Operands, left_of, right_of, typed_infix};
use crate::nodes::type_node;
use c_base::place::{NoMemory, Pos};
use c_checker::checker::Checker;
use c_checker::sort::Typing;
use c_syntax::tree::{Expr, Node};

/// A form with two operands.
#[cycle(typing)]
#[tactic(auto, using(crate::proofs::Steps::step_single))]
pub fn type_pair(
    checker: &mut Checker,
    pos: Pos,
    op_pos: Pos,
    form: &mut Expr,
) -> Result<Typing, NoMemory>
    requires { group_of (expr_shape form.old) ≡ Pair }
    ensures tree { OnOk result (expr_shape form.new ≡ (type_form pos op_pos (expr_shape form.old) (state_of checker.old)).form) }
    ensures typing { IfOk result (λ t. typing_of t ≡ (type_form pos op_pos (expr_shape form.old) (state_of checker.old)).typing) }
    ensures state { OnOk result (state_of checker.new ≡ (type_form pos op_pos (expr_shape form.old) (state_of checker.old)).state) }
{
    match form {
        Expr::Index(a, b) => {
            let typing = type_index(checker, op_pos, a, b)?;
            Ok(typing)
        }
        Expr::Binary(op, a, b) => {
            let typing = type_infix(checker, op_pos, Infix::Plain(*op), a, b)?;
            Ok(typing)
        }
        Expr::And(a, b) => {
            let typing = type_infix(checker, op_pos, Infix::And, a, b)?;
            Ok(typing)
        }
        Expr::Or(a, b) => {
            let typing = type_infix(checker, op_pos, Infix::Or, a, b)?;
            Ok(typing)
        }
        Expr::Assign(op, a, b) => {
            let typing = type_infix(checker, op_pos, Infix::Assign(*op), a, b)?;
            Ok(typing)
        }
        Expr::Comma(a, b) => {
            let typing = type_infix(checker, op_pos, Infix::Comma, a, b)?;
            Ok(typing)
        }
        _ => unreachable!(),
    }
}

/// Two operands with a token between them.
#[cycle(typing)]
pub fn type_operands(
    checker: &mut Checker,
    a: &mut Node,
    b: &mut Node,
) -> Result<Operands, NoMemory>
    ensures left_tree { OnOk result (node_shape a.new ≡ (type_node (node_shape a.old) (state_of checker.old)).node) }
    ensures tree { OnOk result (node_shape b.new ≡ (type_node (node_shape b.old) (step (type_node (node_shape a.old) (state_of checker.old)).state)).node) }
    ensures first { IfOk result (λ o. o.first ≡ (state_of checker.old).at) }
    ensures pos { IfOk result (λ o. o.pos ≡ a.old.pos) }
    ensures token { IfOk result (λ o. o.token ≡ (type_node (node_shape a.old) (state_of checker.old)).state.at) }
    ensures left { IfOk result (λ o. sort_of o.left ≡ (type_node (node_shape a.old) (state_of checker.old)).sort) }
    ensures right { IfOk result (λ o. sort_of o.right ≡ (type_node (node_shape b.old) (step (type_node (node_shape a.old) (state_of checker.old)).state)).sort) }
    ensures state { OnOk result (state_of checker.new ≡ (type_node (node_shape b.old) (step (type_node (node_shape a.old) (state_of checker.old)).state)).state) }
{
    let first = checker.at;
    let pos = a.pos;
    let left = type_node(checker, a)?;
    let token = checker.at;
    checker.step();
    let right = type_node(checker, b)?;
    Ok(Operands {
        first,
        pos,
        token,
        left,
        right,
    })
}

// An element.
#[cycle(typing)]
fn type_index(
    checker: &mut Checker,
    op_pos: Pos,
    a: &mut Node,
    b: &mut Node,
) -> Result<Typing, NoMemory>
    ensures tree { OnOk result (suffix (node_shape a.new) (index (node_shape b.new)) ≡ (type_element op_pos (node_shape a.old) (node_shape b.old) (state_of checker.old)).form) }
    ensures typing { IfOk result (λ t. typing_of t ≡ (type_element op_pos (node_shape a.old) (node_shape b.old) (state_of checker.old)).typing) }
    ensures state { OnOk result (state_of checker.new ≡ (type_element op_pos (node_shape a.old) (node_shape b.old) (state_of checker.old)).state) }
{
    let both = type_operands(checker, a, b)?;
    let typing = checker.typed_index(both.token, op_pos, both.left, both.right)?;
    Ok(typing)
}

// An operator between its operands, which stand on its sides.
#[cycle(typing)]
fn type_infix(
    checker: &mut Checker,
    op_pos: Pos,
    op: Infix,
    a: &mut Node,
    b: &mut Node,
) -> Result<Typing, NoMemory>
    ensures tree { OnOk result (two (infix_of op) (node_shape a.new) (node_shape b.new) ≡ (type_two op_pos (infix_of op) (node_shape a.old) (node_shape b.old) (state_of checker.old)).form) }
    ensures typing { IfOk result (λ t. typing_of t ≡ (type_two op_pos (infix_of op) (node_shape a.old) (node_shape b.old) (state_of checker.old)).typing) }
    ensures state { OnOk result (state_of checker.new ≡ (type_two op_pos (infix_of op) (node_shape a.old) (node_shape b.old) (state_of checker.old)).state) }
{
    let first = checker.at;
    let pos = a.pos;
    checker.side_with(left_of(op));
    let left = type_node(checker, a)?;
    let token = checker.at;
    checker.step();
    checker.side_with(right_of(op, &left.kind));
    let right = type_node(checker, b)?;
    let both = Operands {
        first,
        pos,
        token,
        left,
        right,
    };
    let typing = typed_infix(checker, op_pos, op, both)?;
    Ok(typing)
}
