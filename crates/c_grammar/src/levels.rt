//! How tightly operators bind.

ghost use Rattle.std.specs.Prelude.{◌≡◌, ℕ, ◌+◌, ◌<◌, ◌≤◌};
ghost use Rattle.c_syntax.specs.View.{node_shape, node_list, probe_shape};
ghost use Rattle.c_syntax.specs.Levels.{chain, nodes_chain, cases_chain};
ghost use Rattle.c_syntax.specs.Shaped.{level, binary_level, infix_level, left_least, right_least, prefix_least, probe_least};
ghost use Rattle.c_grammar.specs.Starts.{oper_level, oper_least};
ghost use Rattle.c_grammar.specs.ExprReader.{takes};
ghost use Rattle.c_grammar.specs.CodeView.{prefix_of, infix_of, oper_of, probing_of};

use crate::look::{Infix, Operator, Prefix, Probing};
use c_syntax::tree::{BinaryOp, Expr, ExprProbe, Node, StepOp};

// How tightly an operator of two operands binds.
fn level_of_binary(op: BinaryOp) -> u8
    ensures value { result ≡ binary_level op }
    ensures small { result ≤ 12 }
{
    match op {
        BinaryOp::Mul | BinaryOp::Div | BinaryOp::Rem => 12,
        BinaryOp::Add | BinaryOp::Sub => 11,
        BinaryOp::Shl | BinaryOp::Shr => 10,
        BinaryOp::Lt | BinaryOp::Gt | BinaryOp::Le | BinaryOp::Ge => 9,
        BinaryOp::Eq | BinaryOp::Ne => 8,
        BinaryOp::BitAnd => 7,
        BinaryOp::BitXor => 6,
        BinaryOp::BitOr => 5,
    }
}

/// The loosest right operand of an operator.
pub fn right_bound(op: Infix) -> u8
    ensures value { result ≡ right_least (infix_of op) }
    ensures small { result ≤ 13 }
{
    match op {
        Infix::Plain(op) => level_of_binary(op) + 1,
        Infix::And => 5,
        Infix::Or => 4,
        Infix::Assign(_) => 1,
        Infix::Comma => 1,
    }
}

/// The loosest operand of an operator in front of it.
pub fn prefix_bound(op: Prefix) -> u8
    ensures value { result ≡ prefix_least (prefix_of op) }
    ensures small { result ≤ 14 }
{
    match op {
        Prefix::Unary(_) => 13,
        Prefix::Before(_) => 14,
        Prefix::SizeOf => 14,
    }
}

/// The loosest expression in a probe.
pub fn probe_bound(probing: Probing) -> u8
    ensures value { result ≡ probe_least (probing_of probing) }
    ensures small { result ≤ 14 }
{
    match probing {
        Probing::Block | Probing::Test => 0,
        Probing::Use | Probing::Def => 14,
    }
}

// How tightly an operator binds.
fn own_level(op: Operator) -> u8
    ensures { result ≡ oper_level (oper_of op) }
{
    match op {
        Operator::Infix(Infix::Plain(op)) => level_of_binary(op),
        Operator::Infix(Infix::And) => 4,
        Operator::Infix(Infix::Or) => 3,
        Operator::Infix(Infix::Assign(_)) => 1,
        Operator::Infix(Infix::Comma) => 0,
        Operator::Question => 2,
        Operator::Bracket | Operator::Field(_) | Operator::Step(_) => 15,
        Operator::Paren => 16,
    }
}

// The loosest left operand of an operator; nothing binds tightly enough for a parenthesis.
fn left_bound(op: Operator) -> u8
    ensures { result ≡ oper_least (oper_of op) }
{
    match op {
        Operator::Infix(Infix::Plain(op)) => level_of_binary(op),
        Operator::Infix(Infix::And) => 4,
        Operator::Infix(Infix::Or) => 3,
        Operator::Infix(Infix::Assign(_)) => 14,
        Operator::Infix(Infix::Comma) => 0,
        Operator::Question => 3,
        Operator::Bracket | Operator::Field(_) | Operator::Step(_) => 15,
        Operator::Paren => 17,
    }
}

/// How tightly an expression binds.
pub fn level_of(node: &Node) -> u8
    ensures value { result ≡ level (node_shape node.now) }
    ensures small { result ≤ 16 }
{
    match &node.form {
        Expr::Comma(_, _) => 0,
        Expr::Assign(_, _, _) => 1,
        Expr::Cond(_, _, _) => 2,
        Expr::Or(_, _) => 3,
        Expr::And(_, _) => 4,
        Expr::Binary(op, _, _) => level_of_binary(*op),
        Expr::Cast(_, _) => 13,
        Expr::Unary(_, _) | Expr::SizeOf(_) | Expr::SizeOfType(_) => 14,
        Expr::Step(StepOp::PreInc, _) | Expr::Step(StepOp::PreDec, _) => 14,
        Expr::Step(StepOp::PostInc, _) | Expr::Step(StepOp::PostDec, _) => 15,
        Expr::Index(_, _) | Expr::Member(_, _, _) | Expr::Arrow(_, _, _) => 15,
        Expr::Number(_) | Expr::Char(_) | Expr::Str(_) | Expr::Name(_) => 16,
        Expr::Paren(_) | Expr::Call(_, _) | Expr::Probe(_, _) => 16,
    }
}

/// The operator binds at least as tightly as `least`, and takes this operand on its left.
pub fn is_taken(least: u8, left: &Node, op: Operator) -> bool
    ensures { result ≡ takes least (node_shape left.now) (oper_of op) }
{
    least <= own_level(op) && left_bound(op) <= level_of(left)
}
