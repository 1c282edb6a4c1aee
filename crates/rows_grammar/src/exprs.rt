// Expressions: `(- (- a b) c)`.

use crate::spelled::{binary_mark, put_byte, put_text, unary_mark};
use crate::types::put_type_name;
use c_syntax::text::Text;
use c_syntax::tree::{Expr, ExprProbe, Node, StepOp};
use std::alloc::AllocError;

#[cycle(phrases)]
fn put_one(out: &mut String, head: &str, a: &Node) -> Result<(), AllocError> {
    out.push('(')?;
    out.push_str(head)?;
    out.push(' ')?;
    put_node(out, a)?;
    out.push(')')
}

// The front of a part with two operands.
#[cycle(phrases)]
fn put_first(out: &mut String, head: &str, a: &Node) -> Result<(), AllocError> {
    out.push('(')?;
    out.push_str(head)?;
    out.push(' ')?;
    put_node(out, a)?;
    out.push(' ')
}

// The last operand of a part.
#[cycle(phrases)]
fn put_last(out: &mut String, b: &Node) -> Result<(), AllocError> {
    put_node(out, b)?;
    out.push(')')
}

#[cycle(phrases)]
fn put_field(out: &mut String, head: &str, a: &Node, name: &Text) -> Result<(), AllocError> {
    out.push('(')?;
    out.push_str(head)?;
    out.push(' ')?;
    put_node(out, a)?;
    out.push(' ')?;
    put_text(out, name)?;
    out.push(')')
}

/// Each after a space.
#[cycle(phrases)]
pub fn put_nodes(out: &mut String, nodes: &[Node]) -> Result<(), AllocError> {
    for node in nodes {
        out.push(' ')?;
        put_node(out, node)?;
    }
    Ok(())
}

// A probe without the expression in it.
#[cycle(phrases)]
fn put_probe(out: &mut String, probe: &ExprProbe) -> Result<(), AllocError> {
    let (word, number) = match probe {
        ExprProbe::Block(number) => ("block", number),
        ExprProbe::Test(number) => ("test", number),
        ExprProbe::Select(number, _) => ("select", number),
        ExprProbe::Use(number) => ("use", number),
        ExprProbe::Def(number) => ("def", number),
    };
    out.push('(')?;
    out.push_str(word)?;
    out.push(' ')?;
    put_text(out, number)?;
    if let ExprProbe::Select(_, cases) = probe {
        put_nodes(out, cases.as_slice())?;
    }
    out.push(' ')
}

#[cycle(phrases)]
pub fn put_node(out: &mut String, node: &Node) -> Result<(), AllocError> {
    match &node.form {
        Expr::Number(text) | Expr::Name(text) => put_text(out, text),
        Expr::Char(byte) => {
            out.push('\'')?;
            put_byte(out, *byte)?;
            out.push('\'')
        }
        Expr::Str(text) => {
            out.push('"')?;
            put_text(out, text)?;
            out.push('"')
        }
        Expr::Paren(a) => put_one(out, "paren", a),
        Expr::Index(a, b) => {
            put_first(out, "[]", a)?;
            put_last(out, b)
        }
        Expr::Member(a, name, _) => put_field(out, ".", a, name),
        Expr::Arrow(a, name, _) => put_field(out, "->", a, name),
        Expr::Call(name, args) => {
            out.push_str("(call ")?;
            put_text(out, name)?;
            put_nodes(out, args.as_slice())?;
            out.push(')')
        }
        Expr::Unary(op, a) => put_one(out, unary_mark(*op), a),
        Expr::Step(StepOp::PreInc, a) => put_one(out, "++x", a),
        Expr::Step(StepOp::PreDec, a) => put_one(out, "--x", a),
        Expr::Step(StepOp::PostInc, a) => put_one(out, "x++", a),
        Expr::Step(StepOp::PostDec, a) => put_one(out, "x--", a),
        Expr::SizeOf(a) => put_one(out, "sizeof", a),
        Expr::SizeOfType(name) => {
            out.push_str("(sizeof ")?;
            put_type_name(out, name)?;
            out.push(')')
        }
        Expr::Cast(name, a) => {
            out.push_str("(cast ")?;
            put_type_name(out, name)?;
            out.push(' ')?;
            put_node(out, a)?;
            out.push(')')
        }
        Expr::Binary(op, a, b) => {
            put_first(out, binary_mark(*op), a)?;
            put_last(out, b)
        }
        Expr::And(a, b) => {
            put_first(out, "&&", a)?;
            put_last(out, b)
        }
        Expr::Or(a, b) => {
            put_first(out, "||", a)?;
            put_last(out, b)
        }
        Expr::Cond(a, b, c) => {
            out.push_str("(? ")?;
            put_node(out, a)?;
            out.push(' ')?;
            put_node(out, b)?;
            out.push(' ')?;
            put_node(out, c)?;
            out.push(')')
        }
        Expr::Assign(None, a, b) => {
            put_first(out, "=", a)?;
            put_last(out, b)
        }
        Expr::Assign(Some(op), a, b) => {
            out.push_str("(assign ")?;
            out.push_str(binary_mark(*op))?;
            out.push(' ')?;
            put_node(out, a)?;
            out.push(' ')?;
            put_node(out, b)?;
            out.push(')')
        }
        Expr::Comma(a, b) => {
            put_first(out, ",", a)?;
            put_last(out, b)
        }
        Expr::Probe(probe, a) => {
            put_probe(out, probe)?;
            put_last(out, a)
        }
    }
}
