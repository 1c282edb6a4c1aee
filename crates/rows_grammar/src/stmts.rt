// Statements and units: `(if a (if b ;) else ;)`.

use crate::exprs::put_node;
use crate::spelled::put_text;
use crate::types::{put_decl, put_declarator, put_decls, put_specs};
use c_syntax::tree::{Compound, External, Item, Label, Node, ProbeMark, Stmt, StmtForm, Unit};
use std::alloc::AllocError;

fn put_optional(out: &mut String, node: &Option<Node>) -> Result<(), AllocError> {
    match node {
        Some(node) => put_node(out, node),
        None => out.push('_'),
    }
}

fn put_marks(out: &mut String, marks: &[ProbeMark]) -> Result<(), AllocError> {
    for mark in marks {
        out.push_str("#")?;
        put_text(out, &mark.number)?;
        out.push(' ')?;
    }
    Ok(())
}

fn put_label(out: &mut String, label: &Label) -> Result<(), AllocError> {
    match label {
        Label::Case(_, node) => {
            out.push_str("case ")?;
            put_node(out, node)?;
            out.push_str(": ")
        }
        Label::Default(_) => out.push_str("default: "),
    }
}

#[cycle(statements)]
fn put_items(out: &mut String, items: &[Item]) -> Result<(), AllocError> {
    for item in items {
        out.push(' ')?;
        for label in &item.labels {
            put_label(out, label)?;
        }
        put_stmt(out, &item.stmt)?;
    }
    Ok(())
}

#[cycle(statements)]
fn put_compound(out: &mut String, body: &Compound) -> Result<(), AllocError> {
    out.push('{')?;
    put_decls(out, body.decls.as_slice())?;
    put_items(out, body.items.as_slice())?;
    out.push_str(" }")
}

#[cycle(statements)]
fn put_stmt(out: &mut String, stmt: &Stmt) -> Result<(), AllocError> {
    put_marks(out, stmt.probes.as_slice())?;
    put_form(out, &stmt.form)
}

fn put_test(out: &mut String, head: &str, test: &Node) -> Result<(), AllocError> {
    out.push('(')?;
    out.push_str(head)?;
    out.push(' ')?;
    put_node(out, test)?;
    out.push(' ')
}

#[cycle(statements)]
fn put_form(out: &mut String, form: &StmtForm) -> Result<(), AllocError> {
    match form {
        StmtForm::Compound(body) => put_compound(out, body),
        StmtForm::Plain(None) => out.push(';'),
        StmtForm::Plain(Some(node)) => {
            put_node(out, node)?;
            out.push(';')
        }
        StmtForm::If(test, yes, other) => {
            put_test(out, "if", test)?;
            put_stmt(out, yes)?;
            if let Some(other) = other {
                out.push_str(" else ")?;
                put_stmt(out, other)?;
            }
            out.push(')')
        }
        StmtForm::While(test, body) => {
            put_test(out, "while", test)?;
            put_stmt(out, body)?;
            out.push(')')
        }
        StmtForm::Do(body, test) => {
            put_test(out, "do", test)?;
            put_stmt(out, body)?;
            out.push(')')
        }
        StmtForm::For(first, test, step, body) => {
            out.push_str("(for ")?;
            put_optional(out, first)?;
            out.push(' ')?;
            put_optional(out, test)?;
            out.push(' ')?;
            put_optional(out, step)?;
            out.push(' ')?;
            put_stmt(out, body)?;
            out.push(')')
        }
        StmtForm::Switch(test, items) => {
            out.push_str("(switch ")?;
            put_node(out, test)?;
            put_items(out, items.as_slice())?;
            out.push(')')
        }
        StmtForm::Break => out.push_str("break;"),
        StmtForm::Continue => out.push_str("continue;"),
        StmtForm::Return(node) => {
            out.push_str("(return ")?;
            put_optional(out, node)?;
            out.push(')')
        }
    }
}

fn put_external(out: &mut String, external: &External) -> Result<(), AllocError> {
    match external {
        External::Plain(decl) => put_decl(out, decl),
        External::Function(specs, name, marks, body) => {
            out.push_str("(define")?;
            put_specs(out, specs.as_slice())?;
            out.push(' ')?;
            put_declarator(out, name)?;
            out.push(' ')?;
            put_marks(out, marks.as_slice())?;
            put_compound(out, body)?;
            out.push(')')
        }
    }
}

pub fn put_unit(out: &mut String, unit: &Unit) -> Result<(), AllocError> {
    if let Some(line) = &unit.line {
        out.push_str("(program ")?;
        put_text(out, &line.digest)?;
        out.push_str(") ")?;
    }
    for (i, external) in unit.externals.iter().enumerate() {
        if i > 0 {
            out.push(' ')?;
        }
        put_external(out, external)?;
    }
    Ok(())
}
