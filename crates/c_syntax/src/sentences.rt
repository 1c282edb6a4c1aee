// Statements and units written back as tokens.

ghost use Rattle.std.specs.Prelude.{◌≡◌, ◌++◌, map, OnOk, IfOk};
ghost use Rattle.c_syntax.specs.declared.token.Mark.{Mark};
ghost use Rattle.c_syntax.specs.declared.token.Key.{Key};
ghost use Rattle.c_syntax.specs.Forms.{kinds, kinds_of, key, mark, ◌▷◌};
ghost use Rattle.c_syntax.specs.View.{node_shape, maybe_node, label_shape, stmt_shape, form_shape, item_list, compound_shape, external_shape, unit_shape};
ghost use Rattle.c_syntax.specs.Grammar.{in_parens, ended, maybe_node_form, labels_form, stmt_form, body_form, items_form, compound_form, external_form, node_form, tokens_of};
ghost use Rattle.c_syntax.specs.Start.{AllAtStart};

use crate::phrases::{put_decl, put_declarator, put_decls, put_node, put_parens, put_specs};
use crate::token::{Key, Mark, Token};
use crate::tree::{Compound, External, Item, Label, Node, Stmt, StmtForm, Unit};
use crate::words::{put_line, put_marks};
use crate::writer::Writer;
use c_base::place::NoMemory;
use std::alloc::Global;

fn put_maybe(out: &mut Writer, node: &Option<Node>) -> Result<(), NoMemory>
    ensures { OnOk result (out.new ≡ out.old ++ kinds (maybe_node_form (maybe_node node.now))) }
{
    match node {
        None => Ok(()),
        Some(node) => put_node(out, node),
    }
}

// An expression, where there is one, and a semicolon.
fn put_ended(out: &mut Writer, node: &Option<Node>) -> Result<(), NoMemory>
    ensures { OnOk result (out.new ≡ out.old ++ kinds (ended (maybe_node_form (maybe_node node.now)))) }
{
    put_maybe(out, node)?;
    out.mark(Mark::Semicolon)
}

// What stands in the parentheses of a `for`, and these.
fn put_steps(
    out: &mut Writer,
    first: &Option<Node>,
    test: &Option<Node>,
    step: &Option<Node>,
) -> Result<(), NoMemory>
    ensures { OnOk result (out.new ≡ out.old ++ kinds (in_parens (ended (maybe_node_form (maybe_node first.now)) ▷ ended (maybe_node_form (maybe_node test.now)) ▷ maybe_node_form (maybe_node step.now)))) }
{
    out.mark(Mark::LeftParen)?;
    put_ended(out, first)?;
    put_ended(out, test)?;
    put_maybe(out, step)?;
    out.mark(Mark::RightParen)
}

fn put_labels(out: &mut Writer, labels: &[Label]) -> Result<(), NoMemory>
    ensures { OnOk result (out.new ≡ out.old ++ kinds (labels_form (map label_shape labels.now))) }
{
    for label in labels {
        match label {
            Label::Case(_, node) => {
                out.key(Key::Case)?;
                put_node(out, node)?;
            }
            Label::Default(_) => out.key(Key::Default)?,
        }
        out.mark(Mark::Colon)?;
    }
    Ok(())
}

#[cycle(statement)]
fn put_stmt(out: &mut Writer, stmt: &Stmt) -> Result<(), NoMemory>
    ensures { OnOk result (out.new ≡ out.old ++ kinds (stmt_form (stmt_shape stmt.now))) }
{
    put_marks(out, &stmt.probes)?;
    put_form(out, &stmt.form)
}

#[cycle(statement)]
#[tactic(auto, using(crate::proofs::Open::if_open))]
fn put_form(out: &mut Writer, form: &StmtForm) -> Result<(), NoMemory>
    ensures { OnOk result (out.new ≡ out.old ++ kinds (body_form (form_shape form.now))) }
{
    match form {
        StmtForm::Compound(body) => put_compound(out, body),
        StmtForm::Plain(node) => put_ended(out, node),
        StmtForm::If(test, first, other) => {
            out.key(Key::If)?;
            put_parens(out, test)?;
            put_stmt(out, first)?;
            match other {
                None => Ok(()),
                Some(other) => {
                    out.key(Key::Else)?;
                    put_stmt(out, other)
                }
            }
        }
        StmtForm::While(test, body) => {
            out.key(Key::While)?;
            put_parens(out, test)?;
            put_stmt(out, body)
        }
        StmtForm::Do(body, test) => {
            out.key(Key::Do)?;
            put_stmt(out, body)?;
            out.key(Key::While)?;
            put_parens(out, test)?;
            out.mark(Mark::Semicolon)
        }
        StmtForm::For(first, test, step, body) => {
            out.key(Key::For)?;
            put_steps(out, first, test, step)?;
            put_stmt(out, body)
        }
        StmtForm::Switch(test, items) => put_switch(out, items, test),
        StmtForm::Break => {
            out.key(Key::Break)?;
            out.mark(Mark::Semicolon)
        }
        StmtForm::Continue => {
            out.key(Key::Continue)?;
            out.mark(Mark::Semicolon)
        }
        StmtForm::Return(node) => {
            out.key(Key::Return)?;
            put_ended(out, node)
        }
    }
}

#[cycle(statement)]
fn put_switch(out: &mut Writer, items: &[Item], test: &Node) -> Result<(), NoMemory>
    ensures { OnOk result (out.new ≡ out.old ++ kinds (key Key.Switch ▷ in_parens (node_form (node_shape test.now)) ▷ mark Mark.LeftBrace ▷ items_form (item_list items.now) ▷ mark Mark.RightBrace)) }
{
    out.key(Key::Switch)?;
    put_parens(out, test)?;
    out.mark(Mark::LeftBrace)?;
    put_items(out, items)?;
    out.mark(Mark::RightBrace)
}

#[cycle(statement)]
#[tactic(auto, using(std::proofs::lemmas::Grind::common_steps, crate::proofs::Open::compound_open))]
fn put_compound(out: &mut Writer, body: &Compound) -> Result<(), NoMemory>
    ensures { OnOk result (out.new ≡ out.old ++ kinds (compound_form (compound_shape body.now))) }
{
    out.mark(Mark::LeftBrace)?;
    put_decls(out, &body.decls)?;
    put_items(out, &body.items)?;
    out.mark(Mark::RightBrace)
}

#[cycle(statement)]
fn put_items(out: &mut Writer, items: &[Item]) -> Result<(), NoMemory>
    ensures { OnOk result (out.new ≡ out.old ++ kinds (items_form (item_list items.now))) }
{
    for item in items {
        put_labels(out, &item.labels)?;
        put_stmt(out, &item.stmt)?;
    }
    Ok(())
}

fn put_external(out: &mut Writer, external: &External) -> Result<(), NoMemory>
    ensures { OnOk result (out.new ≡ out.old ++ kinds (external_form (external_shape external.now))) }
{
    match external {
        External::Function(specs, name, probes, body) => {
            put_specs(out, specs)?;
            put_declarator(out, name)?;
            put_marks(out, probes)?;
            put_compound(out, body)
        }
        External::Plain(decl) => put_decl(out, decl),
    }
}

/// The unit written back as tokens, each at line 1, column 1; `NoMemory` where there is no memory for them
/// (C89, 3.7).
pub fn tokens_of(alloc: Global, unit: &Unit) -> Result<Vec<Token>, NoMemory>
    ensures written { IfOk result (λ tokens. kinds_of tokens.items ≡ tokens_of (unit_shape unit.now)) }
    ensures placed { IfOk result (λ tokens. AllAtStart tokens.items) }
{
    let mut out = Writer::new(alloc);
    put_line(&mut out, &unit.line)?;
    for external in &unit.externals {
        put_external(&mut out, external)?;
    }
    Ok(out.into_tokens())
}
