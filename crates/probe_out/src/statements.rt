//! Statements without their probes.

ghost use Rattle.std.specs.Prelude.{◌≡◌, map, IfOk};
ghost use Rattle.c_syntax.specs.Shape.{switch};
ghost use Rattle.c_syntax.specs.View.{node_shape, label_shape, stmt_shape, form_shape, item_list, compound_shape};
ghost use Rattle.c_tree.specs.Erased.{erased_node, erased_label, erased_stmt, erased_body, erased_compound, erased_items};

use crate::build::{
    new_compound, new_do, new_for, new_if, new_item, new_plain, new_return, new_stmt, new_switch,
    new_while,
};
use crate::tree::{erased, erased_decls, erased_maybe};
use c_base::place::NoMemory;
use c_copy::parts::{boxed, put, put_inner};
use c_syntax::tree::{Compound, Item, Label, Node, Stmt, StmtForm};
use std::alloc::Global;

// ---- labels

fn erased_label(alloc: Global, label: &Label) -> Result<Box<Label>, NoMemory>
    ensures { IfOk result (λ l. label_shape l.value ≡ erased_label (label_shape label.now)) }
{
    match label {
        Label::Case(pos, node) => {
            let node = erased(alloc, node)?;
            boxed(alloc, Label::Case(*pos, Box::into_inner(node)))
        }
        Label::Default(pos) => boxed(alloc, Label::Default(*pos)),
    }
}

fn erased_labels(alloc: Global, labels: &[Label]) -> Result<Vec<Label>, NoMemory>
    ensures { IfOk result (λ v. map label_shape v.items ≡ map erased_label (map label_shape labels.now)) }
{
    let mut made = Vec::new(alloc);
    for label in labels {
        let inner = erased_label(alloc, label)?;
        put_inner(&mut made, inner)?;
    }
    Ok(made)
}

// ---- statements

// A statement, with no probe in front of it.
#[cycle(statement)]
fn erased_stmt(alloc: Global, stmt: &Stmt) -> Result<Box<Stmt>, NoMemory>
    ensures { IfOk result (λ s. stmt_shape s.value ≡ erased_stmt (stmt_shape stmt.now)) }
{
    let form = erased_body(alloc, &stmt.form)?;
    new_stmt(alloc, stmt.pos, Vec::new(alloc), stmt.at, form)
}

#[cycle(statement)]
fn erased_body(alloc: Global, form: &StmtForm) -> Result<StmtForm, NoMemory>
    ensures { IfOk result (λ f. form_shape f ≡ erased_body (form_shape form.now)) }
{
    match form {
        StmtForm::Compound(body) => Ok(StmtForm::Compound(erased_compound(alloc, body)?)),
        StmtForm::Plain(node) => Ok(new_plain(erased_maybe(alloc, node)?)),
        StmtForm::If(test, first, other) => {
            let test = erased(alloc, test)?;
            let first = erased_stmt(alloc, first)?;
            match other {
                None => Ok(new_if(test, first, None)),
                Some(other) => Ok(new_if(test, first, Some(erased_stmt(alloc, other)?))),
            }
        }
        StmtForm::While(test, body) => {
            let test = erased(alloc, test)?;
            Ok(new_while(test, erased_stmt(alloc, body)?))
        }
        StmtForm::Do(body, test) => {
            let body = erased_stmt(alloc, body)?;
            Ok(new_do(body, erased(alloc, test)?))
        }
        StmtForm::For(first, test, step, body) => {
            let first = erased_maybe(alloc, first)?;
            let test = erased_maybe(alloc, test)?;
            let step = erased_maybe(alloc, step)?;
            Ok(new_for(first, test, step, erased_stmt(alloc, body)?))
        }
        StmtForm::Switch(test, items) => erased_switch(alloc, items, test),
        StmtForm::Break => Ok(StmtForm::Break),
        StmtForm::Continue => Ok(StmtForm::Continue),
        StmtForm::Return(node) => Ok(new_return(erased_maybe(alloc, node)?)),
    }
}

#[cycle(statement)]
fn erased_switch(alloc: Global, items: &[Item], test: &Node) -> Result<StmtForm, NoMemory>
    ensures { IfOk result (λ f. form_shape f ≡ switch (erased_node (node_shape test.now)) (erased_items (item_list items.now))) }
{
    let test = erased(alloc, test)?;
    let items = erased_items(alloc, items)?;
    Ok(new_switch(test, items))
}

/// A compound statement.
#[cycle(statement)]
#[tactic(auto, using(std::proofs::lemmas::Grind::common_steps, c_syntax::proofs::Open::compound_open))]
pub fn erased_compound(alloc: Global, body: &Compound) -> Result<Compound, NoMemory>
    ensures { IfOk result (λ b. compound_shape b ≡ erased_compound (compound_shape body.now)) }
{
    let decls = erased_decls(alloc, &body.decls)?;
    let items = erased_items(alloc, &body.items)?;
    Ok(new_compound(body.pos, decls, items))
}

// Statements in a list.
#[cycle(statement)]
fn erased_items(alloc: Global, items: &[Item]) -> Result<Vec<Item>, NoMemory>
    ensures { IfOk result (λ v. item_list v.items ≡ erased_items (item_list items.now)) }
{
    let mut made = Vec::new(alloc);
    for item in items {
        let labels = erased_labels(alloc, &item.labels)?;
        let stmt = erased_stmt(alloc, &item.stmt)?;
        put(&mut made, new_item(labels, stmt))?;
    }
    Ok(made)
}
