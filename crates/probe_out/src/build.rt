//! Statements, made from what stands in them.

ghost use Rattle.std.specs.Prelude.{◌≡◌, IfOk};
ghost use Rattle.c_syntax.specs.Shape.{simply, return, while, do_while, for, switch, braces, stmt};
ghost use Rattle.c_syntax.specs.Options.{if_form};
ghost use Rattle.c_syntax.specs.View.{node_shape, form_shape, stmt_shape, item_list, compound_shape, decl_list};
ghost use Rattle.c_copy.specs.Boxes.{boxed_node};

use c_base::place::{NoMemory, Pos};
use c_copy::build::unboxed_node;
use c_copy::parts::boxed;
use c_syntax::tree::{Compound, Decl, Item, Label, Node, ProbeMark, Stmt, StmtForm};
use std::alloc::Global;

/// A statement behind its block probes.
pub fn new_stmt(
    alloc: Global,
    pos: Pos,
    probes: Vec<ProbeMark>,
    at: Pos,
    form: StmtForm,
) -> Result<Box<Stmt>, NoMemory>
    ensures { IfOk result (λ s. stmt_shape s.value ≡ stmt pos probes.items at (form_shape form)) }
{
    boxed(
        alloc,
        Stmt {
            pos,
            probes,
            at,
            form,
        },
    )
}

/// A compound statement.
#[tactic(auto, using(c_syntax::proofs::Made::compound_made))]
pub fn new_compound(pos: Pos, decls: Vec<Decl>, items: Vec<Item>) -> Compound
    ensures { compound_shape result ≡ braces pos (decl_list decls.items) (item_list items.items) }
{
    Compound { pos, decls, items }
}

/// An expression statement.
pub fn new_plain(node: Option<Box<Node>>) -> StmtForm
    ensures { form_shape result ≡ simply (boxed_node node) }
{
    StmtForm::Plain(unboxed_node(node))
}

/// A `return`.
pub fn new_return(node: Option<Box<Node>>) -> StmtForm
    ensures { form_shape result ≡ return (boxed_node node) }
{
    StmtForm::Return(unboxed_node(node))
}

/// An `if`, and what stands behind its `else`, where it has one.
#[tactic(auto, using(c_syntax::proofs::Open::if_open))]
pub fn new_if(test: Box<Node>, first: Box<Stmt>, other: Option<Box<Stmt>>) -> StmtForm
    ensures { form_shape result ≡ if_form (node_shape test.value) (stmt_shape first.value) other }
{
    StmtForm::If(Box::into_inner(test), first, other)
}

/// A `while`.
pub fn new_while(test: Box<Node>, body: Box<Stmt>) -> StmtForm
    ensures { form_shape result ≡ while (node_shape test.value) (stmt_shape body.value) }
{
    StmtForm::While(Box::into_inner(test), body)
}

/// A `do`.
pub fn new_do(body: Box<Stmt>, test: Box<Node>) -> StmtForm
    ensures { form_shape result ≡ do_while (stmt_shape body.value) (node_shape test.value) }
{
    StmtForm::Do(body, Box::into_inner(test))
}

/// A `for`.
pub fn new_for(
    first: Option<Box<Node>>,
    test: Option<Box<Node>>,
    step: Option<Box<Node>>,
    body: Box<Stmt>,
) -> StmtForm
    ensures { form_shape result ≡ for (boxed_node first) (boxed_node test) (boxed_node step) (stmt_shape body.value) }
{
    StmtForm::For(
        unboxed_node(first),
        unboxed_node(test),
        unboxed_node(step),
        body,
    )
}

/// A `switch`.
#[tactic(auto, using(c_syntax::proofs::Open::switch_open))]
pub fn new_switch(test: Box<Node>, items: Vec<Item>) -> StmtForm
    ensures { form_shape result ≡ switch (node_shape test.value) (item_list items.items) }
{
    StmtForm::Switch(Box::into_inner(test), items)
}

/// A statement with its labels.
pub fn new_item(labels: Vec<Label>, stmt: Box<Stmt>) -> Item
    ensures labels { result.labels.items ≡ labels.items }
    ensures stmt { stmt_shape result.stmt ≡ stmt_shape stmt.value }
{
    Item {
        labels,
        stmt: Box::into_inner(stmt),
    }
}
