// Statements (C89, 3.6).

ghost use Rattle.std.specs.Prelude.{◌≡◌, map, OnOk, IfOk};
ghost use Rattle.c_type_rules.specs.Kinds.{type_in};
ghost use Rattle.c_syntax.specs.Shape.{compound, while, do_while, for, switch};
ghost use Rattle.c_syntax.specs.View.{node_shape, maybe_node, label_shape, stmt_shape, form_shape, item_list, compound_shape};
ghost use Rattle.c_tables.specs.Rows.{first_place};
ghost use Rattle.c_tree.specs.Stating.{type_stmt, type_body, type_compound, type_items};
ghost use Rattle.c_checker.specs.CheckerView.{state_of};
ghost use Rattle.c_types.specs.Around.{around};
ghost use Rattle.c_types.specs.LabelsView.{labels_in, BothAlike};
ghost use Rattle.c_types.specs.Stated.{maybe_stmt, if_shaped, type_else, type_item};

use crate::expressions::{
    type_for_head, type_head, type_marks, type_simply, type_switched, type_tested,
};
use crate::jumps::{Jumps, type_break, type_continue, type_return};
use crate::labels::{Labels, type_labels};
use c_base::place::{NoMemory, Pos};
use c_checker::checker::Checker;
use c_syntax::tree::{CType, Compound, Item, Node, Stmt, StmtForm};
use c_types_decl::declarations::type_decls;
use c_types_decl::scopes::{close_scope, open_scope};

/// Types a statement in place; `gives` is what its function gives, where that is known.
#[cycle(statement)]
pub fn type_stmt(
    checker: &mut Checker,
    jumps: Jumps,
    gives: &Option<CType>,
    stmt: &mut Stmt,
) -> Result<(), NoMemory>
    ensures tree { OnOk result (stmt_shape stmt.new ≡ (type_stmt (around jumps (type_in gives.now)) (stmt_shape stmt.old) (state_of checker.old)).stmt) }
    ensures state { OnOk result (state_of checker.new ≡ (type_stmt (around jumps (type_in gives.now)) (stmt_shape stmt.old) (state_of checker.old)).state) }
{
    type_marks(checker, &stmt.probes)?;
    let pos = stmt.at;
    type_form(checker, jumps, gives, pos, &mut stmt.form)?;
    Ok(())
}

// Types the form of a statement in place, which begins at that place.
#[cycle(statement)]
fn type_form(
    checker: &mut Checker,
    jumps: Jumps,
    gives: &Option<CType>,
    pos: Pos,
    form: &mut StmtForm,
) -> Result<(), NoMemory>
    ensures tree { OnOk result (form_shape form.new ≡ (type_body (around jumps (type_in gives.now)) pos (form_shape form.old) (state_of checker.old)).form) }
    ensures state { OnOk result (state_of checker.new ≡ (type_body (around jumps (type_in gives.now)) pos (form_shape form.old) (state_of checker.old)).state) }
{
    match form {
        StmtForm::Compound(body) => type_block(checker, jumps, gives, body),
        StmtForm::Plain(node) => type_simply(checker, node),
        StmtForm::If(test, first, other) => { type_if(checker, jumps, gives, test, first, other) }
        StmtForm::While(test, body) => type_while(checker, jumps, gives, test, body),
        StmtForm::Do(body, test) => type_do(checker, jumps, gives, body, test),
        StmtForm::For(first, test, step, body) => {
            type_for(checker, jumps, gives, first, test, step, body)
        }
        StmtForm::Switch(test, items) => type_switch(checker, jumps, gives, test, items),
        StmtForm::Break => type_break(checker, jumps, pos),
        StmtForm::Continue => type_continue(checker, jumps, pos),
        StmtForm::Return(node) => type_return(checker, pos, gives, node),
    }
}

// A compound statement, with its scope.
#[cycle(statement)]
fn type_block(
    checker: &mut Checker,
    jumps: Jumps,
    gives: &Option<CType>,
    body: &mut Compound,
) -> Result<(), NoMemory>
    ensures tree { OnOk result (compound (compound_shape body.new) ≡ (type_body (around jumps (type_in gives.now)) first_place (compound (compound_shape body.old)) (state_of checker.old)).form) }
    ensures state { OnOk result (state_of checker.new ≡ (type_body (around jumps (type_in gives.now)) first_place (compound (compound_shape body.old)) (state_of checker.old)).state) }
{
    open_scope(checker)?;
    type_compound(checker, jumps, gives, body)?;
    close_scope(checker);
    Ok(())
}

/// Types the braces with what stands in them in place, in a scope that is open.
#[cycle(statement)]
#[tactic(auto, using(c_syntax::proofs::Open::compound_open))]
pub fn type_compound(
    checker: &mut Checker,
    jumps: Jumps,
    gives: &Option<CType>,
    body: &mut Compound,
) -> Result<(), NoMemory>
    ensures tree { OnOk result (compound_shape body.new ≡ (type_compound (around jumps (type_in gives.now)) (compound_shape body.old) (state_of checker.old)).compound) }
    ensures state { OnOk result (state_of checker.new ≡ (type_compound (around jumps (type_in gives.now)) (compound_shape body.old) (state_of checker.old)).state) }
{
    checker.step();
    type_decls(checker, &mut body.decls)?;
    let mut labels = None;
    type_items(checker, jumps, gives, &mut labels, &mut body.items)?;
    checker.step();
    Ok(())
}

// An `if`.
#[cycle(statement)]
fn type_if(
    checker: &mut Checker,
    jumps: Jumps,
    gives: &Option<CType>,
    test: &mut Node,
    first: &mut Stmt,
    other: &mut Option<Box<Stmt>>,
) -> Result<(), NoMemory>
    ensures tree { OnOk result (if_shaped (node_shape test.new) (stmt_shape first.new) (maybe_stmt other.new) ≡ (type_body (around jumps (type_in gives.now)) first_place (if_shaped (node_shape test.old) (stmt_shape first.old) (maybe_stmt other.old)) (state_of checker.old)).form) }
    ensures state { OnOk result (state_of checker.new ≡ (type_body (around jumps (type_in gives.now)) first_place (if_shaped (node_shape test.old) (stmt_shape first.old) (maybe_stmt other.old)) (state_of checker.old)).state) }
{
    type_head(checker, test)?;
    type_stmt(checker, jumps, gives, first)?;
    type_else(checker, jumps, gives, other)?;
    Ok(())
}

// The statement behind the `else`, with that key, where there is one.
#[cycle(statement)]
fn type_else(
    checker: &mut Checker,
    jumps: Jumps,
    gives: &Option<CType>,
    other: &mut Option<Box<Stmt>>,
) -> Result<(), NoMemory>
    ensures tree { OnOk result (maybe_stmt other.new ≡ (type_else (around jumps (type_in gives.now)) (maybe_stmt other.old) (state_of checker.old)).other) }
    ensures state { OnOk result (state_of checker.new ≡ (type_else (around jumps (type_in gives.now)) (maybe_stmt other.old) (state_of checker.old)).state) }
{
    match other {
        None => Ok(()),
        Some(other) => {
            checker.step();
            type_stmt(checker, jumps, gives, other)?;
            Ok(())
        }
    }
}

// A `while`.
#[cycle(statement)]
fn type_while(
    checker: &mut Checker,
    jumps: Jumps,
    gives: &Option<CType>,
    test: &mut Node,
    body: &mut Stmt,
) -> Result<(), NoMemory>
    ensures tree { OnOk result (while (node_shape test.new) (stmt_shape body.new) ≡ (type_body (around jumps (type_in gives.now)) first_place (while (node_shape test.old) (stmt_shape body.old)) (state_of checker.old)).form) }
    ensures state { OnOk result (state_of checker.new ≡ (type_body (around jumps (type_in gives.now)) first_place (while (node_shape test.old) (stmt_shape body.old)) (state_of checker.old)).state) }
{
    type_head(checker, test)?;
    let inside = jumps.in_loop();
    type_stmt(checker, inside, gives, body)?;
    Ok(())
}

// A `do`.
#[cycle(statement)]
fn type_do(
    checker: &mut Checker,
    jumps: Jumps,
    gives: &Option<CType>,
    body: &mut Stmt,
    test: &mut Node,
) -> Result<(), NoMemory>
    ensures tree { OnOk result (do_while (stmt_shape body.new) (node_shape test.new) ≡ (type_body (around jumps (type_in gives.now)) first_place (do_while (stmt_shape body.old) (node_shape test.old)) (state_of checker.old)).form) }
    ensures state { OnOk result (state_of checker.new ≡ (type_body (around jumps (type_in gives.now)) first_place (do_while (stmt_shape body.old) (node_shape test.old)) (state_of checker.old)).state) }
{
    checker.step();
    let inside = jumps.in_loop();
    type_stmt(checker, inside, gives, body)?;
    checker.steps(2);
    type_tested(checker, test)?;
    checker.steps(2);
    Ok(())
}

// A `for`.
#[cycle(statement)]
fn type_for(
    checker: &mut Checker,
    jumps: Jumps,
    gives: &Option<CType>,
    first: &mut Option<Node>,
    test: &mut Option<Node>,
    step: &mut Option<Node>,
    body: &mut Stmt,
) -> Result<(), NoMemory>
    ensures tree { OnOk result (for (maybe_node first.new) (maybe_node test.new) (maybe_node step.new) (stmt_shape body.new) ≡ (type_body (around jumps (type_in gives.now)) first_place (for (maybe_node first.old) (maybe_node test.old) (maybe_node step.old) (stmt_shape body.old)) (state_of checker.old)).form) }
    ensures state { OnOk result (state_of checker.new ≡ (type_body (around jumps (type_in gives.now)) first_place (for (maybe_node first.old) (maybe_node test.old) (maybe_node step.old) (stmt_shape body.old)) (state_of checker.old)).state) }
{
    type_for_head(checker, first, test, step)?;
    let inside = jumps.in_loop();
    type_stmt(checker, inside, gives, body)?;
    Ok(())
}

// A `switch`, with the braces round its statements.
#[cycle(statement)]
fn type_switch(
    checker: &mut Checker,
    jumps: Jumps,
    gives: &Option<CType>,
    test: &mut Node,
    items: &mut Vec<Item>,
) -> Result<(), NoMemory>
    ensures tree { OnOk result (switch (node_shape test.new) (item_list items.new.items) ≡ (type_body (around jumps (type_in gives.now)) first_place (switch (node_shape test.old) (item_list items.old.items)) (state_of checker.old)).form) }
    ensures state { OnOk result (state_of checker.new ≡ (type_body (around jumps (type_in gives.now)) first_place (switch (node_shape test.old) (item_list items.old.items)) (state_of checker.old)).state) }
{
    let kind = type_switched(checker, test)?;
    let mut labels = Some(Labels::new(checker.alloc, kind));
    let inside = jumps.in_switch();
    type_items(checker, inside, gives, &mut labels, items)?;
    checker.step();
    Ok(())
}

// Types statements with their labels in place; the labels are those of the `switch` in which they directly stand.
#[cycle(statement)]
fn type_items(
    checker: &mut Checker,
    jumps: Jumps,
    gives: &Option<CType>,
    labels: &mut Option<Labels>,
    items: &mut Vec<Item>,
) -> Result<(), NoMemory>
    ensures tree { OnOk result (item_list items.new.items ≡ (type_items (around jumps (type_in gives.now)) (labels_in labels.old) (item_list items.old.items) (state_of checker.old)).items) }
    ensures state { OnOk result (state_of checker.new ≡ (type_items (around jumps (type_in gives.now)) (labels_in labels.old) (item_list items.old.items) (state_of checker.old)).state) }
{
    for i in 0..items.len() {
        type_item(checker, jumps, gives, labels, &mut items[i])?;
    }
    Ok(())
}

// Types a statement with its labels in place.
#[cycle(statement)]
fn type_item(
    checker: &mut Checker,
    jumps: Jumps,
    gives: &Option<CType>,
    labels: &mut Option<Labels>,
    item: &mut Item,
) -> Result<(), NoMemory>
    ensures labelled { OnOk result (map label_shape item.new.labels.items ≡ (type_item (around jumps (type_in gives.now)) (labels_in labels.old) (map label_shape item.old.labels.items) (stmt_shape item.old.stmt) (state_of checker.old)).labels) }
    ensures stmt { OnOk result (stmt_shape item.new.stmt ≡ (type_item (around jumps (type_in gives.now)) (labels_in labels.old) (map label_shape item.old.labels.items) (stmt_shape item.old.stmt) (state_of checker.old)).stmt) }
    ensures labels { OnOk result (BothAlike (labels_in labels.new) (type_item (around jumps (type_in gives.now)) (labels_in labels.old) (map label_shape item.old.labels.items) (stmt_shape item.old.stmt) (state_of checker.old)).so_far) }
    ensures state { OnOk result (state_of checker.new ≡ (type_item (around jumps (type_in gives.now)) (labels_in labels.old) (map label_shape item.old.labels.items) (stmt_shape item.old.stmt) (state_of checker.old)).state) }
{
    type_labels(checker, labels, &mut item.labels)?;
    type_stmt(checker, jumps, gives, &mut item.stmt)?;
    Ok(())
}
