//! Statements (C89, 3.6). Each leads to the rows behind its end, behind a `break`, a `continue` and a `return`.

ghost use Rattle.std.specs.Prelude.{◌≡◌, ◌||◌, suc, map, length, false, Option, IfOk, OnOk};
ghost use Rattle.c_base.specs.declared.place.IntKind.{IntKind};
ghost use Rattle.c_syntax.specs.Shape.{ItemShapes};
ghost use Rattle.c_syntax.specs.View.{label_shape, node_shape, stmt_shape, form_shape, compound_shape, item_list};
ghost use Rattle.c_tables.specs.Tables.{tables_shape};
ghost use Rattle.c_walk.specs.Tests.{case_values};
ghost use Rattle.c_walk.specs.Walked.{Walked, next_decision};
ghost use Rattle.c_walk.specs.Stating.{splits, is_labelled, walk_choice, walk_stmt, walk_body, walk_part, walk_compound, walk_items};
ghost use Rattle.flow_walks.specs.declared.action.Action.TheVariants.{Test};
ghost use Rattle.flow_walks.specs.Comes.{act, emit};
ghost use Rattle.flow_walks.specs.Statements.{stmt_goes, body_goes, part_goes, compound_goes, items_go, at_cases, at_default};
ghost use Rattle.flow_rows.specs.Counts.{counts};
ghost use Rattle.flow_rows.specs.Laying.{Placed, exits, loop_targets, switch_targets, then_targets};
ghost use Rattle.flow_rows.specs.Listed.{item_goes, walk_item, choice_goes};
ghost use Rattle.flow_rows.specs.View.{rows_of};

use crate::cases::{first_choices, last_choices, next_choices};
use crate::declarations::lay_decls;
use crate::layer::Layer;
use crate::nodes::{lay_loop_test, lay_node, lay_test};
use crate::optional::{lay_maybe, lay_maybe_test, lay_step};
use crate::targets::{Targets, To};
use c_base::place::NoMemory;
use c_syntax::tree::{Compound, Item, Label, Node, Stmt, StmtForm};
use c_tables::tables::Tables;
use c_walk::around::Taken;
use flow_walks::action::Action;

// Whether what stands behind it in a list is a block.
fn splits(stmt: &Stmt) -> bool
    ensures { result ≡ splits (stmt_shape stmt.now) }
{
    match &stmt.form {
        StmtForm::Plain(_) => false,
        StmtForm::Compound(_)
        | StmtForm::If(_, _, _)
        | StmtForm::While(_, _)
        | StmtForm::Do(_, _)
        | StmtForm::For(_, _, _, _)
        | StmtForm::Switch(_, _)
        | StmtForm::Break
        | StmtForm::Continue
        | StmtForm::Return(_) => true,
    }
}

// Whether a statement with these labels is a block in a list.
fn begins_block(after: bool, labels: &[Label]) -> bool
    ensures { result ≡ (after || is_labelled (map label_shape labels.now)) }
{
    match labels {
        [] => after,
        _ => true,
    }
}

// Within a loop that goes on at that row.
fn loop_targets(again: u32, to: Targets) -> Targets
    ensures { result ≡ loop_targets again to }
{
    Targets {
        next: again,
        broken: to.next,
        continued: again,
        returned: to.returned,
    }
}

// Within a switch: a `break` leads behind it.
fn switch_targets(to: Targets) -> Targets
    ensures { result ≡ switch_targets to }
{
    Targets {
        next: to.next,
        broken: to.next,
        continued: to.continued,
        returned: to.returned,
    }
}

// The same, with another row behind its end.
fn then_targets(next: u32, to: Targets) -> Targets
    ensures { result ≡ then_targets next to }
{
    Targets {
        next,
        broken: to.broken,
        continued: to.continued,
        returned: to.returned,
    }
}

// The expression of a switch, a decision between its cases, whose number is answered.
fn lay_choosing(
    out: &mut Layer,
    tables: &Tables,
    node: &Node,
    at: u32,
    to: u32,
) -> Result<u16, NoMemory>
    ensures placed { OnOk result ((items : ItemShapes) → Placed (rows_of out.old.rows) (rows_of out.new.rows) out.old.numbers out.new.numbers at (λ c w k. choice_goes (tables_shape tables.now) c (node_shape node.now) items w (k to)) (λ c w. walk_choice c (node_shape node.now) items w)) }
    ensures number { IfOk result (λ d. (w : Walked) → counts w ≡ out.old.numbers → d ≡ next_decision w) }
{
    let number = out.numbers.next_decision()?;
    out.numbers.decision()?;
    lay_node(out, tables, Taken::Read, node, at, To::Value(to))?;
    Ok(number)
}

// A statement.
#[cycle(stating)]
fn lay_stmt(
    out: &mut Layer,
    tables: &Tables,
    stmt: &Stmt,
    at: u32,
    to: Targets,
) -> Result<(), NoMemory>
    ensures { OnOk result (Placed (rows_of out.old.rows) (rows_of out.new.rows) out.old.numbers out.new.numbers at (λ c w k. stmt_goes (tables_shape tables.now) c (stmt_shape stmt.now) w (exits k to)) (λ c w. walk_stmt (tables_shape tables.now) c (stmt_shape stmt.now) w)) }
{
    lay_body(out, tables, &stmt.form, at, to)?;
    Ok(())
}

// A statement by its form.
#[cycle(stating)]
fn lay_body(
    out: &mut Layer,
    tables: &Tables,
    form: &StmtForm,
    at: u32,
    to: Targets,
) -> Result<(), NoMemory>
    ensures { OnOk result (Placed (rows_of out.old.rows) (rows_of out.new.rows) out.old.numbers out.new.numbers at (λ c w k. body_goes (tables_shape tables.now) c (form_shape form.now) w (exits k to)) (λ c w. walk_body (tables_shape tables.now) c (form_shape form.now) w)) }
{
    match form {
        StmtForm::Compound(body) => {
            lay_compound(out, tables, body, at, to)?;
            Ok(())
        }
        StmtForm::Plain(node) => {
            lay_maybe(out, tables, node, at, to.next)?;
            Ok(())
        }
        StmtForm::If(test, first, other) => {
            let yes = out.rows.hole()?;
            match other {
                None => {
                    lay_test(out, tables, test, at, yes, to.next)?;
                    lay_part(out, tables, first, yes, to)?;
                    Ok(())
                }
                Some(other) => {
                    let no = out.rows.hole()?;
                    lay_test(out, tables, test, at, yes, no)?;
                    lay_part(out, tables, first, yes, to)?;
                    lay_part(out, tables, other, no, to)?;
                    Ok(())
                }
            }
        }
        StmtForm::While(test, body) => {
            let inner = out.rows.hole()?;
            lay_loop_test(out, tables, test, at, inner, to.next)?;
            lay_part(out, tables, body, inner, loop_targets(at, to))?;
            Ok(())
        }
        StmtForm::Do(body, test) => {
            let again = out.rows.hole()?;
            lay_part(out, tables, body, at, loop_targets(again, to))?;
            lay_loop_test(out, tables, test, again, at, to.next)?;
            Ok(())
        }
        StmtForm::For(first, test, step, body) => {
            let head = out.rows.hole()?;
            let inner = out.rows.hole()?;
            let again = out.rows.hole()?;
            lay_maybe(out, tables, first, at, head)?;
            lay_maybe_test(out, tables, test, head, inner, to.next)?;
            lay_step(out, tables, step, again, head)?;
            lay_part(out, tables, body, inner, loop_targets(again, to))?;
            Ok(())
        }
        StmtForm::Switch(node, items) => {
            let inner = out.rows.hole()?;
            let decision = lay_choosing(out, tables, node, at, inner)?;
            lay_choices(out, tables, decision, items, inner, switch_targets(to))?;
            Ok(())
        }
        StmtForm::Break => {
            out.rows.fill(at, Action::Nothing, to.broken)?;
            Ok(())
        }
        StmtForm::Continue => {
            out.rows.fill(at, Action::Nothing, to.continued)?;
            Ok(())
        }
        StmtForm::Return(node) => {
            lay_maybe(out, tables, node, at, to.returned)?;
            Ok(())
        }
    }
}

// A substatement of `if`, `else` or a loop, which is a block.
#[cycle(stating)]
fn lay_part(
    out: &mut Layer,
    tables: &Tables,
    stmt: &Stmt,
    at: u32,
    to: Targets,
) -> Result<(), NoMemory>
    ensures { OnOk result (Placed (rows_of out.old.rows) (rows_of out.new.rows) out.old.numbers out.new.numbers at (λ c w k. part_goes (tables_shape tables.now) c (stmt_shape stmt.now) w (exits k to)) (λ c w. walk_part (tables_shape tables.now) c (stmt_shape stmt.now) w)) }
{
    let number = out.numbers.next_block()?;
    let inner = out.rows.hole()?;
    out.rows.fill(at, Action::Block(number), inner)?;
    out.numbers.block()?;
    lay_stmt(out, tables, stmt, inner, to)?;
    Ok(())
}

/// A compound statement.
#[cycle(stating)]
pub fn lay_compound(
    out: &mut Layer,
    tables: &Tables,
    body: &Compound,
    at: u32,
    to: Targets,
) -> Result<(), NoMemory>
    ensures { OnOk result (Placed (rows_of out.old.rows) (rows_of out.new.rows) out.old.numbers out.new.numbers at (λ c w k. compound_goes (tables_shape tables.now) c (compound_shape body.now) w (exits k to)) (λ c w. walk_compound (tables_shape tables.now) c (compound_shape body.now) w)) }
{
    let inner = out.rows.hole()?;
    lay_decls(out, tables, &body.decls, at, inner)?;
    lay_items(out, tables, &body.items, inner, to)?;
    Ok(())
}

// A statement of a list, behind one that splits it or not: with a label, or behind such a one, it is a block.
#[cycle(stating)]
fn lay_item(
    out: &mut Layer,
    tables: &Tables,
    item: &Item,
    after: bool,
    at: u32,
    to: Targets,
) -> Result<(), NoMemory>
    ensures { OnOk result (Placed (rows_of out.old.rows) (rows_of out.new.rows) out.old.numbers out.new.numbers at (λ c w k. item_goes (tables_shape tables.now) c after item.now w (exits k to)) (λ c w. walk_item (tables_shape tables.now) c after item.now w)) }
{
    if begins_block(after, &item.labels) {
        lay_part(out, tables, &item.stmt, at, to)?;
        Ok(())
    } else {
        lay_stmt(out, tables, &item.stmt, at, to)?;
        Ok(())
    }
}

// Statements in a list.
#[cycle(stating)]
fn lay_items(
    out: &mut Layer,
    tables: &Tables,
    items: &[Item],
    at: u32,
    to: Targets,
) -> Result<(), NoMemory>
    ensures { OnOk result (Placed (rows_of out.old.rows) (rows_of out.new.rows) out.old.numbers out.new.numbers at (λ c w k. items_go (tables_shape tables.now) c false (item_list items.now) w (exits k to)) (λ c w. walk_items (tables_shape tables.now) c false (item_list items.now) w)) }
{
    let mut after = false;
    let mut entry = out.rows.hole()?;
    out.rows.fill(at, Action::Nothing, entry)?;
    for item in items {
        let next = out.rows.hole()?;
        lay_item(out, tables, item, after, entry, then_targets(next, to))?;
        after = splits(&item.stmt);
        entry = next;
    }
    out.rows.fill(entry, Action::Nothing, to.next)?;
    Ok(())
}

// The statements of a switch, from a case of that decision on; else from the default on, or none of them.
#[cycle(stating)]
fn lay_choices(
    out: &mut Layer,
    tables: &Tables,
    decision: u16,
    items: &[Item],
    at: u32,
    to: Targets,
) -> Result<(), NoMemory>
    ensures { OnOk result ((kind : Option IntKind) → Placed (rows_of out.old.rows) (rows_of out.new.rows) out.old.numbers out.new.numbers at (λ c w k. at_cases (tables_shape tables.now) c decision 1 false (item_list items.now) w (exits k to) (emit (act (Test decision (suc (length (case_values kind (item_list items.now)))))) (at_default (tables_shape tables.now) c false (item_list items.now) w (exits k to)))) (λ c w. walk_items (tables_shape tables.now) c false (item_list items.now) w)) }
{
    let mut after = false;
    let start = out.rows.hole()?;
    let mut entry = out.rows.hole()?;
    let mut choices = first_choices(&mut out.rows, at, start)?;
    for item in items {
        let behind = out.rows.hole()?;
        let others = next_choices(&mut out.rows, decision, &item.labels, entry, choices)?;
        lay_item(out, tables, item, after, entry, then_targets(behind, to))?;
        after = splits(&item.stmt);
        entry = behind;
        choices = others;
    }
    last_choices(&mut out.rows, decision, choices, start, entry, to.next)?;
    Ok(())
}
