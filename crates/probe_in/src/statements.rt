// Statements with their probes.

ghost use Rattle.std.specs.Prelude.{◌≡◌, ◌||◌, true, false, map, IfOk};
ghost use Rattle.c_syntax.specs.Shape.{switch};
ghost use Rattle.c_syntax.specs.View.{node_shape, label_shape, stmt_shape, form_shape, item_list, compound_shape};
ghost use Rattle.c_tables.specs.Tables.{TablesShape};
ghost use Rattle.c_walk.specs.Walked.{with_block_if};
ghost use Rattle.c_walk.specs.Stating.{splits, is_labelled, walk_stmt, walk_body, walk_part, walk_compound, walk_items};
ghost use Rattle.probe_rules.specs.ProbedStatements.{probed_stmt, probed_body, probed_compound, probed_items};
ghost use Rattle.probe_expr.specs.Numbers.{Numbered};

use crate::build::{
    new_compound, new_do, new_for, new_if, new_item, new_plain, new_return, new_stmt, new_switch,
    new_while,
};
use crate::declarations::probed_decls;
use c_base::place::NoMemory;
use c_copy::labels::copy_labels;
use c_copy::parts::put;
use c_syntax::tree::{Compound, Item, Label, Node, Stmt, StmtForm};
use probe_expr::names::block_marks;
use probe_expr::nodes::Prober;

// Whether what stands behind it in a list is a block.
fn splits(stmt: &Stmt) -> bool
    ensures { result ≡ splits (stmt_shape stmt.now) }
{
    match &stmt.form {
        StmtForm::Plain(_) => false,
        StmtForm::Compound(_)
        | StmtForm::If(_, _, _)
        | StmtForm::While(_, _)
        | StmtForm::Do(_, _)
        | StmtForm::For(_, _, _, _)
        | StmtForm::Switch(_, _)
        | StmtForm::Break
        | StmtForm::Continue
        | StmtForm::Return(_) => true,
    }
}

// Whether a statement with these labels is a block in a list.
fn begins_block(after: bool, labels: &[Label]) -> bool
    ensures { result ≡ (after || is_labelled (map label_shape labels.now)) }
{
    match labels {
        [] => after,
        _ => true,
    }
}

// A statement that is a block, or isn't.
#[cycle(statement)]
fn probed_stmt(out: &mut Prober, block: bool, stmt: &Stmt) -> Result<Box<Stmt>, NoMemory>
    ensures { IfOk result (λ s. (t : TablesShape) → Numbered out.old.numbers out.new.numbers (stmt_shape s.value) (λ c w. probed_stmt t c block (stmt_shape stmt.now) w) (λ c w. walk_stmt t c (stmt_shape stmt.now) (with_block_if block stmt.now.pos w))) }
{
    let marks = block_marks(out.alloc, out.numbers, block, stmt.pos)?;
    out.numbers.block_if(block)?;
    let form = probed_body(out, &stmt.form)?;
    let made = new_stmt(out.alloc, stmt.pos, marks, stmt.at, form)?;
    Ok(made)
}

// A substatement of `if`, `else` or a loop, which is a block.
#[cycle(statement)]
fn probed_part(out: &mut Prober, stmt: &Stmt) -> Result<Box<Stmt>, NoMemory>
    ensures { IfOk result (λ s. (t : TablesShape) → Numbered out.old.numbers out.new.numbers (stmt_shape s.value) (λ c w. probed_stmt t c true (stmt_shape stmt.now) w) (λ c w. walk_part t c (stmt_shape stmt.now) w)) }
{
    let made = probed_stmt(out, true, stmt)?;
    Ok(made)
}

#[cycle(statement)]
fn probed_body(out: &mut Prober, form: &StmtForm) -> Result<StmtForm, NoMemory>
    ensures { IfOk result (λ f. (t : TablesShape) → Numbered out.old.numbers out.new.numbers (form_shape f) (λ c w. probed_body t c (form_shape form.now) w) (λ c w. walk_body t c (form_shape form.now) w)) }
{
    match form {
        StmtForm::Compound(body) => Ok(StmtForm::Compound(probed_compound(out, body)?)),
        StmtForm::Plain(node) => Ok(new_plain(out.maybe(node)?)),
        StmtForm::If(test, first, other) => {
            let test = out.test(test)?;
            let first = probed_part(out, first)?;
            match other {
                None => Ok(new_if(test, first, None)),
                Some(other) => Ok(new_if(test, first, Some(probed_part(out, other)?))),
            }
        }
        StmtForm::While(test, body) => {
            let test = out.loop_test(test)?;
            Ok(new_while(test, probed_part(out, body)?))
        }
        StmtForm::Do(body, test) => {
            let body = probed_part(out, body)?;
            Ok(new_do(body, out.loop_test(test)?))
        }
        StmtForm::For(first, test, step, body) => {
            let first = out.maybe(first)?;
            let test = out.maybe_test(test)?;
            let step = out.step(step)?;
            Ok(new_for(first, test, step, probed_part(out, body)?))
        }
        StmtForm::Switch(test, items) => Ok(probed_switch(out, items, test)?),
        StmtForm::Break => Ok(StmtForm::Break),
        StmtForm::Continue => Ok(StmtForm::Continue),
        StmtForm::Return(node) => Ok(new_return(out.maybe(node)?)),
    }
}

#[cycle(statement)]
fn probed_switch(out: &mut Prober, items: &[Item], test: &Node) -> Result<StmtForm, NoMemory>
    ensures { IfOk result (λ f. (t : TablesShape) → Numbered out.old.numbers out.new.numbers (form_shape f) (λ c w. probed_body t c (switch (node_shape test.now) (item_list items.now)) w) (λ c w. walk_body t c (switch (node_shape test.now) (item_list items.now)) w)) }
{
    let test = out.choice(test, items)?;
    let items = probed_items(out, items)?;
    Ok(new_switch(test, items))
}

/// A compound statement.
#[cycle(statement)]
#[tactic(auto, using(std::proofs::lemmas::Grind::common_steps, c_syntax::proofs::Open::compound_open))]
pub fn probed_compound(out: &mut Prober, body: &Compound) -> Result<Compound, NoMemory>
    ensures { IfOk result (λ b. (t : TablesShape) → Numbered out.old.numbers out.new.numbers (compound_shape b) (λ c w. probed_compound t c (compound_shape body.now) w) (λ c w. walk_compound t c (compound_shape body.now) w)) }
{
    let decls = probed_decls(out, &body.decls)?;
    let items = probed_items(out, &body.items)?;
    Ok(new_compound(body.pos, decls, items))
}

// Statements in a list.
#[cycle(statement)]
fn probed_items(out: &mut Prober, items: &[Item]) -> Result<Vec<Item>, NoMemory>
    ensures { IfOk result (λ v. (t : TablesShape) → Numbered out.old.numbers out.new.numbers (item_list v.items) (λ c w. probed_items t c false (item_list items.now) w) (λ c w. walk_items t c false (item_list items.now) w)) }
{
    let mut made = Vec::new(out.alloc);
    let mut after = false;
    for item in items {
        let labels = copy_labels(out.alloc, &item.labels)?;
        let stmt = probed_stmt(out, begins_block(after, &item.labels), &item.stmt)?;
        put(&mut made, new_item(labels, stmt))?;
        after = splits(&item.stmt);
    }
    Ok(made)
}
