// The items of declarations and statements (C89, 3.5 and 3.6).

ghost use Rattle.std.specs.Prelude.{◌≡◌, ◌||◌, false, map, OnOk, IfOk, option_map};
ghost use Rattle.c_syntax.specs.Shape.{switch};
ghost use Rattle.c_syntax.specs.View.{node_shape, maybe_init, init_shape, declarator_shape, declarator_list, decl_shape, decl_list, label_shape, stmt_shape, form_shape, item_list, compound_shape};
ghost use Rattle.c_syntax.specs.Options.{if_form};
ghost use Rattle.c_tables.specs.Tables.{tables_shape};
ghost use Rattle.c_tables.specs.Rows.{first_place, name_pos};
ghost use Rattle.c_walk.specs.ItemView.{place_shape};
ghost use Rattle.c_walk.specs.Walked.{with_block_if};
ghost use Rattle.c_walk.specs.Stating.{whole, with_whole_def, walk_init, walk_maybe_init, walk_declarator, walk_declarators, walk_decl, walk_decls, splits, splits_form, is_labelled, walk_choice, walk_stmt, walk_body, walk_part, walk_compound, walk_items};
ghost use Rattle.c_walk.specs.WalkerView.{walked};

use crate::around::{Around, Taken};
use crate::items::{Direct, Outcomes};
use crate::places::bytes;
use crate::tests::{case_values, choosing};
use crate::walker::Walker;
use crate::walking::{
    inside, walk_loop_test, walk_maybe, walk_maybe_test, walk_node, walk_step, walk_test,
};
use c_base::place::{NoMemory, Pos};
use c_syntax::tree::{
    Compound, Decl, DeclForm, Declarator, Init, Item, Label, Named, Node, Stmt, StmtForm,
};
use c_tables::tables::Tables;
use c_type_rules::kinds::copy;

// ---- declared names

// The variable with that number as a whole.
fn whole(out: &Walker, tables: &Tables, number: u32) -> Result<Option<Direct>, NoMemory>
    ensures { IfOk result (λ d. place_shape d ≡ whole (tables_shape tables.now) number) }
{
    if number == 0 || number > tables.variables() {
        return Ok(None);
    }
    let row = tables.variable(number);
    let name = bytes(out.alloc(), row.name.bytes())?;
    let kind = copy(&row.kind, out.alloc())?;
    Ok(Some(Direct {
        variable: number,
        name,
        kind,
    }))
}

/// Adds the definition of the last variable, at its name, in the function with that number or in none.
pub fn put_whole_def(
    out: &mut Walker,
    tables: &Tables,
    function: u32,
    name: &Option<Named>,
) -> Result<(), NoMemory>
    ensures { OnOk result (walked out.new ≡ with_whole_def (tables_shape tables.now) function name.now (walked out.old)) }
{
    let place = whole(out, tables, out.variables())?;
    let around = Around {
        function,
        owner: None,
    };
    out.def(around, name_pos(name), place)
}

fn name_pos(name: &Option<Named>) -> Pos
    ensures { result ≡ name_pos first_place name.now }
{
    match name {
        None => Pos { line: 1, col: 1 },
        Some(name) => name.pos,
    }
}

fn walk_init(out: &mut Walker, around: Around, init: &Init) -> Result<(), NoMemory>
    ensures { OnOk result (walked out.new ≡ walk_init around (init_shape init.now) (walked out.old)) }
{
    match init {
        Init::One(node) => walk_node(out, around, Taken::Read, node),
        Init::List(_, _, _) => Ok(()),
    }
}

fn walk_maybe_init(
    out: &mut Walker,
    tables: &Tables,
    around: Around,
    name: &Option<Named>,
    init: &Option<Init>,
) -> Result<(), NoMemory>
    ensures { OnOk result (walked out.new ≡ walk_maybe_init (tables_shape tables.now) around name.now (maybe_init init.now) (walked out.old)) }
{
    match init {
        None => Ok(()),
        Some(init) => {
            put_whole_def(out, tables, around.function, name)?;
            walk_init(out, around, init)
        }
    }
}

fn walk_declarator(
    out: &mut Walker,
    tables: &Tables,
    around: Around,
    name: &Declarator,
) -> Result<(), NoMemory>
    ensures { OnOk result (walked out.new ≡ walk_declarator (tables_shape tables.now) around (declarator_shape name.now) (walked out.old)) }
{
    match &name.form {
        DeclForm::Arrays(_) => {
            out.declare()?;
            walk_maybe_init(out, tables, around, &name.name, &name.init)
        }
        DeclForm::Function(_) => Ok(()),
    }
}

fn walk_declarators(
    out: &mut Walker,
    tables: &Tables,
    around: Around,
    names: &[Declarator],
) -> Result<(), NoMemory>
    ensures { OnOk result (walked out.new ≡ walk_declarators (tables_shape tables.now) around (declarator_list names.now) (walked out.old)) }
{
    for name in names {
        walk_declarator(out, tables, around, name)?;
    }
    Ok(())
}

#[tactic(auto, using(c_syntax::proofs::Open::decl_open))]
fn walk_decl(out: &mut Walker, tables: &Tables, around: Around, decl: &Decl) -> Result<(), NoMemory>
    ensures { OnOk result (walked out.new ≡ walk_decl (tables_shape tables.now) around (decl_shape decl.now) (walked out.old)) }
{
    walk_declarators(out, tables, around, &decl.names)
}

fn walk_decls(
    out: &mut Walker,
    tables: &Tables,
    around: Around,
    decls: &[Decl],
) -> Result<(), NoMemory>
    ensures { OnOk result (walked out.new ≡ walk_decls (tables_shape tables.now) around (decl_list decls.now) (walked out.old)) }
{
    for decl in decls {
        walk_decl(out, tables, around, decl)?;
    }
    Ok(())
}

// ---- statements

// Whether what stands behind it in a list is a block.
fn splits(stmt: &Stmt) -> bool
    ensures { result ≡ splits (stmt_shape stmt.now) }
{
    match &stmt.form {
        StmtForm::Plain(_) => false,
        StmtForm::Compound(_)
        | StmtForm::If(_, _, _)
        | StmtForm::While(_, _)
        | StmtForm::Do(_, _)
        | StmtForm::For(_, _, _, _)
        | StmtForm::Switch(_, _)
        | StmtForm::Break
        | StmtForm::Continue
        | StmtForm::Return(_) => true,
    }
}

// Whether a statement with these labels is a block in a list.
fn begins_block(after: bool, labels: &[Label]) -> bool
    ensures { result ≡ (after || is_labelled (map label_shape labels.now)) }
{
    match labels {
        [] => after,
        _ => true,
    }
}

fn put_block_if(out: &mut Walker, counts: bool, pos: Pos) -> Result<(), NoMemory>
    ensures { OnOk result (walked out.new ≡ with_block_if counts pos (walked out.old)) }
{
    if counts { out.block(pos) } else { Ok(()) }
}

// The test of a switch, which is a decision between its cases.
fn walk_choice(
    out: &mut Walker,
    around: Around,
    test: &Node,
    items: &[Item],
) -> Result<(), NoMemory>
    ensures { OnOk result (walked out.new ≡ walk_choice around (node_shape test.now) (item_list items.now) (walked out.old)) }
{
    let within = inside(out, around)?;
    let values = case_values(out.alloc(), choosing(test), items)?;
    out.decision(test.pos, Outcomes::Cases(values))?;
    walk_node(out, within, Taken::Read, test)
}

#[cycle(statement)]
fn walk_stmt(out: &mut Walker, tables: &Tables, around: Around, stmt: &Stmt) -> Result<(), NoMemory>
    ensures { OnOk result (walked out.new ≡ walk_stmt (tables_shape tables.now) around (stmt_shape stmt.now) (walked out.old)) }
{
    walk_body(out, tables, around, &stmt.form)
}

#[cycle(statement)]
fn walk_body(
    out: &mut Walker,
    tables: &Tables,
    around: Around,
    form: &StmtForm,
) -> Result<(), NoMemory>
    ensures { OnOk result (walked out.new ≡ walk_body (tables_shape tables.now) around (form_shape form.now) (walked out.old)) }
{
    match form {
        StmtForm::Compound(body) => walk_compound(out, tables, around, body),
        StmtForm::Plain(node) | StmtForm::Return(node) => walk_maybe(out, around, node),
        StmtForm::If(test, first, other) => {
            walk_test(out, around, test)?;
            walk_part(out, tables, around, first)?;
            match other {
                None => Ok(()),
                Some(other) => walk_part(out, tables, around, other),
            }
        }
        StmtForm::While(test, body) => {
            walk_loop_test(out, around, test)?;
            walk_part(out, tables, around, body)
        }
        StmtForm::Do(body, test) => {
            walk_part(out, tables, around, body)?;
            walk_loop_test(out, around, test)
        }
        StmtForm::For(first, test, step, body) => {
            walk_maybe(out, around, first)?;
            walk_maybe_test(out, around, test)?;
            walk_step(out, around, step)?;
            walk_part(out, tables, around, body)
        }
        StmtForm::Switch(test, items) => walk_switch(out, tables, around, items, test),
        StmtForm::Break | StmtForm::Continue => Ok(()),
    }
}

#[cycle(statement)]
fn walk_switch(
    out: &mut Walker,
    tables: &Tables,
    around: Around,
    items: &[Item],
    test: &Node,
) -> Result<(), NoMemory>
    ensures { OnOk result (walked out.new ≡ walk_body (tables_shape tables.now) around (switch (node_shape test.now) (item_list items.now)) (walked out.old)) }
{
    walk_choice(out, around, test, items)?;
    walk_items(out, tables, around, items)
}

// A substatement of `if`, `else` or a loop, which is a block.
#[cycle(statement)]
fn walk_part(out: &mut Walker, tables: &Tables, around: Around, stmt: &Stmt) -> Result<(), NoMemory>
    ensures { OnOk result (walked out.new ≡ walk_part (tables_shape tables.now) around (stmt_shape stmt.now) (walked out.old)) }
{
    out.block(stmt.pos)?;
    walk_stmt(out, tables, around, stmt)
}

/// Adds the items of a compound statement.
#[cycle(statement)]
#[tactic(auto, using(c_syntax::proofs::Open::compound_open))]
pub fn walk_compound(
    out: &mut Walker,
    tables: &Tables,
    around: Around,
    body: &Compound,
) -> Result<(), NoMemory>
    ensures { OnOk result (walked out.new ≡ walk_compound (tables_shape tables.now) around (compound_shape body.now) (walked out.old)) }
{
    walk_decls(out, tables, around, &body.decls)?;
    walk_items(out, tables, around, &body.items)
}

// Statements in a list.
#[cycle(statement)]
fn walk_items(
    out: &mut Walker,
    tables: &Tables,
    around: Around,
    items: &[Item],
) -> Result<(), NoMemory>
    ensures { OnOk result (walked out.new ≡ walk_items (tables_shape tables.now) around false (item_list items.now) (walked out.old)) }
{
    let mut after = false;
    for item in items {
        put_block_if(out, begins_block(after, &item.labels), item.stmt.pos)?;
        walk_stmt(out, tables, around, &item.stmt)?;
        after = splits(&item.stmt);
    }
    Ok(())
}
