//! Local declarations (C89, 3.5).

ghost use Rattle.std.specs.Prelude.{◌≡◌, Option, OnOk};
ghost use Rattle.c_syntax.specs.declared.tree.Named.{Named as a_name};
ghost use Rattle.c_syntax.specs.View.{init_shape, maybe_init, declarator_shape, declarator_list, decl_shape, decl_list};
ghost use Rattle.c_tables.specs.Tables.{tables_shape};
ghost use Rattle.c_walk.specs.Stating.{with_variable, with_whole_def, walk_init, walk_maybe_init, walk_declarator, walk_declarators, walk_decl, walk_decls};
ghost use Rattle.flow_walks.specs.declared.action.Action.TheVariants.{Kill};
ghost use Rattle.flow_walks.specs.Comes.{act, emit};
ghost use Rattle.flow_walks.specs.Statements.{init_goes, maybe_init_goes, declarator_goes, declarators_go, decl_goes, decls_go};
ghost use Rattle.flow_rows.specs.Laying.{Placed};
ghost use Rattle.flow_rows.specs.View.{rows_of};

use crate::layer::Layer;
use crate::nodes::lay_node;
use crate::targets::To;
use c_base::place::NoMemory;
use c_syntax::tree::{Decl, DeclForm, Declarator, Init};
use c_tables::tables::Tables;
use c_walk::around::Taken;
use flow_walks::action::Action;

/// An initialiser, behind which the variable is defined; nothing in braces is met.
pub fn lay_init(
    out: &mut Layer,
    tables: &Tables,
    init: &Init,
    at: u32,
    to: u32,
) -> Result<(), NoMemory>
    ensures { OnOk result ((x : Option a_name) → Placed (rows_of out.old.rows) (rows_of out.new.rows) out.old.numbers out.new.numbers at (λ c w k. init_goes (tables_shape tables.now) c x (init_shape init.now) w (k to)) (λ c w. walk_init c (init_shape init.now) (with_whole_def (tables_shape tables.now) c.function x w))) }
{
    let number = out.numbers.next_def()?;
    match init {
        Init::One(node) => {
            let defined = out.rows.row(Action::Define(number), to)?;
            out.numbers.def()?;
            lay_node(out, tables, Taken::Read, node, at, To::Value(defined))?;
            Ok(())
        }
        Init::List(_, _, _) => {
            out.numbers.def()?;
            out.rows.fill(at, Action::Define(number), to)?;
            Ok(())
        }
    }
}

fn lay_maybe_init(
    out: &mut Layer,
    tables: &Tables,
    init: &Option<Init>,
    at: u32,
    to: u32,
) -> Result<(), NoMemory>
    ensures { OnOk result ((x : Option a_name) → Placed (rows_of out.old.rows) (rows_of out.new.rows) out.old.numbers out.new.numbers at (λ c w k. maybe_init_goes (tables_shape tables.now) c x (maybe_init init.now) w (k to)) (λ c w. walk_maybe_init (tables_shape tables.now) c x (maybe_init init.now) w)) }
{
    match init {
        None => {
            out.rows.fill(at, Action::Nothing, to)?;
            Ok(())
        }
        Some(init) => {
            lay_init(out, tables, init, at, to)?;
            Ok(())
        }
    }
}

/// A variable with its initialiser, if it has one: what was defined of it before ends.
pub fn lay_variable(
    out: &mut Layer,
    tables: &Tables,
    init: &Option<Init>,
    at: u32,
    to: u32,
) -> Result<(), NoMemory>
    ensures { OnOk result ((x : Option a_name) → Placed (rows_of out.old.rows) (rows_of out.new.rows) out.old.numbers out.new.numbers at (λ c w k. emit (act (Kill (with_variable w).variables)) (maybe_init_goes (tables_shape tables.now) c x (maybe_init init.now) (with_variable w) (k to))) (λ c w. walk_maybe_init (tables_shape tables.now) c x (maybe_init init.now) (with_variable w))) }
{
    out.numbers.variable()?;
    let number = out.numbers.variables;
    let inner = out.rows.hole()?;
    out.rows.fill(at, Action::Kill(number), inner)?;
    lay_maybe_init(out, tables, init, inner, to)?;
    Ok(())
}

// A declared name: one of a function declares no variable.
fn lay_declarator(
    out: &mut Layer,
    tables: &Tables,
    name: &Declarator,
    at: u32,
    to: u32,
) -> Result<(), NoMemory>
    ensures { OnOk result (Placed (rows_of out.old.rows) (rows_of out.new.rows) out.old.numbers out.new.numbers at (λ c w k. declarator_goes (tables_shape tables.now) c (declarator_shape name.now) w (k to)) (λ c w. walk_declarator (tables_shape tables.now) c (declarator_shape name.now) w)) }
{
    match &name.form {
        DeclForm::Arrays(_) => {
            lay_variable(out, tables, &name.init, at, to)?;
            Ok(())
        }
        DeclForm::Function(_) => {
            out.rows.fill(at, Action::Nothing, to)?;
            Ok(())
        }
    }
}

// Declared names in turn.
fn lay_declarators(
    out: &mut Layer,
    tables: &Tables,
    names: &[Declarator],
    at: u32,
    to: u32,
) -> Result<(), NoMemory>
    ensures { OnOk result (Placed (rows_of out.old.rows) (rows_of out.new.rows) out.old.numbers out.new.numbers at (λ c w k. declarators_go (tables_shape tables.now) c (declarator_list names.now) w (k to)) (λ c w. walk_declarators (tables_shape tables.now) c (declarator_list names.now) w)) }
{
    let mut entry = out.rows.hole()?;
    out.rows.fill(at, Action::Nothing, entry)?;
    for name in names {
        let next = out.rows.hole()?;
        lay_declarator(out, tables, name, entry, next)?;
        entry = next;
    }
    out.rows.fill(entry, Action::Nothing, to)?;
    Ok(())
}

fn lay_decl(out: &mut Layer, tables: &Tables, decl: &Decl, at: u32, to: u32) -> Result<(), NoMemory>
    ensures { OnOk result (Placed (rows_of out.old.rows) (rows_of out.new.rows) out.old.numbers out.new.numbers at (λ c w k. decl_goes (tables_shape tables.now) c (decl_shape decl.now) w (k to)) (λ c w. walk_decl (tables_shape tables.now) c (decl_shape decl.now) w)) }
{
    lay_declarators(out, tables, &decl.names, at, to)?;
    Ok(())
}

/// Declarations in turn.
pub fn lay_decls(
    out: &mut Layer,
    tables: &Tables,
    decls: &[Decl],
    at: u32,
    to: u32,
) -> Result<(), NoMemory>
    ensures { OnOk result (Placed (rows_of out.old.rows) (rows_of out.new.rows) out.old.numbers out.new.numbers at (λ c w k. decls_go (tables_shape tables.now) c (decl_list decls.now) w (k to)) (λ c w. walk_decls (tables_shape tables.now) c (decl_list decls.now) w)) }
{
    let mut entry = out.rows.hole()?;
    out.rows.fill(at, Action::Nothing, entry)?;
    for decl in decls {
        let next = out.rows.hole()?;
        lay_decl(out, tables, decl, entry, next)?;
        entry = next;
    }
    out.rows.fill(entry, Action::Nothing, to)?;
    Ok(())
}
