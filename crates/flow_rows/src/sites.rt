//! The rows of uses, definitions and calls.

ghost use Rattle.std.specs.Prelude.{◌≡◌, true, false, IfOk, OnOk};
ghost use Rattle.c_syntax.specs.Shape.{TypeOf, typed};
ghost use Rattle.c_syntax.specs.View.{note_shape, expr_shape, node_shape};
ghost use Rattle.c_tables.specs.Tables.{tables_shape};
ghost use Rattle.c_walk.specs.Items.{both};
ghost use Rattle.c_walk.specs.Walked.{Walked};
ghost use Rattle.flow_walks.specs.declared.action.Action.TheVariants as action;
ghost use Rattle.flow_walks.specs.Comes.{act, enter, emit_if, evaluated};
ghost use Rattle.flow_walks.specs.Expressions.{holds_place, holds_scalar, reads, read_form, used_at, defined_at, changed_at, entered, is_defined};
ghost use Rattle.c_tables.specs.Rows.{row};
ghost use Rattle.flow_rows.specs.Counts.{counts};
ghost use Rattle.flow_rows.specs.Laying.{Grown, LedAt, ways};
ghost use Rattle.flow_rows.specs.View.{rows_of};

use crate::leaving::leave;
use crate::numbers::Numbers;
use crate::rows::Rows;
use crate::targets::To;
use c_base::place::NoMemory;
use c_syntax::tree::{Expr, Node, Note};
use c_tables::tables::Tables;
use c_walk::around::Taken;
use c_walk::places::{has_scalar, has_structure, is_place};
use flow_walks::action::Action;

// ---- what is met

/// Whether it is a place, in parentheses or not.
pub fn holds_place(node: &Node) -> bool
    ensures { result ≡ holds_place (node_shape node.now) }
{
    match &node.form {
        Expr::Paren(a) => holds_place(a),
        Expr::Probe(_, a) => holds_place(a),
        _ => is_place(&node.form),
    }
}

/// Whether it is one that is an integer or a pointer.
pub fn holds_scalar(node: &Node) -> bool
    ensures { result ≡ holds_scalar (node_shape node.now) }
{
    match &node.form {
        Expr::Paren(a) => holds_scalar(a),
        Expr::Probe(_, a) => holds_scalar(a),
        _ => is_place(&node.form) && has_scalar(&node.note),
    }
}

/// Whether a place is used by itself.
pub fn reads(taken: Taken, node: &Node) -> bool
    ensures { result ≡ reads taken (note_shape node.now.note) (expr_shape node.now.form) }
{
    match taken {
        Taken::Read => is_place(&node.form) && has_scalar(&node.note),
        Taken::Copied => is_place(&node.form) && has_structure(&node.note),
        Taken::Written => false,
        Taken::Changed => false,
        Taken::Addressed => false,
    }
}

// ---- rows

// A use, if it is one.
fn use_if(rows: &mut Rows, used: bool, number: u16, to: u32) -> Result<u32, NoMemory>
    ensures grown { OnOk result (Grown (rows_of rows.old) (rows_of rows.new)) }
    ensures led { IfOk result (λ r. LedAt (rows_of rows.new) r (λ k. emit_if used (act (action.Use number)) (k to))) }
{
    if used {
        let at = rows.row(Action::Use(number), to)?;
        Ok(at)
    } else {
        Ok(to)
    }
}

// A definition, if it is one.
fn define_if(rows: &mut Rows, defined: bool, number: u16, to: u32) -> Result<u32, NoMemory>
    ensures grown { OnOk result (Grown (rows_of rows.old) (rows_of rows.new)) }
    ensures led { IfOk result (λ r. LedAt (rows_of rows.new) r (λ k. emit_if defined (act (action.Define number)) (k to))) }
{
    if defined {
        let at = rows.row(Action::Define(number), to)?;
        Ok(at)
    } else {
        Ok(to)
    }
}

// A call, if it is one of a function with a body.
fn enter_if(rows: &mut Rows, entered: bool, function: u32, to: u32) -> Result<u32, NoMemory>
    ensures grown { OnOk result (Grown (rows_of rows.old) (rows_of rows.new)) }
    ensures led { IfOk result (λ r. LedAt (rows_of rows.new) r (λ k. emit_if entered (enter function) (k to))) }
{
    if entered {
        let at = rows.enter(function, to)?;
        Ok(at)
    } else {
        Ok(to)
    }
}

/// A place's own use.
pub fn read_row(
    rows: &mut Rows,
    numbers: Numbers,
    taken: Taken,
    node: &Node,
    to: u32,
) -> Result<u32, NoMemory>
    ensures grown { OnOk result (Grown (rows_of rows.old) (rows_of rows.new)) }
    ensures led { IfOk result (λ r. (w : Walked) → counts w ≡ numbers → LedAt (rows_of rows.new) r (λ k. read_form taken (note_shape node.now.note) (expr_shape node.now.form) w (k to))) }
{
    let number = numbers.next_use()?;
    let at = use_if(rows, reads(taken, node), number, to)?;
    Ok(at)
}

/// A use of a place that is changed.
pub fn used_row(rows: &mut Rows, numbers: Numbers, node: &Node, to: u32) -> Result<u32, NoMemory>
    ensures grown { OnOk result (Grown (rows_of rows.old) (rows_of rows.new)) }
    ensures led { IfOk result (λ r. (w : Walked) → counts w ≡ numbers → LedAt (rows_of rows.new) r (λ k. used_at (node_shape node.now) w (k to))) }
{
    let number = numbers.next_use()?;
    let at = use_if(rows, holds_scalar(node), number, to)?;
    Ok(at)
}

/// A use of a place to the left of an assignment.
pub fn changed_row(
    rows: &mut Rows,
    numbers: Numbers,
    taken: Taken,
    node: &Node,
    to: u32,
) -> Result<u32, NoMemory>
    ensures grown { OnOk result (Grown (rows_of rows.old) (rows_of rows.new)) }
    ensures led { IfOk result (λ r. (w : Walked) → counts w ≡ numbers → LedAt (rows_of rows.new) r (λ k. changed_at taken (node_shape node.now) w (k to))) }
{
    match taken {
        Taken::Changed => {
            let at = used_row(rows, numbers, node, to)?;
            Ok(at)
        }
        Taken::Read => Ok(to),
        Taken::Copied => Ok(to),
        Taken::Written => Ok(to),
        Taken::Addressed => Ok(to),
    }
}

/// A definition of a place.
pub fn defined_row(rows: &mut Rows, numbers: Numbers, node: &Node, to: u32) -> Result<u32, NoMemory>
    ensures grown { OnOk result (Grown (rows_of rows.old) (rows_of rows.new)) }
    ensures led { IfOk result (λ r. (w : Walked) → counts w ≡ numbers → LedAt (rows_of rows.new) r (λ k. defined_at (node_shape node.now) w (k to))) }
{
    let number = numbers.next_def()?;
    let at = define_if(rows, holds_place(node), number, to)?;
    Ok(at)
}

// ---- rows behind which an expression is left

/// Its own use, if it is a place that is used.
pub fn read_out(
    rows: &mut Rows,
    numbers: Numbers,
    taken: Taken,
    node: &Node,
    to: To,
) -> Result<u32, NoMemory>
    ensures grown { OnOk result (Grown (rows_of rows.old) (rows_of rows.new)) }
    ensures led { IfOk result (λ r. (w : Walked) → counts w ≡ numbers → LedAt (rows_of rows.new) r (λ k. read_form taken (note_shape node.now.note) (expr_shape node.now.form) w (evaluated both (ways k to)))) }
{
    let out = leave(rows, to)?;
    let at = read_row(rows, numbers, taken, node, out)?;
    Ok(at)
}

/// The definition of a place.
pub fn defined_out(rows: &mut Rows, numbers: Numbers, node: &Node, to: To) -> Result<u32, NoMemory>
    ensures grown { OnOk result (Grown (rows_of rows.old) (rows_of rows.new)) }
    ensures led { IfOk result (λ r. (w : Walked) → counts w ≡ numbers → LedAt (rows_of rows.new) r (λ k. defined_at (node_shape node.now) w (evaluated both (ways k to)))) }
{
    let out = leave(rows, to)?;
    let at = defined_row(rows, numbers, node, out)?;
    Ok(at)
}

/// The use and the definition of a place at `++` or `--`.
pub fn stepped_out(rows: &mut Rows, numbers: Numbers, node: &Node, to: To) -> Result<u32, NoMemory>
    ensures grown { OnOk result (Grown (rows_of rows.old) (rows_of rows.new)) }
    ensures led { IfOk result (λ r. (w : Walked) → counts w ≡ numbers → LedAt (rows_of rows.new) r (λ k. used_at (node_shape node.now) w (defined_at (node_shape node.now) w (evaluated both (ways k to))))) }
{
    let out = defined_out(rows, numbers, node, to)?;
    let at = used_row(rows, numbers, node, out)?;
    Ok(at)
}

// Whether a function of that number has a body.
fn is_defined(tables: &Tables, function: u32) -> bool
    ensures { result ≡ is_defined (row (tables_shape tables.now).functions function) }
{
    if function == 0 || function > tables.functions() {
        return false;
    }
    tables.function(function).defined.is_some()
}

// The call of that function, if there is one.
fn called(rows: &mut Rows, tables: &Tables, function: Option<u32>, to: u32) -> Result<u32, NoMemory>
    ensures grown { OnOk result (Grown (rows_of rows.old) (rows_of rows.new)) }
    ensures led { IfOk result (λ r. (y : TypeOf) → LedAt (rows_of rows.new) r (λ k. entered (tables_shape tables.now) (typed y function) (k to))) }
{
    match function {
        None => Ok(to),
        Some(function) => {
            let at = enter_if(rows, is_defined(tables, function), function, to)?;
            Ok(at)
        }
    }
}

// The call of a function with that note.
fn entered(rows: &mut Rows, tables: &Tables, note: &Note, to: u32) -> Result<u32, NoMemory>
    ensures grown { OnOk result (Grown (rows_of rows.old) (rows_of rows.new)) }
    ensures led { IfOk result (λ r. LedAt (rows_of rows.new) r (λ k. entered (tables_shape tables.now) (note_shape note.now) (k to))) }
{
    match note {
        Note::Typed(_, function) => {
            let at = called(rows, tables, *function, to)?;
            Ok(at)
        }
        Note::Bare => Ok(to),
        Note::Known(_, _) => Ok(to),
    }
}

/// The call of a function.
pub fn entered_out(rows: &mut Rows, tables: &Tables, note: &Note, to: To) -> Result<u32, NoMemory>
    ensures grown { OnOk result (Grown (rows_of rows.old) (rows_of rows.new)) }
    ensures led { IfOk result (λ r. LedAt (rows_of rows.new) r (λ k. entered (tables_shape tables.now) (note_shape note.now) (evaluated both (ways k to)))) }
{
    let out = leave(rows, to)?;
    let at = entered(rows, tables, note, out)?;
    Ok(at)
}
