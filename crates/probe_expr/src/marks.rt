//! The probes round a node.

ghost use Rattle.std.specs.Prelude.{◌≡◌, IfOk};
ghost use Rattle.c_syntax.specs.Shape.{node as a_node};
ghost use Rattle.c_syntax.specs.View.{note_shape, expr_shape, node_shape, probe_shape};
ghost use Rattle.c_walk.specs.Walked.{Walked};
ghost use Rattle.probe_rules.specs.Marks.{value_note, place_note, round_value, round_place, in_block, in_test, in_use, in_def};
ghost use Rattle.probe_rules.specs.ProbedExpressions.{sited};
ghost use Rattle.probe_expr.specs.Numbers.{counts};

use crate::numbers::Numbers;
use c_base::place::NoMemory;
use c_copy::build::new_node;
use c_copy::parts::copy_note;
use c_syntax::tree::{Expr, ExprProbe, Node, Note};
use c_type_rules::kinds::{copy, decayed};
use c_walk::around::Taken;
use c_walk::places::is_place;
use c_walk::taken::{is_used, is_written};
use std::alloc::Global;

// ---- what is known of a probe

/// A block, test or select is the value of what stands in it.
pub fn value_note(alloc: Global, note: &Note) -> Result<Note, NoMemory>
    ensures { IfOk result (λ n. note_shape n ≡ value_note (note_shape note.now)) }
{
    match note {
        Note::Typed(kind, _) => Ok(Note::Typed(decayed(copy(kind, alloc)?), None)),
        Note::Known(kind, _) => Ok(Note::Typed(decayed(copy(kind, alloc)?), None)),
        Note::Bare => Ok(Note::Bare),
    }
}

/// A use or a definition is the place that stands in it.
pub fn place_note(alloc: Global, note: &Note) -> Result<Note, NoMemory>
    ensures { IfOk result (λ n. note_shape n ≡ place_note (note_shape note.now)) }
{
    match note {
        Note::Typed(kind, _) => Ok(Note::Typed(copy(kind, alloc)?, None)),
        Note::Known(_, _) => copy_note(alloc, note),
        Note::Bare => Ok(Note::Bare),
    }
}

// ---- probes

/// A probe round a value.
pub fn round_value(alloc: Global, probe: ExprProbe, node: Box<Node>) -> Result<Box<Node>, NoMemory>
    ensures { IfOk result (λ n. node_shape n.value ≡ round_value (probe_shape probe) (node_shape node.value)) }
{
    let note = value_note(alloc, &node.note)?;
    let pos = node.pos;
    let op = node.op;
    new_node(alloc, pos, op, note, Expr::Probe(probe, node))
}

fn round_place(alloc: Global, probe: ExprProbe, node: Box<Node>) -> Result<Box<Node>, NoMemory>
    ensures { IfOk result (λ n. node_shape n.value ≡ round_place (probe_shape probe) (node_shape node.value)) }
{
    let note = place_note(alloc, &node.note)?;
    let pos = node.pos;
    let op = node.op;
    new_node(alloc, pos, op, note, Expr::Probe(probe, node))
}

/// An expression that is a block.
pub fn in_block(alloc: Global, numbers: Numbers, node: Box<Node>) -> Result<Box<Node>, NoMemory>
    ensures { IfOk result (λ n. (w : Walked) → counts w ≡ numbers → node_shape n.value ≡ in_block w (node_shape node.value)) }
{
    let number = numbers.block_text(alloc)?;
    let made = round_value(alloc, ExprProbe::Block(number), node)?;
    Ok(made)
}

/// The expression of a test, but for `&&` and `||`.
pub fn in_test(
    alloc: Global,
    numbers: Numbers,
    logical: bool,
    node: Box<Node>,
) -> Result<Box<Node>, NoMemory>
    ensures { IfOk result (λ n. (w : Walked) → counts w ≡ numbers → node_shape n.value ≡ in_test logical w (node_shape node.value)) }
{
    if logical {
        return Ok(node);
    }
    let number = numbers.decision_text(alloc)?;
    let made = round_value(alloc, ExprProbe::Test(number), node)?;
    Ok(made)
}

// A place that is read, or isn't.
fn in_use(
    alloc: Global,
    numbers: Numbers,
    read: bool,
    node: Box<Node>,
) -> Result<Box<Node>, NoMemory>
    ensures { IfOk result (λ n. (w : Walked) → counts w ≡ numbers → node_shape n.value ≡ in_use read w (node_shape node.value)) }
{
    if !read {
        return Ok(node);
    }
    let number = numbers.use_text(alloc)?;
    let made = round_place(alloc, ExprProbe::Use(number), node)?;
    Ok(made)
}

// A place that is written, or isn't.
fn in_def(
    alloc: Global,
    numbers: Numbers,
    written: bool,
    node: Box<Node>,
) -> Result<Box<Node>, NoMemory>
    ensures { IfOk result (λ n. (w : Walked) → counts w ≡ numbers → node_shape n.value ≡ in_def written w (node_shape node.value)) }
{
    if !written {
        return Ok(node);
    }
    let number = numbers.def_text(alloc)?;
    let made = round_place(alloc, ExprProbe::Def(number), node)?;
    Ok(made)
}

// The node with this form, whose parts have their probes.
fn with_form(alloc: Global, node: &Node, form: Expr) -> Result<Box<Node>, NoMemory>
    ensures { IfOk result (λ n. node_shape n.value ≡ a_node node.now.pos node.now.op (note_shape node.now.note) (expr_shape form)) }
{
    let note = copy_note(alloc, &node.note)?;
    new_node(alloc, node.pos, node.op, note, form)
}

/// A node of whose value that is done, with its sites, round a form whose parts have their probes.
pub fn sited(
    alloc: Global,
    numbers: Numbers,
    taken: Taken,
    node: &Node,
    form: Expr,
) -> Result<Box<Node>, NoMemory>
    ensures { IfOk result (λ n. (w : Walked) → counts w ≡ numbers → node_shape n.value ≡ sited taken node.now.pos node.now.op (note_shape node.now.note) (expr_shape node.now.form) (expr_shape form) w) }
{
    let made = with_form(alloc, node, form)?;
    if is_place(&node.form) {
        let used = in_use(alloc, numbers, is_used(taken, node), made)?;
        let written = in_def(alloc, numbers, is_written(taken), used)?;
        Ok(written)
    } else {
        Ok(made)
    }
}
