//! Expressions (C89, 3.3). Each part is laid at a row of which nothing was known, and leads to rows that are known by their numbers.

ghost use Rattle.std.specs.Prelude.{◌≡◌, OnOk};
ghost use Rattle.c_syntax.specs.View.{note_shape, expr_shape, node_shape, node_list};
ghost use Rattle.c_syntax.specs.Shape.{one_node};
ghost use Rattle.c_tables.specs.Tables.{tables_shape};
ghost use Rattle.c_walk.specs.declared.around.Taken.TheVariants.{Read};
ghost use Rattle.c_walk.specs.Items.{both};
ghost use Rattle.c_walk.specs.Tests.{outcomes_of_form};
ghost use Rattle.c_walk.specs.Walked.{with_site};
ghost use Rattle.c_walk.specs.Walking.{walk_node, walk_test, walk_arm, walk_nodes, walk_loop_test};
ghost use Rattle.flow_walks.specs.Comes.{value, evaluated};
ghost use Rattle.flow_walks.specs.Expressions.{read_form, changed_at, node_goes, test_goes, arm_goes, nodes_go, loop_test_goes};
ghost use Rattle.flow_rows.specs.Laying.{Placed, ways};
ghost use Rattle.flow_rows.specs.View.{rows_of};

use crate::layer::Layer;
use crate::leaving::{leave, leave_with, no_of, yes_of};
use crate::sites::{changed_row, defined_out, entered_out, read_out, stepped_out};
use crate::targets::To;
use c_base::place::NoMemory;
use c_syntax::tree::{Expr, Node};
use c_tables::tables::Tables;
use c_walk::around::Taken;
use c_walk::items::Outcomes;
use c_walk::taken::{left_taken, operand_taken, right_taken};
use c_walk::tests::outcomes;
use flow_walks::action::Action;

// A constant or a string.
fn lay_constant(out: &mut Layer, node: &Node, at: u32, to: To) -> Result<(), NoMemory>
    ensures { OnOk result (Placed (rows_of out.old.rows) (rows_of out.new.rows) out.old.numbers out.new.numbers at (λ c w k. evaluated (outcomes_of_form (expr_shape node.now.form)) (ways k to)) (λ c w. w)) }
{
    leave_with(&mut out.rows, &outcomes(node), at, to)?;
    Ok(())
}

// A name.
fn lay_name(out: &mut Layer, taken: Taken, node: &Node, at: u32, to: To) -> Result<(), NoMemory>
    ensures { OnOk result (Placed (rows_of out.old.rows) (rows_of out.new.rows) out.old.numbers out.new.numbers at (λ c w k. read_form taken (note_shape node.now.note) (expr_shape node.now.form) w (evaluated both (ways k to))) (λ c w. with_site c taken node.now.pos (note_shape node.now.note) (expr_shape node.now.form) w)) }
{
    let behind = read_out(&mut out.rows, out.numbers, taken, node, to)?;
    out.numbers.site(taken, node)?;
    out.rows.fill(at, Action::Nothing, behind)?;
    Ok(())
}

/// An expression, of whose value that is done.
#[cycle(laying)]
pub fn lay_node(
    out: &mut Layer,
    tables: &Tables,
    taken: Taken,
    node: &Node,
    at: u32,
    to: To,
) -> Result<(), NoMemory>
    ensures { OnOk result (Placed (rows_of out.old.rows) (rows_of out.new.rows) out.old.numbers out.new.numbers at (λ c w k. node_goes (tables_shape tables.now) c taken (node_shape node.now) w (ways k to)) (λ c w. walk_node c taken (node_shape node.now) w)) }
{
    match &node.form {
        Expr::Number(_) => {
            lay_constant(out, node, at, to)?;
            Ok(())
        }
        Expr::Char(_) => {
            lay_constant(out, node, at, to)?;
            Ok(())
        }
        Expr::Str(_) => {
            lay_constant(out, node, at, to)?;
            Ok(())
        }
        Expr::Name(_) => {
            lay_name(out, taken, node, at, to)?;
            Ok(())
        }
        Expr::Paren(a) => {
            lay_node(out, tables, taken, a, at, to)?;
            Ok(())
        }
        Expr::Probe(_, a) => {
            lay_node(out, tables, taken, a, at, to)?;
            Ok(())
        }
        Expr::Index(a, b) => {
            let behind = read_out(&mut out.rows, out.numbers, taken, node, to)?;
            out.numbers.site(taken, node)?;
            let second = out.rows.hole()?;
            lay_node(out, tables, Taken::Read, a, at, To::Value(second))?;
            lay_node(out, tables, Taken::Read, b, second, To::Value(behind))?;
            Ok(())
        }
        Expr::Member(a, _, _) => {
            let behind = read_out(&mut out.rows, out.numbers, taken, node, to)?;
            out.numbers.site(taken, node)?;
            lay_node(out, tables, Taken::Read, a, at, To::Value(behind))?;
            Ok(())
        }
        Expr::Arrow(a, _, _) => {
            let behind = read_out(&mut out.rows, out.numbers, taken, node, to)?;
            out.numbers.site(taken, node)?;
            lay_node(out, tables, Taken::Read, a, at, To::Value(behind))?;
            Ok(())
        }
        Expr::Call(_, args) => {
            let behind = entered_out(&mut out.rows, tables, &node.note, to)?;
            lay_nodes(out, tables, args, at, behind)?;
            Ok(())
        }
        Expr::Unary(op, a) => {
            let behind = read_out(&mut out.rows, out.numbers, taken, node, to)?;
            out.numbers.site(taken, node)?;
            lay_node(out, tables, operand_taken(*op), a, at, To::Value(behind))?;
            Ok(())
        }
        Expr::Step(_, a) => {
            let behind = stepped_out(&mut out.rows, out.numbers, a, to)?;
            lay_node(out, tables, Taken::Changed, a, at, To::Value(behind))?;
            Ok(())
        }
        Expr::SizeOf(_) => {
            leave_with(&mut out.rows, &Outcomes::Both, at, to)?;
            Ok(())
        }
        Expr::SizeOfType(_) => {
            leave_with(&mut out.rows, &Outcomes::Both, at, to)?;
            Ok(())
        }
        Expr::Cast(_, a) => {
            let behind = leave(&mut out.rows, to)?;
            lay_node(out, tables, Taken::Read, a, at, To::Value(behind))?;
            Ok(())
        }
        Expr::Binary(_, a, b) => {
            let behind = leave(&mut out.rows, to)?;
            let second = out.rows.hole()?;
            lay_node(out, tables, Taken::Read, a, at, To::Value(second))?;
            lay_node(out, tables, Taken::Read, b, second, To::Value(behind))?;
            Ok(())
        }
        Expr::Comma(a, b) => {
            let behind = leave(&mut out.rows, to)?;
            let second = out.rows.hole()?;
            lay_node(out, tables, Taken::Read, a, at, To::Value(second))?;
            lay_node(out, tables, Taken::Read, b, second, To::Value(behind))?;
            Ok(())
        }
        Expr::And(a, b) => {
            let yes = yes_of(to);
            let no = no_of(to);
            let right = out.rows.hole()?;
            lay_test(out, tables, a, at, right, no)?;
            lay_loop_test(out, tables, b, right, yes, no)?;
            Ok(())
        }
        Expr::Or(a, b) => {
            let yes = yes_of(to);
            let no = no_of(to);
            let right = out.rows.hole()?;
            lay_test(out, tables, a, at, yes, right)?;
            lay_loop_test(out, tables, b, right, yes, no)?;
            Ok(())
        }
        Expr::Cond(a, b, d) => {
            let behind = leave(&mut out.rows, to)?;
            let first = out.rows.hole()?;
            let second = out.rows.hole()?;
            lay_test(out, tables, a, at, first, second)?;
            lay_arm(out, tables, b, first, behind)?;
            lay_arm(out, tables, d, second, behind)?;
            Ok(())
        }
        Expr::Assign(op, a, b) => {
            let left = left_taken(*op);
            let right = right_taken(*op, a);
            let behind = defined_out(&mut out.rows, out.numbers, a, to)?;
            let second = out.rows.hole()?;
            let changed = changed_row(&mut out.rows, out.numbers, left, a, second)?;
            lay_node(out, tables, left, a, at, To::Value(changed))?;
            lay_node(out, tables, right, b, second, To::Value(behind))?;
            Ok(())
        }
    }
}

/// An expression at a test position.
#[cycle(laying)]
pub fn lay_test(
    out: &mut Layer,
    tables: &Tables,
    node: &Node,
    at: u32,
    yes: u32,
    no: u32,
) -> Result<(), NoMemory>
    ensures { OnOk result (Placed (rows_of out.old.rows) (rows_of out.new.rows) out.old.numbers out.new.numbers at (λ c w k. test_goes (tables_shape tables.now) c (node_shape node.now) w (k yes) (k no)) (λ c w. walk_test c (node_shape node.now) w)) }
{
    let decision = out.numbers.next_decision()?;
    out.numbers.test(node)?;
    lay_node(
        out,
        tables,
        Taken::Read,
        node,
        at,
        To::Test(decision, yes, no),
    )?;
    Ok(())
}

/// An expression that is a block.
#[cycle(laying)]
pub fn lay_arm(
    out: &mut Layer,
    tables: &Tables,
    node: &Node,
    at: u32,
    to: u32,
) -> Result<(), NoMemory>
    ensures { OnOk result (Placed (rows_of out.old.rows) (rows_of out.new.rows) out.old.numbers out.new.numbers at (λ c w k. arm_goes (tables_shape tables.now) c (node_shape node.now) w (k to)) (λ c w. walk_arm c (node_shape node.now) w)) }
{
    let number = out.numbers.next_block()?;
    let inner = out.rows.hole()?;
    out.rows.fill(at, Action::Block(number), inner)?;
    out.numbers.block()?;
    lay_node(out, tables, Taken::Read, node, inner, To::Value(to))?;
    Ok(())
}

/// A block at a test position, as the test of a loop.
#[cycle(laying)]
pub fn lay_loop_test(
    out: &mut Layer,
    tables: &Tables,
    node: &Node,
    at: u32,
    yes: u32,
    no: u32,
) -> Result<(), NoMemory>
    ensures { OnOk result (Placed (rows_of out.old.rows) (rows_of out.new.rows) out.old.numbers out.new.numbers at (λ c w k. loop_test_goes (tables_shape tables.now) c (one_node (node_shape node.now)) w (k yes) (k no)) (λ c w. walk_loop_test c (node_shape node.now) w)) }
{
    let number = out.numbers.next_block()?;
    let inner = out.rows.hole()?;
    out.rows.fill(at, Action::Block(number), inner)?;
    out.numbers.block()?;
    lay_test(out, tables, node, inner, yes, no)?;
    Ok(())
}

// Expressions in turn.
#[cycle(laying)]
fn lay_nodes(
    out: &mut Layer,
    tables: &Tables,
    nodes: &[Node],
    at: u32,
    to: u32,
) -> Result<(), NoMemory>
    ensures { OnOk result (Placed (rows_of out.old.rows) (rows_of out.new.rows) out.old.numbers out.new.numbers at (λ c w k. nodes_go (tables_shape tables.now) c (node_list nodes.now) w (k to)) (λ c w. walk_nodes c (node_list nodes.now) w)) }
{
    let mut entry = out.rows.hole()?;
    out.rows.fill(at, Action::Nothing, entry)?;
    for node in nodes {
        let next = out.rows.hole()?;
        lay_node(out, tables, Taken::Read, node, entry, To::Value(next))?;
        entry = next;
    }
    out.rows.fill(entry, Action::Nothing, to)?;
    Ok(())
}
