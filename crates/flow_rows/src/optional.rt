//! Expressions that may be left out.

ghost use Rattle.std.specs.Prelude.{◌≡◌, OnOk};
ghost use Rattle.c_syntax.specs.View.{maybe_node};
ghost use Rattle.c_tables.specs.Tables.{tables_shape};
ghost use Rattle.c_walk.specs.Walking.{walk_maybe, walk_maybe_test, walk_step};
ghost use Rattle.flow_walks.specs.Expressions.{maybe_goes, loop_test_goes, step_goes};
ghost use Rattle.flow_rows.specs.Laying.{Placed};
ghost use Rattle.flow_rows.specs.View.{rows_of};

use crate::layer::Layer;
use crate::nodes::{lay_arm, lay_loop_test, lay_node};
use crate::targets::To;
use c_base::place::NoMemory;
use c_syntax::tree::Node;
use c_tables::tables::Tables;
use c_walk::around::Taken;
use flow_walks::action::Action;

/// An expression behind whose value it goes on.
pub fn lay_maybe(
    out: &mut Layer,
    tables: &Tables,
    node: &Option<Node>,
    at: u32,
    to: u32,
) -> Result<(), NoMemory>
    ensures { OnOk result (Placed (rows_of out.old.rows) (rows_of out.new.rows) out.old.numbers out.new.numbers at (λ c w k. maybe_goes (tables_shape tables.now) c (maybe_node node.now) w (k to)) (λ c w. walk_maybe c (maybe_node node.now) w)) }
{
    match node {
        None => {
            out.rows.fill(at, Action::Nothing, to)?;
            Ok(())
        }
        Some(node) => {
            lay_node(out, tables, Taken::Read, node, at, To::Value(to))?;
            Ok(())
        }
    }
}

/// The test of a `for`; one that is left out holds.
pub fn lay_maybe_test(
    out: &mut Layer,
    tables: &Tables,
    node: &Option<Node>,
    at: u32,
    yes: u32,
    no: u32,
) -> Result<(), NoMemory>
    ensures { OnOk result (Placed (rows_of out.old.rows) (rows_of out.new.rows) out.old.numbers out.new.numbers at (λ c w k. loop_test_goes (tables_shape tables.now) c (maybe_node node.now) w (k yes) (k no)) (λ c w. walk_maybe_test c (maybe_node node.now) w)) }
{
    match node {
        None => {
            out.rows.fill(at, Action::Nothing, yes)?;
            Ok(())
        }
        Some(node) => {
            lay_loop_test(out, tables, node, at, yes, no)?;
            Ok(())
        }
    }
}

/// The step of a `for`, which is a block.
pub fn lay_step(
    out: &mut Layer,
    tables: &Tables,
    node: &Option<Node>,
    at: u32,
    to: u32,
) -> Result<(), NoMemory>
    ensures { OnOk result (Placed (rows_of out.old.rows) (rows_of out.new.rows) out.old.numbers out.new.numbers at (λ c w k. step_goes (tables_shape tables.now) c (maybe_node node.now) w (k to)) (λ c w. walk_step c (maybe_node node.now) w)) }
{
    match node {
        None => {
            out.rows.fill(at, Action::Nothing, to)?;
            Ok(())
        }
        Some(node) => {
            lay_arm(out, tables, node, at, to)?;
            Ok(())
        }
    }
}
