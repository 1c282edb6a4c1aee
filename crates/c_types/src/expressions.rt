// Expressions in statements, and the block probes before a statement (C89, 3.6).

ghost use Rattle.std.specs.Prelude.{◌≡◌, OnOk, IfOk};
ghost use Rattle.c_type_rules.specs.Kinds.{type_in};
ghost use Rattle.c_type_rules.specs.Verdicts.{truth_type};
ghost use Rattle.c_syntax.specs.View.{node_shape, maybe_node};
ghost use Rattle.c_tree.specs.State.{step, steps};
ghost use Rattle.c_tree.specs.Rulings.{by, kind_at, rule};
ghost use Rattle.c_tree.specs.Typing.{type_node};
ghost use Rattle.c_tree.specs.Stating.{switched, tested, type_maybe, type_test, result_rule, type_result, type_marks};
ghost use Rattle.c_checker.specs.CheckerView.{state_of};
ghost use Rattle.c_checker.specs.RulingView.{ruled_of};
ghost use Rattle.c_checker.specs.SortView.{sort_of};
ghost use Rattle.c_types.specs.Stated.{for_first, for_test, for_last, switch_value, switch_begun};
ghost use Rattle.c_tree.specs.Complaints.{wrong_type};

use c_base::place::{NoMemory, Pos};
use c_checker::checker::Checker;
use c_checker::probes::Probing;
use c_checker::ruling::{Ruling, by};
use c_checker::sort::{Sort, copied};
use c_syntax::tree::{CType, Node, ProbeMark};
use c_tree::complaints::WRONG_TYPE;
use c_type_rules::choosing::truth;
use c_type_rules::single::promoted_value;
use c_type_rules::storing::fits;
use c_types_expr::nodes::type_node;
use std::alloc::Global;

/// Types an expression in place, if there is one.
pub fn type_maybe(checker: &mut Checker, node: &mut Option<Node>) -> Result<(), NoMemory>
    ensures tree { OnOk result (maybe_node node.new ≡ (type_maybe (maybe_node node.old) (state_of checker.old)).node) }
    ensures state { OnOk result (state_of checker.new ≡ (type_maybe (maybe_node node.old) (state_of checker.old)).state) }
{
    match node {
        None => Ok(()),
        Some(node) => {
            type_node(checker, node)?;
            Ok(())
        }
    }
}

// A test, which begins at that token, is a scalar.
fn tested(checker: &mut Checker, token: u32, pos: Pos, a: Sort) -> Result<(), NoMemory>
    ensures { OnOk result (state_of checker.new ≡ rule (by wrong_type (truth_type (sort_of a).kind)) token pos (state_of checker.old)) }
{
    checker.rule(by(WRONG_TYPE, truth(a.kind)), token, pos)?;
    Ok(())
}

/// Types a test in place.
pub fn type_tested(checker: &mut Checker, node: &mut Node) -> Result<(), NoMemory>
    ensures tree { OnOk result (node_shape node.new ≡ (type_node (node_shape node.old) (state_of checker.old)).node) }
    ensures state { OnOk result (state_of checker.new ≡ tested (state_of checker.old).at (type_node (node_shape node.old) (state_of checker.old))) }
{
    let token = checker.at;
    let pos = node.pos;
    let a = type_node(checker, node)?;
    tested(checker, token, pos, a)
}

/// The same of the test of a `for`, if there is one.
pub fn type_test(checker: &mut Checker, node: &mut Option<Node>) -> Result<(), NoMemory>
    ensures tree { OnOk result (maybe_node node.new ≡ (type_test (maybe_node node.old) (state_of checker.old)).node) }
    ensures state { OnOk result (state_of checker.new ≡ (type_test (maybe_node node.old) (state_of checker.old)).state) }
{
    match node {
        None => Ok(()),
        Some(node) => {
            type_tested(checker, node)?;
            Ok(())
        }
    }
}

/// A test in parentheses, behind a key and with these.
pub fn type_head(checker: &mut Checker, node: &mut Node) -> Result<(), NoMemory>
    ensures tree { OnOk result (node_shape node.new ≡ (type_node (node_shape node.old) (steps 2 (state_of checker.old))).node) }
    ensures state { OnOk result (state_of checker.new ≡ step (tested (steps 2 (state_of checker.old)).at (type_node (node_shape node.old) (steps 2 (state_of checker.old))))) }
{
    checker.steps(2);
    type_tested(checker, node)?;
    checker.step();
    Ok(())
}

// A value that is given back fits into what the function gives, where that is known (C89, 3.6.6.4).
fn result_rule(gives: &Option<CType>, a: Sort, alloc: Global) -> Result<Ruling, NoMemory>
    ensures { IfOk result (λ r. ruled_of r ≡ result_rule (type_in gives.now) (sort_of a)) }
{
    let to = copied(gives, alloc)?;
    Ok(by(WRONG_TYPE, fits(to, a.operand())))
}

/// The value of a `return`, which stands at that token, if there is one.
pub fn type_result(
    checker: &mut Checker,
    token: u32,
    pos: Pos,
    gives: &Option<CType>,
    node: &mut Option<Node>,
) -> Result<(), NoMemory>
    ensures tree { OnOk result (maybe_node node.new ≡ (type_result token pos (type_in gives.now) (maybe_node node.old) (state_of checker.old)).node) }
    ensures state { OnOk result (state_of checker.new ≡ (type_result token pos (type_in gives.now) (maybe_node node.old) (state_of checker.old)).state) }
{
    match node {
        None => Ok(()),
        Some(node) => {
            let a = type_node(checker, node)?;
            let ruling = result_rule(gives, a, checker.alloc)?;
            checker.rule(ruling, token, pos)?;
            Ok(())
        }
    }
}

/// The block probes before a statement or a function's body: word, parenthesis, number, parenthesis and colon of each.
pub fn type_marks(checker: &mut Checker, marks: &[ProbeMark]) -> Result<(), NoMemory>
    ensures { OnOk result (state_of checker.new ≡ type_marks marks.now (state_of checker.old)) }
{
    for mark in marks {
        checker.claim(Probing::Block, mark.number.bytes(), checker.at, mark.pos)?;
        checker.steps(5);
    }
    Ok(())
}

/// An expression statement in place, with its semicolon.
pub fn type_simply(checker: &mut Checker, node: &mut Option<Node>) -> Result<(), NoMemory>
    ensures tree { OnOk result (maybe_node node.new ≡ (type_maybe (maybe_node node.old) (state_of checker.old)).node) }
    ensures state { OnOk result (state_of checker.new ≡ step (type_maybe (maybe_node node.old) (state_of checker.old)).state) }
{
    type_maybe(checker, node)?;
    checker.step();
    Ok(())
}

/// The parentheses of a `for`, with what stands in them, behind its key.
pub fn type_for_head(
    checker: &mut Checker,
    first: &mut Option<Node>,
    test: &mut Option<Node>,
    last: &mut Option<Node>,
) -> Result<(), NoMemory>
    ensures first { OnOk result (maybe_node first.new ≡ (for_first (maybe_node first.old) (state_of checker.old)).node) }
    ensures test { OnOk result (maybe_node test.new ≡ (for_test (maybe_node first.old) (maybe_node test.old) (state_of checker.old)).node) }
    ensures last { OnOk result (maybe_node last.new ≡ (for_last (maybe_node first.old) (maybe_node test.old) (maybe_node last.old) (state_of checker.old)).node) }
    ensures state { OnOk result (state_of checker.new ≡ step (for_last (maybe_node first.old) (maybe_node test.old) (maybe_node last.old) (state_of checker.old)).state) }
{
    checker.steps(2);
    type_maybe(checker, first)?;
    checker.step();
    type_test(checker, test)?;
    checker.step();
    type_maybe(checker, last)?;
    checker.step();
    Ok(())
}

/// The value of a `switch` in parentheses, behind its key and with the brace behind them: its promoted type, where no
/// complaint stands inside.
pub fn type_switched(checker: &mut Checker, node: &mut Node) -> Result<Option<CType>, NoMemory>
    ensures tree { OnOk result (node_shape node.new ≡ (switch_value (node_shape node.old) (state_of checker.old)).node) }
    ensures kind { IfOk result (λ k. type_in k ≡ kind_at (switched (switch_value (node_shape node.old) (state_of checker.old)))) }
    ensures state { OnOk result (state_of checker.new ≡ switch_begun (steps 2 (state_of checker.old)).at (switch_value (node_shape node.old) (state_of checker.old))) }
{
    checker.steps(2);
    let token = checker.at;
    let pos = node.pos;
    let a = type_node(checker, node)?;
    let kind = checker.rule(by(WRONG_TYPE, promoted_value(a.kind)), token, pos)?;
    checker.steps(2);
    Ok(kind)
}
