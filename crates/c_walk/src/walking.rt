// The items of an expression (C89, 3.3).

ghost use Rattle.std.specs.Prelude.{◌≡◌, false, if◌then◌else◌, OnOk, IfOk};
ghost use Rattle.c_syntax.specs.View.{node_shape, note_shape, expr_shape, node_list, maybe_node};
ghost use Rattle.c_walk.specs.Walked.{with_site, with_sites, with_use, operand_taken, left_taken, right_taken, is_used, inside, inside_test, with_test};
ghost use Rattle.c_walk.specs.Walking.{walk_node, walk_form, walk_test, walk_arm, walk_nodes, walk_maybe, walk_loop_test, walk_maybe_test, walk_step};
ghost use Rattle.c_walk.specs.WalkerView.{walked};
ghost use Rattle.c_walk.specs.Places.{direct};

use crate::around::{Around, Taken};
use crate::places::{direct, is_place};
use crate::taken::{is_used, is_written, left_taken, operand_taken, right_taken};
use crate::tests::{is_logical, outcomes};
use crate::walker::Walker;
use c_base::place::NoMemory;
use c_syntax::tree::{Expr, Node};

/// Adds the items of an expression, of whose value that is done.
#[cycle(expression)]
pub fn walk_node(
    out: &mut Walker,
    around: Around,
    taken: Taken,
    node: &Node,
) -> Result<(), NoMemory>
    ensures { OnOk result (walked out.new ≡ walk_node around taken (node_shape node.now) (walked out.old)) }
{
    put_site(out, around, taken, node)?;
    walk_form(out, around, taken, &node.form)
}

#[cycle(expression)]
#[tactic(auto, using(crate::proofs::Steps::step_walked))]
fn walk_form(out: &mut Walker, around: Around, taken: Taken, form: &Expr) -> Result<(), NoMemory>
    ensures { OnOk result (walked out.new ≡ walk_form around taken (expr_shape form.now) (walked out.old)) }
{
    match form {
        Expr::Paren(a) | Expr::Probe(_, a) => walk_node(out, around, taken, a),
        Expr::Call(_, args) => walk_nodes(out, around, args),
        Expr::Unary(op, a) => walk_node(out, around, operand_taken(*op), a),
        Expr::Step(_, a) => walk_node(out, around, Taken::Changed, a),
        Expr::Cast(_, a) | Expr::Member(a, _, _) | Expr::Arrow(a, _, _) => {
            walk_node(out, around, Taken::Read, a)
        }
        Expr::Index(a, b) | Expr::Binary(_, a, b) | Expr::Comma(a, b) => {
            walk_node(out, around, Taken::Read, a)?;
            walk_node(out, around, Taken::Read, b)
        }
        Expr::Assign(op, a, b) => {
            walk_node(out, around, left_taken(*op), a)?;
            walk_node(out, around, right_taken(*op, a), b)
        }
        Expr::And(a, b) | Expr::Or(a, b) => {
            walk_test(out, around, a)?;
            out.block(b.pos)?;
            walk_test(out, around, b)
        }
        Expr::Cond(a, b, c) => {
            walk_test(out, around, a)?;
            walk_arm(out, around, b)?;
            walk_arm(out, around, c)
        }
        Expr::Number(_)
        | Expr::Char(_)
        | Expr::Str(_)
        | Expr::Name(_)
        | Expr::SizeOf(_)
        | Expr::SizeOfType(_) => Ok(()),
    }
}

/// Adds the items of an expression at a test position.
#[cycle(expression)]
pub fn walk_test(out: &mut Walker, around: Around, node: &Node) -> Result<(), NoMemory>
    ensures { OnOk result (walked out.new ≡ walk_test around (node_shape node.now) (walked out.old)) }
{
    let inside = inside_test(out, around, node)?;
    put_test(out, node)?;
    walk_node(out, inside, Taken::Read, node)
}

/// Adds the items of an expression that is a block.
#[cycle(expression)]
pub fn walk_arm(out: &mut Walker, around: Around, node: &Node) -> Result<(), NoMemory>
    ensures { OnOk result (walked out.new ≡ walk_arm around (node_shape node.now) (walked out.old)) }
{
    out.block(node.pos)?;
    walk_node(out, around, Taken::Read, node)
}

#[cycle(expression)]
fn walk_nodes(out: &mut Walker, around: Around, nodes: &[Node]) -> Result<(), NoMemory>
    ensures { OnOk result (walked out.new ≡ walk_nodes around (node_list nodes.now) (walked out.old)) }
{
    for node in nodes {
        walk_node(out, around, Taken::Read, node)?;
    }
    Ok(())
}

// ---- the sites of an expression by itself

fn put_site(out: &mut Walker, around: Around, taken: Taken, node: &Node) -> Result<(), NoMemory>
    ensures { OnOk result (walked out.new ≡ with_site around taken node.now.pos (note_shape node.now.note) (expr_shape node.now.form) (walked out.old)) }
{
    if is_place(&node.form) {
        put_sites(out, around, taken, node)
    } else {
        Ok(())
    }
}

fn put_sites(out: &mut Walker, around: Around, taken: Taken, node: &Node) -> Result<(), NoMemory>
    ensures { OnOk result (walked out.new ≡ with_sites around taken node.now.pos (direct (node_shape node.now)) (is_used taken (note_shape node.now.note)) (walked out.old)) }
{
    if is_written(taken) {
        let place = direct(out.alloc(), node)?;
        out.def(around, node.pos, place)?;
    }
    put_use(out, around, taken, node)
}

fn put_use(out: &mut Walker, around: Around, taken: Taken, node: &Node) -> Result<(), NoMemory>
    ensures { OnOk result (walked out.new ≡ with_use (is_used taken (note_shape node.now.note)) around node.now.pos (direct (node_shape node.now)) (walked out.old)) }
{
    if is_used(taken, node) {
        let place = direct(out.alloc(), node)?;
        out.used(around, node.pos, place)
    } else {
        Ok(())
    }
}

// ---- tests

fn inside_test(out: &Walker, around: Around, node: &Node) -> Result<Around, NoMemory>
    ensures { IfOk result (λ c. c ≡ inside_test around (expr_shape node.now.form) (walked out.now)) }
{
    if is_logical(node) {
        return Ok(around);
    }
    inside(out, around)
}

/// Where an expression of the next decision stands.
pub fn inside(out: &Walker, around: Around) -> Result<Around, NoMemory>
    ensures { IfOk result (λ c. c ≡ inside around (walked out.now)) }
{
    let owner = Some(out.next_decision()?);
    Ok(Around {
        function: around.function,
        owner,
    })
}

fn put_test(out: &mut Walker, node: &Node) -> Result<(), NoMemory>
    ensures { OnOk result (walked out.new ≡ with_test node.now.pos (expr_shape node.now.form) (walked out.old)) }
{
    if is_logical(node) {
        return Ok(());
    }
    out.decision(node.pos, outcomes(node))
}

// ---- expressions in statements

/// Adds the items of an expression, if there is one.
pub fn walk_maybe(out: &mut Walker, around: Around, node: &Option<Node>) -> Result<(), NoMemory>
    ensures { OnOk result (walked out.new ≡ walk_maybe around (maybe_node node.now) (walked out.old)) }
{
    match node {
        None => Ok(()),
        Some(node) => walk_node(out, around, Taken::Read, node),
    }
}

/// Adds the items of a loop's test, which is a block.
pub fn walk_loop_test(out: &mut Walker, around: Around, node: &Node) -> Result<(), NoMemory>
    ensures { OnOk result (walked out.new ≡ walk_loop_test around (node_shape node.now) (walked out.old)) }
{
    out.block(node.pos)?;
    walk_test(out, around, node)
}

/// Adds the items of a loop's test, if there is one.
pub fn walk_maybe_test(
    out: &mut Walker,
    around: Around,
    node: &Option<Node>,
) -> Result<(), NoMemory>
    ensures { OnOk result (walked out.new ≡ walk_maybe_test around (maybe_node node.now) (walked out.old)) }
{
    match node {
        None => Ok(()),
        Some(node) => walk_loop_test(out, around, node),
    }
}

/// Adds the items of the step of a `for`, which is a block, if there is one.
pub fn walk_step(out: &mut Walker, around: Around, node: &Option<Node>) -> Result<(), NoMemory>
    ensures { OnOk result (walked out.new ≡ walk_step around (maybe_node node.now) (walked out.old)) }
{
    match node {
        None => Ok(()),
        Some(node) => walk_arm(out, around, node),
    }
}
