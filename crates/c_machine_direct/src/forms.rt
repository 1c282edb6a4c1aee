//! Which statements are done at once.

ghost use Rattle.std.specs.Prelude.{◌≡◌, true};
ghost use Rattle.c_machine_direct.specs.Forms.{is_direct_maybe, is_direct_form, is_direct_compound, are_direct, is_direct_loop};

use c_eval_direct::forms::{LEVELS, is_direct};
use c_syntax::tree::{Compound, Item, Node, Stmt, StmtForm};

/// How many statements stand in one another at most in one that is done at once.
pub const DEPTH: u32 = 8;

/// The test and the step of a loop are direct, and its body is done at once.
pub fn is_direct_loop(form: &StmtForm) -> bool
    ensures { result ≡ true → is_direct_loop form.now ≡ true }
{
    match form {
        StmtForm::While(test, body) => is_direct(test, LEVELS) && is_direct_form(&body.form, DEPTH),
        StmtForm::Do(body, test) => is_direct(test, LEVELS) && is_direct_form(&body.form, DEPTH),
        StmtForm::For(_, test, step, body) => {
            is_direct_maybe(test) && is_direct_maybe(step) && is_direct_form(&body.form, DEPTH)
        }
        _ => false,
    }
}

// No expression, or a direct one.
fn is_direct_maybe(node: &Option<Node>) -> bool
    ensures { result ≡ true → is_direct_maybe node.now ≡ true }
{
    match node {
        None => true,
        Some(node) => is_direct(node, LEVELS),
    }
}

// The statement is done at once, and has at most so many statements in one another.
#[cycle(forms)]
fn is_direct_form(form: &StmtForm, depth: u32) -> bool
    ensures { result ≡ true → is_direct_form form.now ≡ true }
{
    match form {
        StmtForm::Compound(body) => depth > 0 && is_direct_compound(body, depth - 1),
        StmtForm::Plain(node) | StmtForm::Return(node) => is_direct_maybe(node),
        StmtForm::If(test, first, other) => {
            depth > 0
                && is_direct(test, LEVELS)
                && is_direct_form(&first.form, depth - 1)
                && match other {
                    None => true,
                    Some(other) => is_direct_form(&other.form, depth - 1),
                }
        }
        StmtForm::Break | StmtForm::Continue => true,
        _ => false,
    }
}

#[cycle(forms)]
#[tactic(auto, using(crate::proofs::Lists::compound_direct))]
fn is_direct_compound(body: &Compound, depth: u32) -> bool
    ensures { result ≡ true → is_direct_compound body.now ≡ true }
{
    body.decls.is_empty() && are_direct(&body.items, depth)
}

#[cycle(forms)]
fn are_direct(items: &[Item], depth: u32) -> bool
    ensures { result ≡ true → are_direct items.now ≡ true }
{
    for item in items {
        if !is_direct_form(&item.stmt.form, depth) {
            return false;
        }
    }
    true
}
