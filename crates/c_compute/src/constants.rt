//! Constant expressions, and what a `switch` and a select probe choose by them (C89, 3.4 and 3.6.4.2).

ghost use Rattle.std.specs.Prelude.{◌≡◌, ◌+◌, IfOk, length, Option, Some};
ghost use Rattle.c_base.specs.declared.place.IntKind.{IntKind};
ghost use Rattle.c_syntax.specs.View.{expr_shape, node_shape, note_shape, node_list, item_list};
ghost use Rattle.c_constants.specs.Numbers.{number_of};
ghost use Rattle.c_walk.specs.Tests.{number_constant, noted_constant, cast_to, choosing, case_value};
ghost use Rattle.c_meaning.specs.Constants.{constant, constant_form, case_constants, select_constants, number_among, chosen_among};
ghost use Rattle.c_meaning.specs.Statements.{case_number};

use c_arith::convert;
use c_base::place::{IntKind, NoMemory};
use c_constants::constants::{Constant, character};
use c_constants::numbers;
use c_constants::operators::{binary, both, cast, choice, either, unary};
use c_constants::places::probed;
use c_store::value::Value;
use c_syntax::text::Text;
use c_syntax::tree::{CType, Expr, ExprProbe, Item, Label, Node, Note};
use c_walk::tests::choosing;

// ---- constant expressions

/// What is known of an expression before a run (C89, 3.4), where a probe of a block or a test round it changes nothing.
#[cycle(constant)]
pub fn constant(node: &Node) -> Constant
    ensures { result ≡ constant (node_shape node.now) }
{
    noted_constant(&node.note, constant_form(&node.note, &node.form))
}

#[cycle(constant)]
fn constant_form(note: &Note, form: &Expr) -> Constant
    ensures { result ≡ constant_form (note_shape note.now) (expr_shape form.now) }
{
    match form {
        Expr::Number(text) => number_constant(text),
        Expr::Char(byte) => character(*byte),
        Expr::Paren(a) => constant(a),
        Expr::Unary(op, a) => unary(*op, constant(a)),
        Expr::Cast(_, a) => cast_to(note, constant(a)),
        Expr::Binary(op, a, b) => binary(*op, constant(a), constant(b)),
        Expr::And(a, b) => both(constant(a), constant(b)),
        Expr::Or(a, b) => either(constant(a), constant(b)),
        Expr::Cond(a, b, c) => choice(constant(a), constant(b), constant(c)),
        Expr::Probe(ExprProbe::Block(_), a) => probed(constant(a)),
        Expr::Probe(ExprProbe::Test(_), a) => probed(constant(a)),
        Expr::Probe(ExprProbe::Select(_, _), _)
        | Expr::Probe(ExprProbe::Use(_), _)
        | Expr::Probe(ExprProbe::Def(_), _) => Constant::No,
        Expr::Str(_)
        | Expr::Name(_)
        | Expr::Index(_, _)
        | Expr::Member(_, _, _)
        | Expr::Arrow(_, _, _)
        | Expr::Call(_, _)
        | Expr::Step(_, _)
        | Expr::SizeOf(_)
        | Expr::SizeOfType(_)
        | Expr::Assign(_, _, _)
        | Expr::Comma(_, _) => Constant::No,
    }
}

fn number_constant(text: &Text) -> Constant
    ensures { result ≡ number_constant (number_of text.now) }
{
    match numbers::number_of(text.bytes()) {
        Some(number) => number.constant(),
        None => Constant::No,
    }
}

// An enumeration constant and a sizeof have their values in their notes.
fn noted_constant(note: &Note, constant: Constant) -> Constant
    ensures { result ≡ noted_constant (note_shape note.now) constant }
{
    match note {
        Note::Known(CType::Int(kind), value) => Constant::Known(*kind, *value),
        _ => constant,
    }
}

fn cast_to(note: &Note, constant: Constant) -> Constant
    ensures { result ≡ cast_to (note_shape note.now) constant }
{
    match note {
        Note::Typed(kind, _) => cast(kind, constant),
        _ => Constant::No,
    }
}

// ---- choices

/// The constant converted to the type of what is chosen by (C89, 3.6.4.2); 0 where it is none, or there is no type.
pub fn case_value(kind: Option<IntKind>, constant: Constant) -> i128
    ensures { result ≡ case_value kind constant }
{
    match (kind, constant) {
        (Some(kind), Constant::Known(_, value)) => convert(value, kind),
        _ => 0,
    }
}

/// The number of the first case of the switch's statements whose constant the value equals, or one more than there are cases
/// (C89, 3.6.4.2), counted from 1.
#[tactic(auto, using(crate::proofs::Choices::not_chosen))]
pub fn case_number(chosen: &Node, items: &[Item], value: Value) -> Result<u32, NoMemory>
    ensures { IfOk result (λ n. n ≡ case_number (node_shape chosen.now) (item_list items.now) value) }
{
    match choosing(chosen) {
        Some(kind) => match value {
            Value::Int(number) => case_among(kind, convert(number, kind), items),
            Value::Null | Value::At(_) => next(case_count(items)?),
        },
        None => next(case_count(items)?),
    }
}

/// How many cases the statements of a switch have (C89, 3.6.4.2).
pub fn case_count(items: &[Item]) -> Result<u32, NoMemory>
    ensures { IfOk result (λ n. (k : Option IntKind) → n ≡ length (case_constants k (item_list items.now))) }
{
    let mut count: u32 = 0;
    for item in items {
        for label in &item.labels {
            if let Label::Case(_, _) = label {
                count = next(count)?;
            }
        }
    }
    Ok(count)
}

// The number of the first case that the value equals, or one more than there are.
fn case_among(kind: IntKind, value: i128, items: &[Item]) -> Result<u32, NoMemory>
    ensures { IfOk result (λ n. n ≡ number_among value (case_constants (Some kind) (item_list items.now))) }
{
    let mut passed: u32 = 0;
    for item in items {
        for label in &item.labels {
            if let Label::Case(_, node) = label {
                if case_value(Some(kind), constant(node)) == value {
                    return next(passed);
                }
                passed = next(passed)?;
            }
        }
    }
    next(passed)
}

/// The number of the first of a select probe's constants that the value equals, or one more than there are, counted from 1;
/// the constants are converted to the type of the expression.
#[tactic(auto, using(crate::proofs::Choices::not_chosen, crate::proofs::Choices::select_length))]
pub fn select_number(chosen: &Node, constants: &[Node], value: Value) -> Result<u32, NoMemory>
    ensures { IfOk result (λ n. n ≡ chosen_among (choosing (node_shape chosen.now)) value (select_constants (choosing (node_shape chosen.now)) (node_list constants.now))) }
{
    match choosing(chosen) {
        Some(kind) => match value {
            Value::Int(number) => constant_among(kind, convert(number, kind), constants),
            Value::Null | Value::At(_) => number_behind(constants.len()),
        },
        None => number_behind(constants.len()),
    }
}

// The number of the first constant that the value equals, or one more than there are.
fn constant_among(kind: IntKind, value: i128, constants: &[Node]) -> Result<u32, NoMemory>
    ensures { IfOk result (λ n. n ≡ number_among value (select_constants (Some kind) (node_list constants.now))) }
{
    let mut passed: u32 = 0;
    for node in constants {
        if case_value(Some(kind), constant(node)) == value {
            return next(passed);
        }
        passed = next(passed)?;
    }
    next(passed)
}

// One more than there are.
fn number_behind(count: usize) -> Result<u32, NoMemory>
    ensures { IfOk result (λ n. n ≡ count + 1) }
{
    if count < 0xffff_ffff {
        Ok(count as u32 + 1)
    } else {
        Err(NoMemory)
    }
}

fn next(number: u32) -> Result<u32, NoMemory>
    ensures { IfOk result (λ n. n ≡ number + 1) }
{
    match number.checked_add(1) {
        Some(number) => Ok(number),
        None => Err(NoMemory),
    }
}
