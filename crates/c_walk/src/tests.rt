// What stands at a test position.

ghost use Rattle.std.specs.Prelude.{◌≡◌, ◌++◌, map, OnOk, IfOk};
ghost use Rattle.c_syntax.specs.Shape.{two, plain};
ghost use Rattle.c_syntax.specs.View.{expr_shape, node_shape, note_shape, label_shape, item_list};
ghost use Rattle.c_walk.specs.ItemView.{outcomes_shape};
ghost use Rattle.c_walk.specs.Tests.{is_logical, outcome_of, number_constant, outcomes, noted_constant, cast_to, constant, constant_form, choosing, case_value, label_values, case_values};
ghost use Rattle.c_constants.specs.Numbers.{number_of};

use crate::items::Outcomes;
use c_arith::convert;
use c_base::place::{IntKind, NoMemory};
use c_constants::constants::{Constant, character};
use c_constants::numbers;
use c_constants::operators::{binary, both, cast, choice, either, unary};
use c_syntax::text::Text;
use c_syntax::tree::{CType, Expr, Item, Label, Node, Note};
use c_type_rules::kinds::promoted;
use std::alloc::Global;

/// Whether it is `&&` or `||`, in parentheses or not (C89, 3.3.13 and 3.3.14).
pub fn is_logical(node: &Node) -> bool
    ensures { result ≡ is_logical (node_shape node.now) }
{
    match &node.form {
        Expr::Paren(a) => is_logical(a),
        Expr::And(_, _) | Expr::Or(_, _) => true,
        _ => false,
    }
}

/// What a test may come to: an integer or a character constant has its own outcome alone.
pub fn outcomes(node: &Node) -> Outcomes
    ensures { outcomes_shape result ≡ outcomes (node_shape node.now) }
{
    match &node.form {
        Expr::Paren(a) => outcomes(a),
        Expr::Number(text) => outcome_of(number_constant(text)),
        Expr::Char(byte) => outcome_of(character(*byte)),
        _ => Outcomes::Both,
    }
}

fn outcome_of(constant: Constant) -> Outcomes
    ensures { outcomes_shape result ≡ outcome_of constant }
{
    match constant {
        Constant::Known(_, value) => {
            if value == 0 {
                Outcomes::OnlyFalse
            } else {
                Outcomes::OnlyTrue
            }
        }
        _ => Outcomes::Both,
    }
}

fn number_constant(text: &Text) -> Constant
    ensures { result ≡ number_constant (number_of text.now) }
{
    match numbers::number_of(text.bytes()) {
        Some(number) => number.constant(),
        None => Constant::No,
    }
}

// What is known of a constant expression (C89, 3.4).
#[cycle(constant)]
fn constant(node: &Node) -> Constant
    ensures { result ≡ constant (node_shape node.now) }
{
    noted_constant(&node.note, constant_form(&node.note, &node.form))
}

#[cycle(constant)]
#[tactic(auto, using(crate::proofs::Steps::no_constant))]
fn constant_form(note: &Note, form: &Expr) -> Constant
    ensures { result ≡ constant_form (note_shape note.now) (expr_shape form.now) }
{
    match form {
        Expr::Number(text) => number_constant(text),
        Expr::Char(byte) => character(*byte),
        Expr::Paren(a) => constant(a),
        Expr::Unary(op, a) => unary(*op, constant(a)),
        Expr::Cast(_, a) => cast_to(note, constant(a)),
        Expr::Binary(op, a, b) => binary(*op, constant(a), constant(b)),
        Expr::And(a, b) => both(constant(a), constant(b)),
        Expr::Or(a, b) => either(constant(a), constant(b)),
        Expr::Cond(a, b, c) => choice(constant(a), constant(b), constant(c)),
        Expr::Str(_)
        | Expr::Name(_)
        | Expr::Index(_, _)
        | Expr::Member(_, _, _)
        | Expr::Arrow(_, _, _)
        | Expr::Call(_, _)
        | Expr::Step(_, _)
        | Expr::SizeOf(_)
        | Expr::SizeOfType(_)
        | Expr::Assign(_, _, _)
        | Expr::Comma(_, _)
        | Expr::Probe(_, _) => Constant::No,
    }
}

// An enumeration constant and a sizeof have their values in their notes.
fn noted_constant(note: &Note, constant: Constant) -> Constant
    ensures { result ≡ noted_constant (note_shape note.now) constant }
{
    match note {
        Note::Known(CType::Int(kind), value) => Constant::Known(*kind, *value),
        _ => constant,
    }
}

fn cast_to(note: &Note, constant: Constant) -> Constant
    ensures { result ≡ cast_to (note_shape note.now) constant }
{
    match note {
        Note::Typed(kind, _) => cast(kind, constant),
        _ => Constant::No,
    }
}

/// The promoted type of what a switch chooses by (C89, 3.6.4.2).
pub fn choosing(node: &Node) -> Option<IntKind>
    ensures { result ≡ choosing (node_shape node.now) }
{
    match &node.note {
        Note::Typed(CType::Int(kind), _) | Note::Known(CType::Int(kind), _) => Some(promoted(
            *kind,
        )),
        _ => None,
    }
}

fn case_value(kind: Option<IntKind>, constant: Constant) -> i128
    ensures { result ≡ case_value kind constant }
{
    match (kind, constant) {
        (Some(kind), Constant::Known(_, value)) => convert(value, kind),
        _ => 0,
    }
}

fn put_label_values(
    values: &mut Vec<i128>,
    kind: Option<IntKind>,
    labels: &[Label],
) -> Result<(), NoMemory>
    ensures { OnOk result (values.new.items ≡ values.old.items ++ label_values kind (map label_shape labels.now)) }
{
    for label in labels {
        if let Label::Case(_, node) = label {
            if values.push(case_value(kind, constant(node))).is_err() {
                return Err(NoMemory);
            }
        }
    }
    Ok(())
}

/// The case constants of a switch, in order, converted to that type.
pub fn case_values(
    alloc: Global,
    kind: Option<IntKind>,
    items: &[Item],
) -> Result<Vec<i128>, NoMemory>
    ensures { IfOk result (λ v. v.items ≡ case_values kind (item_list items.now)) }
{
    let mut values = Vec::new(alloc);
    for item in items {
        put_label_values(&mut values, kind, &item.labels)?;
    }
    Ok(values)
}
