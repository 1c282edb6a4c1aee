// Places (C89, 3.2.2.1).

ghost use Rattle.std.specs.Prelude.{◌≡◌, IfOk};
ghost use Rattle.c_syntax.specs.View.{node_shape, note_shape, expr_shape};
ghost use Rattle.c_walk.specs.ItemView.{place_shape};
ghost use Rattle.c_walk.specs.Places.{is_place, has_scalar, has_structure, has_array, named, with_part, field_text, direct};

use crate::items::Direct;
use c_base::place::NoMemory;
use c_syntax::text::Text;
use c_syntax::tree::{CType, Expr, Node, Note, UnaryOp};
use c_type_rules::kinds::{copy, is_scalar};
use std::alloc::Global;

/// Whether the form is that of a place.
#[tactic(auto, using(crate::proofs::Steps::no_place))]
pub fn is_place(form: &Expr) -> bool
    ensures { result ≡ is_place (expr_shape form.now) }
{
    match form {
        Expr::Name(_) | Expr::Index(_, _) | Expr::Member(_, _, _) | Expr::Arrow(_, _, _) => true,
        Expr::Unary(op, _) => *op == UnaryOp::Deref,
        _ => false,
    }
}

/// Whether it is noted as an integer or a pointer.
pub fn has_scalar(note: &Note) -> bool
    ensures { result ≡ has_scalar (note_shape note.now) }
{
    match note {
        Note::Typed(kind, _) => is_scalar(kind),
        _ => false,
    }
}

/// Whether it is noted as a structure.
pub fn has_structure(note: &Note) -> bool
    ensures { result ≡ has_structure (note_shape note.now) }
{
    matches!(note, Note::Typed(CType::Struct(_), _))
}

fn has_array(node: &Node) -> bool
    ensures { result ≡ has_array (node_shape node.now) }
{
    matches!(&node.note, Note::Typed(CType::Array(_, _), _))
}

/// The direct place that it is, if it is one.
#[tactic(auto, using(crate::proofs::Steps::not_direct))]
pub fn direct(alloc: Global, node: &Node) -> Result<Option<Direct>, NoMemory>
    ensures { IfOk result (λ d. place_shape d ≡ direct (node_shape node.now)) }
{
    match &node.form {
        Expr::Name(text) => named(alloc, text, &node.note),
        Expr::Paren(a) => direct(alloc, a),
        Expr::Member(a, text, _) => {
            let holder = direct(alloc, a)?;
            with_field(alloc, text, &node.note, holder)
        }
        Expr::Index(a, b) => {
            if has_array(a) {
                let holder = direct(alloc, a)?;
                with_part(alloc, b"[]", &node.note, holder)
            } else if has_array(b) {
                let holder = direct(alloc, b)?;
                with_part(alloc, b"[]", &node.note, holder)
            } else {
                Ok(None)
            }
        }
        _ => Ok(None),
    }
}

// A variable.
fn named(alloc: Global, text: &Text, note: &Note) -> Result<Option<Direct>, NoMemory>
    ensures { IfOk result (λ d. place_shape d ≡ named text.now (note_shape note.now)) }
{
    match note {
        Note::Typed(kind, Some(number)) => {
            let variable = *number;
            let kind = copy(kind, alloc)?;
            let name = bytes(alloc, text.bytes())?;
            Ok(Some(Direct {
                variable,
                name,
                kind,
            }))
        }
        _ => Ok(None),
    }
}

/// A copy of these bytes.
pub fn bytes(alloc: Global, text: &[u8]) -> Result<Vec<u8>, NoMemory>
    ensures { IfOk result (λ v. v.items ≡ text.now) }
{
    match Vec::from_slice(alloc, text) {
        Ok(text) => Ok(text),
        Err(_) => Err(NoMemory),
    }
}

// A field of a place.
fn with_field(
    alloc: Global,
    text: &Text,
    note: &Note,
    holder: Option<Direct>,
) -> Result<Option<Direct>, NoMemory>
    ensures { IfOk result (λ d. place_shape d ≡ with_part (field_text text.now) (note_shape note.now) (place_shape holder)) }
{
    let mut part = bytes(alloc, b".")?;
    if part.extend_from_slice(text.bytes()).is_err() {
        return Err(NoMemory);
    }
    with_part(alloc, &part, note, holder)
}

// A part of a place, with the text that stands for it.
fn with_part(
    alloc: Global,
    text: &[u8],
    note: &Note,
    holder: Option<Direct>,
) -> Result<Option<Direct>, NoMemory>
    ensures { IfOk result (λ d. place_shape d ≡ with_part text.now (note_shape note.now) (place_shape holder)) }
{
    match (holder, note) {
        (Some(holder), Note::Typed(kind, _)) => {
            let kind = copy(kind, alloc)?;
            let mut name = holder.name;
            if name.extend_from_slice(text).is_err() {
                return Err(NoMemory);
            }
            Ok(Some(Direct {
                variable: holder.variable,
                name,
                kind,
            }))
        }
        _ => Ok(None),
    }
}
