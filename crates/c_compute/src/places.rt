// Places that are known before a run: variables of file scope, and parts of them (C89, 3.4).

ghost use Rattle.std.specs.Prelude.{◌≡◌, ◌<◌, ℕ, IfSome};
ghost use Rattle.c_syntax.specs.View.{node_shape, note_shape, type_of};
ghost use Rattle.c_tables.specs.Tables.{tables_shape};
ghost use Rattle.c_walk.specs.Places.{has_array};
ghost use Rattle.c_meaning.specs.Layout.{part_in};
ghost use Rattle.c_meaning.specs.Constants.{type_at, object_in, variable_in, part_of, element_in, field_in, place_in};
ghost use Rattle.c_compute.specs.Kinds.{type_behind, IsWithin, index_below};
ghost use Rattle.c_base.specs.Kept.{kept};

use crate::constants::constant;
use crate::filing::Filing;
use crate::layout::{cells, part_in};
use c_constants::constants::Constant;
use c_store::value::Pointer;
use c_syntax::text::Text;
use c_syntax::tree::{CType, Expr, ExprProbe, Node, Note};
use c_tables::tables::Tables;

/// The place that an expression is, where it is a variable of file scope or a part of one at constant indexes.
pub fn place_in(tables: &Tables, filing: &Filing, node: &Node) -> Option<Pointer>
    ensures place { result ≡ place_in (tables_shape tables.now) filing.now (node_shape node.now) }
    ensures within { IfSome result IsWithin }
{
    match &node.form {
        Expr::Name(_) => variable_in(tables, filing, &node.note),
        Expr::Paren(inner) => place_in(tables, filing, inner),
        Expr::Probe(ExprProbe::Use(_), inner) => place_in(tables, filing, inner),
        Expr::Probe(ExprProbe::Def(_), inner) => place_in(tables, filing, inner),
        Expr::Index(first, second) => {
            if has_array(first) {
                let at = place_in(tables, filing, first);
                element_in(tables, type_at(first), constant(second), at)
            } else {
                let at = place_in(tables, filing, second);
                element_in(tables, type_at(second), constant(first), at)
            }
        }
        Expr::Member(holder, name, _) => {
            let at = place_in(tables, filing, holder);
            field_in(tables, name, type_at(holder), at)
        }
        Expr::Probe(ExprProbe::Block(_) | ExprProbe::Test(_) | ExprProbe::Select(_, _), _) => None,
        Expr::Number(_)
        | Expr::Char(_)
        | Expr::Str(_)
        | Expr::Arrow(_, _, _)
        | Expr::Call(_, _)
        | Expr::Unary(_, _)
        | Expr::Step(_, _)
        | Expr::SizeOf(_)
        | Expr::SizeOfType(_)
        | Expr::Cast(_, _)
        | Expr::Binary(_, _, _)
        | Expr::And(_, _)
        | Expr::Or(_, _)
        | Expr::Cond(_, _, _)
        | Expr::Assign(_, _, _)
        | Expr::Comma(_, _) => None,
    }
}

/// A pointer to the whole of a variable of file scope; None where it is none, or has more cells than any object.
pub fn variable_in(tables: &Tables, filing: &Filing, note: &Note) -> Option<Pointer>
    ensures place { result ≡ variable_in (tables_shape tables.now) filing.now (note_shape note.now) }
    ensures within { IfSome result IsWithin }
{
    match note {
        Note::Typed(kind, Some(number)) => object_in(cells(tables, kind), filing.instance(*number)),
        _ => None,
    }
}

fn object_in(count: u32, instance: Option<u64>) -> Option<Pointer>
    ensures place { (n : ℕ) → count ≡ kept n → result ≡ object_in n instance }
    ensures within { IfSome result IsWithin }
{
    let instance = instance?;
    if count > 1_048_576 {
        return None;
    }
    Some(Pointer {
        instance,
        base: 0,
        length: 1,
        size: count,
        index: 0,
    })
}

/// A pointer to an element of the array at that place (C89, 3.3.2.1).
pub fn element_in(
    tables: &Tables,
    kind: Option<&CType>,
    index: Constant,
    at: Option<Pointer>,
) -> Option<Pointer>
    requires { IfSome at IsWithin }
    ensures place { result ≡ element_in (tables_shape tables.now) (type_behind kind.entry) index at }
    ensures within { IfSome result IsWithin }
{
    match kind {
        Some(CType::Array(of, length)) => {
            let at = at?;
            let index = index_below(index, *length)?;
            part_of(at, 0, *length, cells(tables, of), index)
        }
        Some(CType::Int(_) | CType::Pointer(_) | CType::Struct(_) | CType::Void) | None => None,
    }
}

// The index that a constant is, where it is one below the length.
fn index_below(index: Constant, length: u32) -> Option<u32>
    ensures below { IfSome result (λ n. n < length) }
    ensures value { result ≡ index_below index length }
{
    match index {
        Constant::Known(_, value) => {
            if 0 <= value && value < i128::from(length) {
                Some(value as u32)
            } else {
                None
            }
        }
        _ => None,
    }
}

// A pointer to a field of the structure at that place (C89, 3.3.2.3).
fn field_in(
    tables: &Tables,
    name: &Text,
    kind: Option<&CType>,
    at: Option<Pointer>,
) -> Option<Pointer>
    requires { IfSome at IsWithin }
    ensures place { result ≡ field_in (tables_shape tables.now) (part_in (tables_shape tables.now) name.now (type_behind kind.entry)) at }
    ensures within { IfSome result IsWithin }
{
    let part = part_in(tables, name.bytes(), kind?)?;
    part_of(at?, part.offset, 1, cells(tables, part.kind), 0)
}

// A pointer to one of so many elements of that size, which lie in the element at that place.
fn part_of(at: Pointer, offset: u32, length: u32, size: u32, index: u32) -> Option<Pointer>
    requires within { IsWithin at }
    requires inside { index < length }
    ensures place { (o n : ℕ) → offset ≡ kept o → size ≡ kept n → result ≡ part_of at o length n index }
    ensures within { IfSome result IsWithin }
{
    let end = u64::from(offset) + u64::from(length) * u64::from(size);
    if offset > 1_048_576 || size > 1_048_576 || end > u64::from(at.size) {
        return None;
    }
    let base = u64::from(at.base) + u64::from(at.index) * u64::from(at.size) + u64::from(offset);
    Some(Pointer {
        instance: at.instance,
        base: base as u32,
        length,
        size,
        index,
    })
}

fn has_array(node: &Node) -> bool
    ensures { result ≡ has_array (node_shape node.now) }
{
    matches!(&node.note, Note::Typed(CType::Array(_, _), _))
}

// The type of an expression, where it is noted.
fn type_at(node: &Node) -> Option<&CType>
    ensures { type_behind result ≡ type_at (node_shape node.now) }
{
    match &node.note {
        Note::Typed(kind, _) | Note::Known(kind, _) => Some(kind),
        Note::Bare => None,
    }
}
