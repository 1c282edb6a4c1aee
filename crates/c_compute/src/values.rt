// What constant initialisers give (C89, 3.4).

ghost use Rattle.std.specs.Prelude.{◌≡◌, option_map};
ghost use Rattle.c_syntax.specs.View.{node_shape, note_shape};
ghost use Rattle.c_store.specs.declared.value.Value.TheVariants.{At};
ghost use Rattle.c_tables.specs.Tables.{tables_shape};
ghost use Rattle.c_meaning.specs.Constants.{integer_in, named_value, literal_in, value_in};
ghost use Rattle.c_compute.specs.Kinds.{text_behind, string_in};

use crate::constants::constant;
use crate::filing::Filing;
use crate::places::{element_in, place_in, variable_in};
use c_base::place::IntKind;
use c_constants::constants::Constant;
use c_store::value::{Pointer, Value};
use c_syntax::text::Text;
use c_syntax::tree::{CType, Expr, Node, Note, UnaryOp};
use c_tables::tables::Tables;

/// The value of a constant initialiser; None where it is none.
pub fn value_in(tables: &Tables, filing: &Filing, node: &Node) -> Option<Value>
    ensures { result ≡ value_in (tables_shape tables.now) filing.now (node_shape node.now) }
{
    match &node.form {
        Expr::Unary(UnaryOp::AddressOf, inner) => address_of(place_in(tables, filing, inner)),
        Expr::Str(text) => literal_in(&node.note, text),
        Expr::Name(_) => named_value(tables, filing, &node.note),
        Expr::Paren(inner) => value_in(tables, filing, inner),
        Expr::Unary(
            UnaryOp::Deref | UnaryOp::Plus | UnaryOp::Minus | UnaryOp::Flip | UnaryOp::Not,
            _,
        ) => integer_in(constant(node)),
        Expr::Number(_)
        | Expr::Char(_)
        | Expr::Index(_, _)
        | Expr::Member(_, _, _)
        | Expr::Arrow(_, _, _)
        | Expr::Call(_, _)
        | Expr::Step(_, _)
        | Expr::SizeOf(_)
        | Expr::SizeOfType(_)
        | Expr::Cast(_, _)
        | Expr::Binary(_, _, _)
        | Expr::And(_, _)
        | Expr::Or(_, _)
        | Expr::Cond(_, _, _)
        | Expr::Assign(_, _, _)
        | Expr::Comma(_, _)
        | Expr::Probe(_, _) => integer_in(constant(node)),
    }
}

/// The string that an expression is.
pub fn string_in(node: &Node) -> Option<&Text>
    ensures { text_behind result ≡ string_in (node_shape node.now) }
{
    match &node.form {
        Expr::Str(text) => Some(text),
        Expr::Number(_)
        | Expr::Char(_)
        | Expr::Name(_)
        | Expr::Paren(_)
        | Expr::Index(_, _)
        | Expr::Member(_, _, _)
        | Expr::Arrow(_, _, _)
        | Expr::Call(_, _)
        | Expr::Unary(_, _)
        | Expr::Step(_, _)
        | Expr::SizeOf(_)
        | Expr::SizeOfType(_)
        | Expr::Cast(_, _)
        | Expr::Binary(_, _, _)
        | Expr::And(_, _)
        | Expr::Or(_, _)
        | Expr::Cond(_, _, _)
        | Expr::Assign(_, _, _)
        | Expr::Comma(_, _)
        | Expr::Probe(_, _) => None,
    }
}

fn address_of(at: Option<Pointer>) -> Option<Value>
    ensures { result ≡ option_map At at }
{
    match at {
        None => None,
        Some(at) => Some(Value::At(at)),
    }
}

fn integer_in(constant: Constant) -> Option<Value>
    ensures { result ≡ integer_in constant }
{
    match constant {
        Constant::Known(_, value) => Some(Value::Int(value)),
        _ => None,
    }
}

// A string is a pointer to the first of its chars.
fn literal_in(note: &Note, text: &Text) -> Option<Value>
    ensures { result ≡ literal_in (note_shape note.now) text.now }
{
    match note {
        Note::Typed(_, Some(number)) => {
            if text.len() >= 1_048_576 {
                return None;
            }
            Some(Value::At(Pointer {
                instance: u64::from(*number),
                base: 0,
                length: text.len() + 1,
                size: 1,
                index: 0,
            }))
        }
        Note::Typed(_, None) | Note::Known(_, _) | Note::Bare => None,
    }
}

// The name of an array is a pointer to its first element (C89, 3.2.2.1), that of an enumerator its value.
fn named_value(tables: &Tables, filing: &Filing, note: &Note) -> Option<Value>
    ensures { result ≡ named_value (tables_shape tables.now) filing.now (note_shape note.now) }
{
    match note {
        Note::Typed(kind, _) => {
            let at = variable_in(tables, filing, note);
            address_of(element_in(tables, Some(kind), Constant::Known(IntKind::Int, 0), at))
        }
        Note::Known(CType::Int(_), value) => Some(Value::Int(*value)),
        Note::Known(_, _) | Note::Bare => None,
    }
}
