// An initialiser that is one expression.

ghost use Rattle.std.specs.Prelude.{◌≡◌, OnOk, IfOk};
ghost use Rattle.c_syntax.specs.Shape.{one};
ghost use Rattle.c_syntax.specs.View.{expr_shape, node_shape};
ghost use Rattle.c_tree.specs.Sorts.{pos_in};
ghost use Rattle.c_tree.specs.Typing.{type_node};
ghost use Rattle.c_tree.specs.Operators.{hushed};
ghost use Rattle.c_tree.specs.Initialisers.{chars_of, filled, string_init, fits, value_init, type_init};
ghost use Rattle.c_checker.specs.CheckerView.{state_of};
ghost use Rattle.c_checker.specs.RulingView.{ruled_of};
ghost use Rattle.c_checker.specs.SortView.{sort_of};
ghost use Rattle.c_types_decl.specs.SlotsView.{type_behind};
ghost use Rattle.c_types_decl.specs.ValueView.{initialises};

use c_base::place::{IntKind, NoMemory};
use c_checker::checker::Checker;
use c_checker::ruling::{Ruling, allowed_if, by};
use c_checker::sort::Sort;
use c_constants::places;
use c_syntax::tree::{CType, Expr, Node};
use c_tree::complaints::{NOT_CONSTANT, WRONG_TYPE};
use c_type_rules::kinds::copy;
use c_type_rules::storing;
use c_types_expr::nodes::type_node;
use std::alloc::Global;

/// Types an expression in place that initialises an object of that type, if it is known; `constant` says that it must be
/// a constant.
pub fn type_one(
    checker: &mut Checker,
    constant: bool,
    kind: Option<&CType>,
    node: &mut Node,
) -> Result<(), NoMemory>
    ensures tree { OnOk result (one (node_shape node.new) ≡ (type_init constant (type_behind kind.entry) (one (node_shape node.old)) (state_of checker.old)).init) }
    ensures state { OnOk result (state_of checker.new ≡ (type_init constant (type_behind kind.entry) (one (node_shape node.old)) (state_of checker.old)).state) }
{
    match filled(kind, &node.form) {
        Some((bytes, elements)) => type_string(checker, bytes, elements, node),
        None => type_value(checker, constant, kind, node),
    }
}

// The bytes of a string by itself, and the elements of the array of characters that it initialises.
fn filled(kind: Option<&CType>, form: &Expr) -> Option<(u32, u32)>
    ensures { result ≡ filled (chars_of (type_behind kind.entry)) (expr_shape form.now) }
{
    match (chars_of(kind), form) {
        (Some(elements), Expr::Str(text)) => Some((text.len(), elements)),
        _ => None,
    }
}

// The elements of an array of characters.
fn chars_of(kind: Option<&CType>) -> Option<u32>
    ensures { result ≡ chars_of (type_behind kind.entry) }
{
    match kind {
        Some(CType::Array(of, length)) => {
            if matches!(&**of, CType::Int(IntKind::Char | IntKind::UChar)) {
                Some(*length)
            } else {
                None
            }
        }
        _ => None,
    }
}

// A string by itself needs no object; it may leave out its zero (C89, 3.5.7).
fn type_string(
    checker: &mut Checker,
    bytes: u32,
    elements: u32,
    node: &mut Node,
) -> Result<(), NoMemory>
    ensures tree { OnOk result (node_shape node.new ≡ (type_node (node_shape node.old) (hushed (state_of checker.old))).node) }
    ensures state { OnOk result (state_of checker.new ≡ (string_init bytes elements (pos_in (node_shape node.old)) (state_of checker.old).at (state_of checker.old).quiet (type_node (node_shape node.old) (hushed (state_of checker.old)))).state) }
{
    let pos = node.pos;
    let token = checker.at;
    let quiet = checker.quiet;
    checker.hush();
    type_node(checker, node)?;
    checker.hear(quiet);
    let ruling = allowed_if(bytes <= elements, WRONG_TYPE, CType::Int(IntKind::Char));
    checker.rule(ruling, token, pos)?;
    Ok(())
}

// A value fits the object, and is a constant where it must be one.
#[tactic(auto, using(crate::proofs::Demanded::constant_demanded))]
fn type_value(
    checker: &mut Checker,
    constant: bool,
    kind: Option<&CType>,
    node: &mut Node,
) -> Result<(), NoMemory>
    ensures tree { OnOk result (node_shape node.new ≡ (type_node (node_shape node.old) (state_of checker.old)).node) }
    ensures state { OnOk result (state_of checker.new ≡ (value_init constant (type_behind kind.entry) (state_of checker.old).at (pos_in (node_shape node.old)) (type_node (node_shape node.old) (state_of checker.old))).state) }
{
    let pos = node.pos;
    let token = checker.at;
    let a = type_node(checker, node)?;
    let initialises = !constant || initialises(&a);
    let ruling = fits(kind, a, checker.alloc)?;
    checker.rule(ruling, token, pos)?;
    checker.demand(initialises, NOT_CONSTANT, token, pos)
}

// Whether it may stand outside of functions, and in lists (C89, 3.4); nothing is demanded where its type isn't known.
fn initialises(a: &Sort) -> bool
    ensures { result ≡ initialises (sort_of a.now) }
{
    match &a.kind {
        None => true,
        Some(kind) => places::initialises(kind, a.constant),
    }
}

// The value fits into an object of that type, if it is known.
fn fits(kind: Option<&CType>, a: Sort, alloc: Global) -> Result<Ruling, NoMemory>
    ensures { IfOk result (λ r. ruled_of r ≡ fits (type_behind kind.entry) (sort_of a)) }
{
    match kind {
        None => Ok(Ruling::Unsettled),
        Some(kind) => {
            let kind = copy(kind, alloc)?;
            Ok(by(WRONG_TYPE, storing::fits(Some(kind), a.operand())))
        }
    }
}
