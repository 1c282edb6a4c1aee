//! The constants of a select probe.

ghost use Rattle.std.specs.Prelude.{◌≡◌, None, IfOk};
ghost use Rattle.c_syntax.specs.Shape.{int, typed, unary, node, prefix};
ghost use Rattle.c_syntax.specs.View.{node_shape, node_list};
ghost use Rattle.c_type_rules.specs.Kinds.{promote};
ghost use Rattle.c_walk.specs.Walked.{Walked};
ghost use Rattle.probe_rules.specs.Marks.{decimal_kind, number_at, constant_at, constants_at, in_select};
ghost use Rattle.probe_expr.specs.Numbers.{counts};

use crate::marks::round_value;
use crate::numbers::{Numbers, decimal_text};
use c_base::place::{IntKind, NoMemory, Pos};
use c_copy::build::{new_node, new_select};
use c_copy::parts::put_inner;
use c_syntax::tree::{CType, Expr, Node, Note, UnaryOp};
use c_type_rules::kinds::{Radix, Suffix, constant_kind, promoted};
use std::alloc::Global;

// The type of a number without a suffix.
fn decimal_kind(number: u128) -> IntKind
    ensures { result ≡ decimal_kind number }
{
    let suffix = Suffix {
        unsigned: false,
        long: false,
    };
    if number <= 0xffff_ffff_ffff_ffff {
        constant_kind(number as u64, Radix::Decimal, suffix)
    } else {
        IntKind::ULong
    }
}

fn number_at(alloc: Global, pos: Pos, op: Pos, number: u128) -> Result<Box<Node>, NoMemory>
    ensures { IfOk result (λ n. node_shape n.value ≡ number_at pos op number) }
{
    let text = decimal_text(alloc, number)?;
    let note = Note::Typed(CType::Int(decimal_kind(number)), None);
    new_node(alloc, pos, op, note, Expr::Number(text))
}

// Behind a minus.
fn negative_at(alloc: Global, pos: Pos, op: Pos, number: u128) -> Result<Box<Node>, NoMemory>
    ensures { IfOk result (λ n. node_shape n.value ≡ node pos op (typed (int (promote (decimal_kind number))) None) (prefix (unary UnaryOp.Minus) (number_at pos op number))) }
{
    let inner = number_at(alloc, pos, op, number)?;
    let note = Note::Typed(CType::Int(promoted(decimal_kind(number))), None);
    new_node(alloc, pos, op, note, Expr::Unary(UnaryOp::Minus, inner))
}

fn constant_at(alloc: Global, pos: Pos, op: Pos, value: i128) -> Result<Box<Node>, NoMemory>
    ensures { IfOk result (λ n. node_shape n.value ≡ constant_at pos op value) }
{
    if value < 0 {
        let made = negative_at(alloc, pos, op, value.unsigned_abs())?;
        Ok(made)
    } else {
        let made = number_at(alloc, pos, op, value as u128)?;
        Ok(made)
    }
}

#[tactic(auto, using(std::proofs::lemmas::Grind::common_steps, crate::proofs::Lists::onto_push, crate::proofs::Lists::onto_none))]
fn constants_at(alloc: Global, pos: Pos, op: Pos, values: &[i128]) -> Result<Vec<Node>, NoMemory>
    ensures { IfOk result (λ v. node_list v.items ≡ constants_at pos op values.now) }
{
    let mut constants = Vec::new(alloc);
    for value in values {
        let made = constant_at(alloc, pos, op, *value)?;
        put_inner(&mut constants, made)?;
    }
    Ok(constants)
}

/// What a switch chooses by, with its case constants.
pub fn in_select(
    alloc: Global,
    numbers: Numbers,
    values: &[i128],
    node: Box<Node>,
) -> Result<Box<Node>, NoMemory>
    ensures { IfOk result (λ n. (w : Walked) → counts w ≡ numbers → node_shape n.value ≡ in_select values.now w (node_shape node.value)) }
{
    let number = numbers.decision_text(alloc)?;
    let constants = constants_at(alloc, node.pos, node.op, values)?;
    let made = round_value(alloc, new_select(number, constants), node)?;
    Ok(made)
}
