//! What is done with the value of an operand that is a place.

ghost use Rattle.std.specs.Prelude.{◌≡◌};
ghost use Rattle.c_syntax.specs.View.{node_shape, note_shape};
ghost use Rattle.c_walk.specs.Walked.{is_read, is_used, is_written, operand_taken, left_taken, right_taken};

use crate::around::Taken;
use crate::places::{has_scalar, has_structure};
use c_syntax::tree::{BinaryOp, Node, UnaryOp};

/// The operand of `&` has its address taken (C89, 3.3.3.2), that of another operator is read.
pub fn operand_taken(op: UnaryOp) -> Taken
    ensures { result ≡ operand_taken op }
{
    match op {
        UnaryOp::AddressOf => Taken::Addressed,
        _ => Taken::Read,
    }
}

/// To the left of `=` a place is written, to the left of another assignment it is read too (C89, 3.3.16).
pub fn left_taken(op: Option<BinaryOp>) -> Taken
    ensures { result ≡ left_taken op }
{
    match op {
        None => Taken::Written,
        Some(_) => Taken::Changed,
    }
}

/// To the right of `=` a structure is copied, where one stands to the left; anything else is read.
pub fn right_taken(op: Option<BinaryOp>, left: &Node) -> Taken
    ensures { result ≡ right_taken op (node_shape left.now) }
{
    match op {
        None => {
            if has_structure(&left.note) {
                Taken::Copied
            } else {
                Taken::Read
            }
        }
        Some(_) => Taken::Read,
    }
}

fn is_read(taken: Taken) -> bool
    ensures { result ≡ is_read taken }
{
    matches!(taken, Taken::Read | Taken::Changed)
}

/// Whether a place of which that is done is a definition.
pub fn is_written(taken: Taken) -> bool
    ensures { result ≡ is_written taken }
{
    matches!(taken, Taken::Written | Taken::Changed)
}

/// Whether a place of which that is done is a use: a scalar that is read, or a structure that is copied.
pub fn is_used(taken: Taken, node: &Node) -> bool
    ensures { result ≡ is_used taken (note_shape node.now.note) }
{
    match taken {
        Taken::Copied => has_structure(&node.note),
        _ => is_read(taken) && has_scalar(&node.note),
    }
}
