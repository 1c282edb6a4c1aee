//! Which nodes are direct.

ghost use Rattle.std.specs.Prelude.{◌≡◌, true, false, if◌then◌else◌};
ghost use Rattle.c_eval_direct.specs.Direct.{is_copied, is_direct, is_direct_place};
ghost use Rattle.c_eval_once.specs.Forms.{is_address, is_deref, is_of_place, is_valued, is_variable, is_name};

use c_syntax::tree::{CType, Expr, ExprProbe, Node, Note, UnaryOp};

/// How many levels a direct expression has at most.
pub const LEVELS: u32 = 12;

/// The node is direct, with at most so many levels.
#[cycle(forms)]
#[inline(always)]
pub fn is_direct(node: &Node, levels: u32) -> bool
    ensures { result ≡ true → is_direct node.now.note node.now.form ≡ true }
{
    match &node.form {
        Expr::Number(_) | Expr::Char(_) | Expr::Str(_) | Expr::SizeOf(_) | Expr::SizeOfType(_) => {
            true
        }
        Expr::Name(_) => is_name(&node.note),
        _ => is_composed(node, levels),
    }
}

// The same of a node with operands.
#[cycle(forms)]
fn is_composed(node: &Node, levels: u32) -> bool
    ensures { result ≡ true → is_direct node.now.note node.now.form ≡ true }
{
    match &node.form {
        Expr::Paren(a) => levels > 0 && is_direct(a, levels - 1),
        Expr::Binary(_, a, b) => levels > 0 && is_direct(a, levels - 1) && is_direct(b, levels - 1),
        Expr::And(a, b) => levels > 0 && is_direct(a, levels - 1) && is_direct(b, levels - 1),
        Expr::Or(a, b) => levels > 0 && is_direct(a, levels - 1) && is_direct(b, levels - 1),
        Expr::Unary(op, a) => {
            levels > 0 && !is_address(*op) && is_valued(&node.note) && is_direct(a, levels - 1)
        }
        Expr::Index(a, b) => {
            levels > 0
                && is_valued(&node.note)
                && is_direct(a, levels - 1)
                && is_direct(b, levels - 1)
        }
        Expr::Assign(_, a, b) => {
            levels > 0
                && !is_copied(&a.note)
                && is_direct_place(a, levels - 1)
                && is_direct(b, levels - 1)
        }
        Expr::Step(_, a) => levels > 0 && is_direct_place(a, levels - 1),
        Expr::Probe(probe, a) => levels > 0 && is_direct_probe(probe, &node.note, a, levels - 1),
        _ => false,
    }
}

// The probe and what is in it are direct, with at most so many levels.
#[cycle(forms)]
fn is_direct_probe(probe: &ExprProbe, note: &Note, a: &Node, levels: u32) -> bool
    ensures { result ≡ true → (if is_of_place probe.now then if is_valued note.now then is_direct_place a.now.note a.now.form else false else is_direct a.now.note a.now.form) ≡ true }
{
    match probe {
        ExprProbe::Use(_) | ExprProbe::Def(_) => is_valued(note) && is_direct_place(a, levels),
        ExprProbe::Block(_) | ExprProbe::Test(_) | ExprProbe::Select(_, _) => is_direct(a, levels),
    }
}

// The node is a place, and direct, with at most so many levels.
#[cycle(forms)]
fn is_direct_place(node: &Node, levels: u32) -> bool
    ensures { result ≡ true → is_direct_place node.now.note node.now.form ≡ true }
{
    match &node.form {
        Expr::Name(_) => is_variable(&node.note),
        Expr::Index(a, b) => levels > 0 && is_direct(a, levels - 1) && is_direct(b, levels - 1),
        Expr::Unary(op, a) => levels > 0 && is_deref(*op) && is_direct(a, levels - 1),
        Expr::Probe(probe, a) => levels > 0 && is_of_place(probe) && is_direct_place(a, levels - 1),
        _ => false,
    }
}

#[inline(always)]
fn is_address(op: UnaryOp) -> bool
    ensures { result ≡ is_address op }
{
    matches!(op, UnaryOp::AddressOf)
}

#[inline(always)]
pub fn is_deref(op: UnaryOp) -> bool
    ensures { result ≡ is_deref op }
{
    matches!(op, UnaryOp::Deref)
}

// The note of a variable.
#[inline(always)]
fn is_variable(note: &Note) -> bool
    ensures { result ≡ is_variable note.now }
{
    matches!(note, Note::Typed(_, Some(_)))
}

// The note of a name whose value is taken at once.
#[inline(always)]
fn is_name(note: &Note) -> bool
    ensures { result ≡ is_name note.now }
{
    match note {
        Note::Typed(CType::Struct(_) | CType::Void, Some(_)) => false,
        _ => true,
    }
}

// The note of a scalar or an array.
#[inline(always)]
fn is_valued(note: &Note) -> bool
    ensures { result ≡ is_valued note.now }
{
    matches!(
        note,
        Note::Typed(CType::Int(_) | CType::Pointer(_) | CType::Array(_, _), _)
    )
}

// The note of a structure.
#[inline(always)]
fn is_copied(note: &Note) -> bool
    ensures { result ≡ is_copied note.now }
{
    matches!(note, Note::Typed(CType::Struct(_), _))
}

// The probe stands round a place.
#[inline(always)]
fn is_of_place(probe: &ExprProbe) -> bool
    ensures { result ≡ is_of_place probe.now }
{
    matches!(probe, ExprProbe::Use(_) | ExprProbe::Def(_))
}
