//! Expressions, made of what stands in them.

ghost use Rattle.std.specs.Prelude.{◌≡◌, ◌≤◌, List, [], ◌∷◌, ◌++◌, Some, None, IfOk, OnOk, IsErrOf};
ghost use Rattle.c_syntax.specs.Shape.{bare, number, char, str, name, node, leaf, paren, call, prefix, size_of_type, cast, suffix, two, choose, probe, index, field, behind, simple, select};
ghost use Rattle.c_syntax.specs.View.{node_shape, node_list, expr_shape, type_shape, probe_shape};
ghost use Rattle.c_grammar.specs.ExprReader.{place_of};
ghost use Rattle.c_grammar.specs.CodeView.{step_of, prefix_of, infix_of, access_of, probing_of};

use crate::look::{Access, Infix, Prefix, Probing, Step, Stop};
use c_base::place::Pos;
use c_syntax::text::Text;
use c_syntax::tree::{Expr, ExprProbe, Node, Note, StepOp, TypeName};
use std::alloc::Global;

/// A copy of a text.
pub fn copied(alloc: Global, text: &Text) -> Result<Text, Stop>
    ensures ok { IfOk result (λ t. t ≡ text.now) }
    ensures err { IsErrOf result Stop.Syntax → ⊥ }
{
    match text.copy(alloc) {
        Ok(copy) => Ok(copy),
        Err(_) => Err(Stop::NoMemory),
    }
}

/// Appends to a list.
pub fn put<T: Drop>(list: &mut Vec<T>, item: T) -> Result<(), Stop>
    ensures ok { OnOk result (list.new.items ≡ list.old.items ++ item ∷ []) }
    ensures err { IsErrOf result Stop.Syntax → ⊥ }
{
    match list.push(item) {
        Ok(()) => Ok(()),
        Err(_) => Err(Stop::NoMemory),
    }
}

/// Appends what stands in a box to a list.
pub fn put_inner<T: Drop>(list: &mut Vec<T>, item: Box<T>) -> Result<(), Stop>
    ensures ok { OnOk result (list.new.items ≡ list.old.items ++ item.value ∷ []) }
    ensures err { IsErrOf result Stop.Syntax → ⊥ }
{
    put(list, Box::into_inner(item))
}

/// A value in a box.
pub fn boxed<T: Drop>(alloc: Global, value: T) -> Result<Box<T>, Stop>
    ensures ok { IfOk result (λ b. b.value ≡ value) }
    ensures err { IsErrOf result Stop.Syntax → ⊥ }
{
    match Box::new(alloc, value) {
        Ok(b) => Ok(b),
        Err(_) => Err(Stop::NoMemory),
    }
}

// An expression of this form, of which nothing is known yet.
fn made(alloc: Global, pos: Pos, op: Pos, form: Expr) -> Result<Box<Node>, Stop>
    ensures ok { IfOk result (λ n. node_shape n.value ≡ node pos op bare (expr_shape form)) }
    ensures err { IsErrOf result Stop.Syntax → ⊥ }
{
    boxed(
        alloc,
        Node {
            pos,
            op,
            note: Note::Bare,
            form,
        },
    )
}

/// A number.
pub fn number_node(alloc: Global, pos: Pos, text: &Text) -> Result<Box<Node>, Stop>
    ensures ok { IfOk result (λ n. node_shape n.value ≡ node pos pos bare (leaf (number text.now))) }
    ensures err { IsErrOf result Stop.Syntax → ⊥ }
{
    made(alloc, pos, pos, Expr::Number(copied(alloc, text)?))
}

/// A character constant.
pub fn char_node(alloc: Global, pos: Pos, byte: u8) -> Result<Box<Node>, Stop>
    ensures ok { IfOk result (λ n. node_shape n.value ≡ node pos pos bare (leaf (char byte))) }
    ensures err { IsErrOf result Stop.Syntax → ⊥ }
{
    made(alloc, pos, pos, Expr::Char(byte))
}

/// A string.
pub fn string_node(alloc: Global, pos: Pos, text: &Text) -> Result<Box<Node>, Stop>
    ensures ok { IfOk result (λ n. node_shape n.value ≡ node pos pos bare (leaf (str text.now))) }
    ensures err { IsErrOf result Stop.Syntax → ⊥ }
{
    made(alloc, pos, pos, Expr::Str(copied(alloc, text)?))
}

/// A name.
pub fn name_node(alloc: Global, pos: Pos, text: &Text) -> Result<Box<Node>, Stop>
    ensures ok { IfOk result (λ n. node_shape n.value ≡ node pos pos bare (leaf (name text.now))) }
    ensures err { IsErrOf result Stop.Syntax → ⊥ }
{
    made(alloc, pos, pos, Expr::Name(copied(alloc, text)?))
}

fn called(name: Text, args: Vec<Node>) -> Expr
    ensures { expr_shape result ≡ call name (node_list args.items) }
{
    Expr::Call(name, args)
}

/// A call.
pub fn call_node(alloc: Global, pos: Pos, name: &Text, args: Vec<Node>) -> Result<Box<Node>, Stop>
    ensures ok { IfOk result (λ n. node_shape n.value ≡ node pos pos bare (call name.now (node_list args.items))) }
    ensures err { IsErrOf result Stop.Syntax → ⊥ }
{
    made(alloc, pos, pos, called(copied(alloc, name)?, args))
}

/// An expression in parentheses.
pub fn paren_node(alloc: Global, pos: Pos, inner: Box<Node>) -> Result<Box<Node>, Stop>
    ensures ok { IfOk result (λ n. node_shape n.value ≡ node pos pos bare (paren (node_shape inner.value))) }
    ensures err { IsErrOf result Stop.Syntax → ⊥ }
{
    made(alloc, pos, pos, Expr::Paren(inner))
}

/// An operator in front of its operand.
pub fn prefix_node(alloc: Global, pos: Pos, op: Prefix, inner: Box<Node>) -> Result<Box<Node>, Stop>
    ensures ok { IfOk result (λ n. node_shape n.value ≡ node pos pos bare (prefix (prefix_of op) (node_shape inner.value))) }
    ensures err { IsErrOf result Stop.Syntax → ⊥ }
{
    let form = match op {
        Prefix::Unary(op) => Expr::Unary(op, inner),
        Prefix::Before(Step::Up) => Expr::Step(StepOp::PreInc, inner),
        Prefix::Before(Step::Down) => Expr::Step(StepOp::PreDec, inner),
        Prefix::SizeOf => Expr::SizeOf(inner),
    };
    made(alloc, pos, pos, form)
}

/// The size of a type.
pub fn size_node(alloc: Global, pos: Pos, type_name: TypeName) -> Result<Box<Node>, Stop>
    ensures ok { IfOk result (λ n. node_shape n.value ≡ node pos pos bare (size_of_type (type_shape type_name))) }
    ensures err { IsErrOf result Stop.Syntax → ⊥ }
{
    made(alloc, pos, pos, Expr::SizeOfType(type_name))
}

/// A cast.
pub fn cast_node(
    alloc: Global,
    pos: Pos,
    type_name: TypeName,
    inner: Box<Node>,
) -> Result<Box<Node>, Stop>
    ensures ok { IfOk result (λ n. node_shape n.value ≡ node pos pos bare (cast (type_shape type_name) (node_shape inner.value))) }
    ensures err { IsErrOf result Stop.Syntax → ⊥ }
{
    made(alloc, pos, pos, Expr::Cast(type_name, inner))
}

/// An operator between two operands.
pub fn infix_node(
    alloc: Global,
    op_pos: Pos,
    op: Infix,
    left: Box<Node>,
    right: Box<Node>,
) -> Result<Box<Node>, Stop>
    ensures ok { IfOk result (λ n. node_shape n.value ≡ node (place_of (node_shape left.value)) op_pos bare (two (infix_of op) (node_shape left.value) (node_shape right.value))) }
    ensures err { IsErrOf result Stop.Syntax → ⊥ }
{
    let pos = left.pos;
    let form = match op {
        Infix::Plain(op) => Expr::Binary(op, left, right),
        Infix::And => Expr::And(left, right),
        Infix::Or => Expr::Or(left, right),
        Infix::Assign(op) => Expr::Assign(op, left, right),
        Infix::Comma => Expr::Comma(left, right),
    };
    made(alloc, pos, op_pos, form)
}

/// A choice.
pub fn choice_node(
    alloc: Global,
    op_pos: Pos,
    test: Box<Node>,
    yes: Box<Node>,
    no: Box<Node>,
) -> Result<Box<Node>, Stop>
    ensures ok { IfOk result (λ n. node_shape n.value ≡ node (place_of (node_shape test.value)) op_pos bare (choose (node_shape test.value) (node_shape yes.value) (node_shape no.value))) }
    ensures err { IsErrOf result Stop.Syntax → ⊥ }
{
    made(alloc, test.pos, op_pos, Expr::Cond(test, yes, no))
}

/// An element.
pub fn index_node(
    alloc: Global,
    op_pos: Pos,
    left: Box<Node>,
    inner: Box<Node>,
) -> Result<Box<Node>, Stop>
    ensures ok { IfOk result (λ n. node_shape n.value ≡ node (place_of (node_shape left.value)) op_pos bare (suffix (node_shape left.value) (index (node_shape inner.value)))) }
    ensures err { IsErrOf result Stop.Syntax → ⊥ }
{
    made(alloc, left.pos, op_pos, Expr::Index(left, inner))
}

/// A field.
pub fn field_node(
    alloc: Global,
    op_pos: Pos,
    access: Access,
    left: Box<Node>,
    name: &Text,
    name_pos: Pos,
) -> Result<Box<Node>, Stop>
    ensures ok { IfOk result (λ n. node_shape n.value ≡ node (place_of (node_shape left.value)) op_pos bare (suffix (node_shape left.value) (field (access_of access) name.now name_pos))) }
    ensures err { IsErrOf result Stop.Syntax → ⊥ }
{
    let pos = left.pos;
    let name = copied(alloc, name)?;
    let form = match access {
        Access::Dot => Expr::Member(left, name, name_pos),
        Access::Arrow => Expr::Arrow(left, name, name_pos),
    };
    made(alloc, pos, op_pos, form)
}

/// A step behind its operand.
pub fn step_node(alloc: Global, op_pos: Pos, step: Step, left: Box<Node>) -> Result<Box<Node>, Stop>
    ensures ok { IfOk result (λ n. node_shape n.value ≡ node (place_of (node_shape left.value)) op_pos bare (suffix (node_shape left.value) (behind (step_of step)))) }
    ensures err { IsErrOf result Stop.Syntax → ⊥ }
{
    let pos = left.pos;
    let form = match step {
        Step::Up => Expr::Step(StepOp::PostInc, left),
        Step::Down => Expr::Step(StepOp::PostDec, left),
    };
    made(alloc, pos, op_pos, form)
}

// A probe with this number and no case constants.
fn simple_probe(alloc: Global, probing: Probing, number: &Text) -> Result<ExprProbe, Stop>
    ensures ok { IfOk result (λ p. probe_shape p ≡ simple (probing_of probing) number.now) }
    ensures err { IsErrOf result Stop.Syntax → ⊥ }
{
    let number = copied(alloc, number)?;
    Ok(match probing {
        Probing::Block => ExprProbe::Block(number),
        Probing::Test => ExprProbe::Test(number),
        Probing::Use => ExprProbe::Use(number),
        Probing::Def => ExprProbe::Def(number),
    })
}

fn selecting(number: Text, cases: Vec<Node>) -> ExprProbe
    ensures { probe_shape result ≡ select number (node_list cases.items) }
{
    ExprProbe::Select(number, cases)
}

/// A probe with no case constants round an expression.
pub fn simple_node(
    alloc: Global,
    pos: Pos,
    probing: Probing,
    number: &Text,
    inner: Box<Node>,
) -> Result<Box<Node>, Stop>
    ensures ok { IfOk result (λ n. node_shape n.value ≡ node pos pos bare (probe (simple (probing_of probing) number.now) (node_shape inner.value))) }
    ensures err { IsErrOf result Stop.Syntax → ⊥ }
{
    let form = simple_probe(alloc, probing, number)?;
    made(alloc, pos, pos, Expr::Probe(form, inner))
}

/// The probe of a `switch`, with its case constants, round an expression.
pub fn select_node(
    alloc: Global,
    pos: Pos,
    number: &Text,
    cases: Vec<Node>,
    inner: Box<Node>,
) -> Result<Box<Node>, Stop>
    ensures ok { IfOk result (λ n. node_shape n.value ≡ node pos pos bare (probe (select number.now (node_list cases.items)) (node_shape inner.value))) }
    ensures err { IsErrOf result Stop.Syntax → ⊥ }
{
    let number = copied(alloc, number)?;
    made(
        alloc,
        pos,
        pos,
        Expr::Probe(selecting(number, cases), inner),
    )
}
