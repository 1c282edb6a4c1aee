// The recursion over expressions (C89, 3.3).

ghost use Rattle.std.specs.Prelude.{◌≡◌, OnOk, IfOk};
ghost use Rattle.c_syntax.specs.Shape.{paren, prefix, unary, size_of, size_of_type, suffix, field, cast, choose, probe, simple, select};
ghost use Rattle.c_syntax.specs.View.{expr_shape, probe_shape, node_shape, node_list, step_shape, type_shape};
ghost use Rattle.c_tree.specs.State.{step};
ghost use Rattle.c_tree.specs.Typing.{type_node, type_form, type_paren, type_unary, type_step, type_size, type_access, type_probe, type_select, type_type_size, type_cast, type_choice};
ghost use Rattle.c_checker.specs.CheckerView.{state_of};
ghost use Rattle.c_checker.specs.SortView.{sort_of, typing_of};
ghost use Rattle.c_checker.specs.ProbeView.{probing_of};
ghost use Rattle.c_types_expr.specs.declared.groups.Group.TheVariants.{Single, Other};
ghost use Rattle.c_types_expr.specs.Forms.{access_of, type_probing};
ghost use Rattle.c_types_expr.specs.Groups.{group_of};

use crate::groups::{Group, grouped, type_leaf};
use crate::infix::{Access, typed_access};
use crate::lists::{type_call, type_cases};
use crate::pairs::{type_operands, type_pair};
use crate::specifiers::type_name;
use c_base::place::{NoMemory, Pos};
use c_checker::checker::Checker;
use c_checker::probes::Probing;
use c_checker::sort::{Sort, Typing, note};
use c_syntax::text::Text;
use c_syntax::tree::{Expr, ExprProbe, Node, StepOp, TypeName, UnaryOp};

/// Types an expression in place, and answers what is known of it.
#[cycle(typing)]
pub fn type_node(checker: &mut Checker, node: &mut Node) -> Result<Sort, NoMemory>
    ensures tree { OnOk result (node_shape node.new ≡ (type_node (node_shape node.old) (state_of checker.old)).node) }
    ensures sort { IfOk result (λ a. sort_of a ≡ (type_node (node_shape node.old) (state_of checker.old)).sort) }
    ensures state { OnOk result (state_of checker.new ≡ (type_node (node_shape node.old) (state_of checker.old)).state) }
{
    let before = checker.complained();
    checker.enter(&node.form);
    let typing = type_form(checker, node.pos, node.op, &mut node.form)?;
    let clean = before == checker.complained();
    let Typing {
        sort,
        names,
        valued,
    } = typing;
    let constant = sort.constant;
    let sort = sort.cleared(clean);
    node.note = note(checker.alloc, &sort.kind, constant, names, valued)?;
    Ok(sort)
}

// A form, in an expression that begins at the first place, with its operator at the other.
#[cycle(typing)]
fn type_form(
    checker: &mut Checker,
    pos: Pos,
    op_pos: Pos,
    form: &mut Expr,
) -> Result<Typing, NoMemory>
    ensures tree { OnOk result (expr_shape form.new ≡ (type_form pos op_pos (expr_shape form.old) (state_of checker.old)).form) }
    ensures typing { IfOk result (λ t. typing_of t ≡ (type_form pos op_pos (expr_shape form.old) (state_of checker.old)).typing) }
    ensures state { OnOk result (state_of checker.new ≡ (type_form pos op_pos (expr_shape form.old) (state_of checker.old)).state) }
{
    match grouped(form) {
        Group::Leaf => {
            let typing = type_leaf(checker, pos, op_pos, form)?;
            Ok(typing)
        }
        Group::Single => {
            let typing = type_single(checker, pos, op_pos, form)?;
            Ok(typing)
        }
        Group::Pair => {
            let typing = type_pair(checker, pos, op_pos, form)?;
            Ok(typing)
        }
        Group::Other => {
            let typing = type_other(checker, pos, op_pos, form)?;
            Ok(typing)
        }
    }
}

// An operand behind a token: that token's number, its own first one's with its place, and what is known of it.
#[derive(Drop)]
struct Operand {
    token: u32,
    first: u32,
    pos: Pos,
    sort: Sort,
}

// An operand behind a token.
#[cycle(typing)]
fn type_operand(checker: &mut Checker, a: &mut Node) -> Result<Operand, NoMemory>
    ensures tree { OnOk result (node_shape a.new ≡ (type_node (node_shape a.old) (step (state_of checker.old))).node) }
    ensures token { IfOk result (λ o. o.token ≡ (state_of checker.old).at) }
    ensures first { IfOk result (λ o. o.first ≡ (step (state_of checker.old)).at) }
    ensures pos { IfOk result (λ o. o.pos ≡ a.old.pos) }
    ensures sort { IfOk result (λ o. sort_of o.sort ≡ (type_node (node_shape a.old) (step (state_of checker.old))).sort) }
    ensures state { OnOk result (state_of checker.new ≡ (type_node (node_shape a.old) (step (state_of checker.old))).state) }
{
    let token = checker.at;
    checker.step();
    let first = checker.at;
    let pos = a.pos;
    let sort = type_node(checker, a)?;
    Ok(Operand {
        token,
        first,
        pos,
        sort,
    })
}

// A form with one operand.
#[cycle(typing)]
#[tactic(auto, using(crate::proofs::Steps::step_single))]
fn type_single(
    checker: &mut Checker,
    pos: Pos,
    op_pos: Pos,
    form: &mut Expr,
) -> Result<Typing, NoMemory>
    requires { group_of (expr_shape form.old) ≡ Single }
    ensures tree { OnOk result (expr_shape form.new ≡ (type_form pos op_pos (expr_shape form.old) (state_of checker.old)).form) }
    ensures typing { IfOk result (λ t. typing_of t ≡ (type_form pos op_pos (expr_shape form.old) (state_of checker.old)).typing) }
    ensures state { OnOk result (state_of checker.new ≡ (type_form pos op_pos (expr_shape form.old) (state_of checker.old)).state) }
{
    match form {
        Expr::Paren(a) => {
            let typing = type_paren(checker, a)?;
            Ok(typing)
        }
        Expr::Unary(op, a) => {
            let typing = type_unary(checker, op_pos, *op, a)?;
            Ok(typing)
        }
        Expr::Step(op, a) => {
            let typing = type_step(checker, op_pos, *op, a)?;
            Ok(typing)
        }
        Expr::SizeOf(a) => {
            let typing = type_size(checker, op_pos, a)?;
            Ok(typing)
        }
        Expr::Member(a, name, place) => {
            let typing = type_field_of(checker, op_pos, Access::Dot, name, *place, a)?;
            Ok(typing)
        }
        Expr::Arrow(a, name, place) => {
            let typing = type_field_of(checker, op_pos, Access::Arrow, name, *place, a)?;
            Ok(typing)
        }
        Expr::Probe(mark, a) => {
            let typing = type_probed(checker, pos, mark, a)?;
            Ok(typing)
        }
        _ => unreachable!(),
    }
}

// An expression in parentheses.
#[cycle(typing)]
fn type_paren(checker: &mut Checker, a: &mut Node) -> Result<Typing, NoMemory>
    ensures tree { OnOk result (paren (node_shape a.new) ≡ (type_paren (node_shape a.old) (state_of checker.old)).form) }
    ensures typing { IfOk result (λ t. typing_of t ≡ (type_paren (node_shape a.old) (state_of checker.old)).typing) }
    ensures state { OnOk result (state_of checker.new ≡ (type_paren (node_shape a.old) (state_of checker.old)).state) }
{
    let a = type_operand(checker, a)?;
    Ok(checker.typed_paren(a.sort))
}

// An operator in front of its operand.
#[cycle(typing)]
fn type_unary(
    checker: &mut Checker,
    op_pos: Pos,
    op: UnaryOp,
    a: &mut Node,
) -> Result<Typing, NoMemory>
    ensures tree { OnOk result (prefix (unary op) (node_shape a.new) ≡ (type_unary op_pos op (node_shape a.old) (state_of checker.old)).form) }
    ensures typing { IfOk result (λ t. typing_of t ≡ (type_unary op_pos op (node_shape a.old) (state_of checker.old)).typing) }
    ensures state { OnOk result (state_of checker.new ≡ (type_unary op_pos op (node_shape a.old) (state_of checker.old)).state) }
{
    let a = type_operand(checker, a)?;
    let typing = checker.typed_unary(a.token, op_pos, a.first, a.pos, op, a.sort)?;
    Ok(typing)
}

// The size of an expression.
#[cycle(typing)]
fn type_size(checker: &mut Checker, op_pos: Pos, a: &mut Node) -> Result<Typing, NoMemory>
    ensures tree { OnOk result (prefix size_of (node_shape a.new) ≡ (type_size op_pos (node_shape a.old) (state_of checker.old)).form) }
    ensures typing { IfOk result (λ t. typing_of t ≡ (type_size op_pos (node_shape a.old) (state_of checker.old)).typing) }
    ensures state { OnOk result (state_of checker.new ≡ (type_size op_pos (node_shape a.old) (state_of checker.old)).state) }
{
    let quiet = checker.quiet;
    let token = checker.at;
    checker.step();
    checker.hush();
    let a = type_node(checker, a)?;
    checker.hear(quiet);
    let typing = checker.typed_size(token, op_pos, a.kind)?;
    Ok(typing)
}

// A field.
#[cycle(typing)]
fn type_field_of(
    checker: &mut Checker,
    op_pos: Pos,
    access: Access,
    name: &Text,
    place: Pos,
    a: &mut Node,
) -> Result<Typing, NoMemory>
    ensures tree { OnOk result (suffix (node_shape a.new) (field (access_of access) name.now place) ≡ (type_access op_pos (access_of access) name.now place (node_shape a.old) (state_of checker.old)).form) }
    ensures typing { IfOk result (λ t. typing_of t ≡ (type_access op_pos (access_of access) name.now place (node_shape a.old) (state_of checker.old)).typing) }
    ensures state { OnOk result (state_of checker.new ≡ (type_access op_pos (access_of access) name.now place (node_shape a.old) (state_of checker.old)).state) }
{
    let a = type_node(checker, a)?;
    let typing = typed_access(checker, op_pos, access, name, place, a)?;
    Ok(typing)
}

// `++` or `--`, before or behind its operand.
#[cycle(typing)]
fn type_step(
    checker: &mut Checker,
    op_pos: Pos,
    op: StepOp,
    a: &mut Node,
) -> Result<Typing, NoMemory>
    ensures tree { OnOk result (step_shape op (node_shape a.new) ≡ (type_step op_pos op (node_shape a.old) (state_of checker.old)).form) }
    ensures typing { IfOk result (λ t. typing_of t ≡ (type_step op_pos op (node_shape a.old) (state_of checker.old)).typing) }
    ensures state { OnOk result (state_of checker.new ≡ (type_step op_pos op (node_shape a.old) (state_of checker.old)).state) }
{
    match op {
        StepOp::PreInc | StepOp::PreDec => {
            let a = type_operand(checker, a)?;
            let typing = checker.typed_step(a.token, op_pos, a.first, a.pos, a.sort)?;
            Ok(typing)
        }
        StepOp::PostInc | StepOp::PostDec => {
            let a = type_stepped(checker, a)?;
            let typing = checker.typed_step(a.token, op_pos, a.first, a.pos, a.sort)?;
            Ok(typing)
        }
    }
}

// An operand before a token.
#[cycle(typing)]
fn type_stepped(checker: &mut Checker, a: &mut Node) -> Result<Operand, NoMemory>
    ensures tree { OnOk result (node_shape a.new ≡ (type_node (node_shape a.old) (state_of checker.old)).node) }
    ensures token { IfOk result (λ o. o.token ≡ (type_node (node_shape a.old) (state_of checker.old)).state.at) }
    ensures first { IfOk result (λ o. o.first ≡ (state_of checker.old).at) }
    ensures pos { IfOk result (λ o. o.pos ≡ a.old.pos) }
    ensures sort { IfOk result (λ o. sort_of o.sort ≡ (type_node (node_shape a.old) (state_of checker.old)).sort) }
    ensures state { OnOk result (state_of checker.new ≡ step (type_node (node_shape a.old) (state_of checker.old)).state) }
{
    let first = checker.at;
    let pos = a.pos;
    let sort = type_node(checker, a)?;
    let token = checker.at;
    checker.step();
    Ok(Operand {
        token,
        first,
        pos,
        sort,
    })
}

// An expression in a probe.
#[cycle(typing)]
fn type_probed(
    checker: &mut Checker,
    pos: Pos,
    mark: &mut ExprProbe,
    a: &mut Node,
) -> Result<Typing, NoMemory>
    ensures tree { OnOk result (probe (probe_shape mark.new) (node_shape a.new) ≡ (type_probing pos (probe_shape mark.old) (node_shape a.old) (state_of checker.old)).form) }
    ensures typing { IfOk result (λ t. typing_of t ≡ (type_probing pos (probe_shape mark.old) (node_shape a.old) (state_of checker.old)).typing) }
    ensures state { OnOk result (state_of checker.new ≡ (type_probing pos (probe_shape mark.old) (node_shape a.old) (state_of checker.old)).state) }
{
    match mark {
        ExprProbe::Block(number) => {
            let typing = type_probe(checker, pos, Probing::Block, number, a)?;
            Ok(typing)
        }
        ExprProbe::Test(number) => {
            let typing = type_probe(checker, pos, Probing::Test, number, a)?;
            Ok(typing)
        }
        ExprProbe::Use(number) => {
            let typing = type_probe(checker, pos, Probing::Use, number, a)?;
            Ok(typing)
        }
        ExprProbe::Def(number) => {
            let typing = type_probe(checker, pos, Probing::Def, number, a)?;
            Ok(typing)
        }
        ExprProbe::Select(number, cases) => {
            let typing = type_select(checker, pos, number, cases, a)?;
            Ok(typing)
        }
    }
}

// A probe without constants.
#[cycle(typing)]
fn type_probe(
    checker: &mut Checker,
    pos: Pos,
    probing: Probing,
    number: &Text,
    a: &mut Node,
) -> Result<Typing, NoMemory>
    ensures tree { OnOk result (probe (simple (probing_of probing) number.now) (node_shape a.new) ≡ (type_probe pos (probing_of probing) number.now (node_shape a.old) (state_of checker.old)).form) }
    ensures typing { IfOk result (λ t. typing_of t ≡ (type_probe pos (probing_of probing) number.now (node_shape a.old) (state_of checker.old)).typing) }
    ensures state { OnOk result (state_of checker.new ≡ (type_probe pos (probing_of probing) number.now (node_shape a.old) (state_of checker.old)).state) }
{
    let token = checker.at;
    let side = checker.side;
    checker.claim(probing, number.bytes(), token, pos)?;
    checker.steps(4);
    let sort = type_node(checker, a)?;
    let typing = checker.typed_probe(token, pos, probing, side, sort)?;
    Ok(typing)
}

// A select probe with its constants.
#[cycle(typing)]
fn type_select(
    checker: &mut Checker,
    pos: Pos,
    number: &Text,
    cases: &mut Vec<Node>,
    a: &mut Node,
) -> Result<Typing, NoMemory>
    ensures tree { OnOk result (probe (select number.now (node_list cases.new.items)) (node_shape a.new) ≡ (type_select pos number.now (node_list cases.old.items) (node_shape a.old) (state_of checker.old)).form) }
    ensures typing { IfOk result (λ t. typing_of t ≡ (type_select pos number.now (node_list cases.old.items) (node_shape a.old) (state_of checker.old)).typing) }
    ensures state { OnOk result (state_of checker.new ≡ (type_select pos number.now (node_list cases.old.items) (node_shape a.old) (state_of checker.old)).state) }
{
    let token = checker.at;
    checker.claim(Probing::Test, number.bytes(), token, pos)?;
    checker.steps(3);
    let before = checker.complained();
    let values = type_cases(checker, cases)?;
    checker.step();
    let sort = type_node(checker, a)?;
    let clean = before == checker.complained();
    let typing = checker.typed_select(token, pos, clean, &values, sort)?;
    Ok(typing)
}

// The other forms.
#[cycle(typing)]
#[tactic(auto, using(crate::proofs::Steps::step_single))]
fn type_other(
    checker: &mut Checker,
    pos: Pos,
    op_pos: Pos,
    form: &mut Expr,
) -> Result<Typing, NoMemory>
    requires { group_of (expr_shape form.old) ≡ Other }
    ensures tree { OnOk result (expr_shape form.new ≡ (type_form pos op_pos (expr_shape form.old) (state_of checker.old)).form) }
    ensures typing { IfOk result (λ t. typing_of t ≡ (type_form pos op_pos (expr_shape form.old) (state_of checker.old)).typing) }
    ensures state { OnOk result (state_of checker.new ≡ (type_form pos op_pos (expr_shape form.old) (state_of checker.old)).state) }
{
    match form {
        Expr::Call(name, args) => {
            let typing = type_call(checker, pos, name, args)?;
            Ok(typing)
        }
        Expr::SizeOfType(name) => {
            let typing = type_name_size(checker, op_pos, name)?;
            Ok(typing)
        }
        Expr::Cast(name, a) => {
            let typing = type_cast(checker, op_pos, name, a)?;
            Ok(typing)
        }
        Expr::Cond(a, b, c) => {
            let typing = type_choice(checker, op_pos, a, b, c)?;
            Ok(typing)
        }
        _ => unreachable!(),
    }
}

// The size of a type.
#[cycle(typing)]
fn type_name_size(
    checker: &mut Checker,
    op_pos: Pos,
    name: &mut TypeName,
) -> Result<Typing, NoMemory>
    ensures tree { OnOk result (size_of_type (type_shape name.new) ≡ (type_type_size op_pos (type_shape name.old) (state_of checker.old)).form) }
    ensures typing { IfOk result (λ t. typing_of t ≡ (type_type_size op_pos (type_shape name.old) (state_of checker.old)).typing) }
    ensures state { OnOk result (state_of checker.new ≡ (type_type_size op_pos (type_shape name.old) (state_of checker.old)).state) }
{
    let token = checker.at;
    checker.steps(2);
    let kind = type_name(checker, name)?;
    let typing = checker.typed_type_size(token, op_pos, kind)?;
    Ok(typing)
}

// A cast.
#[cycle(typing)]
fn type_cast(
    checker: &mut Checker,
    op_pos: Pos,
    name: &mut TypeName,
    a: &mut Node,
) -> Result<Typing, NoMemory>
    ensures tree { OnOk result (cast (type_shape name.new) (node_shape a.new) ≡ (type_cast op_pos (type_shape name.old) (node_shape a.old) (state_of checker.old)).form) }
    ensures typing { IfOk result (λ t. typing_of t ≡ (type_cast op_pos (type_shape name.old) (node_shape a.old) (state_of checker.old)).typing) }
    ensures state { OnOk result (state_of checker.new ≡ (type_cast op_pos (type_shape name.old) (node_shape a.old) (state_of checker.old)).state) }
{
    let token = checker.at;
    checker.step();
    let kind = type_name(checker, name)?;
    checker.step();
    let sort = type_node(checker, a)?;
    let typing = checker.typed_cast(token, op_pos, kind, sort)?;
    Ok(typing)
}

// A choice.
#[cycle(typing)]
fn type_choice(
    checker: &mut Checker,
    op_pos: Pos,
    a: &mut Node,
    b: &mut Node,
    c: &mut Node,
) -> Result<Typing, NoMemory>
    ensures tree { OnOk result (choose (node_shape a.new) (node_shape b.new) (node_shape c.new) ≡ (type_choice op_pos (node_shape a.old) (node_shape b.old) (node_shape c.old) (state_of checker.old)).form) }
    ensures typing { IfOk result (λ t. typing_of t ≡ (type_choice op_pos (node_shape a.old) (node_shape b.old) (node_shape c.old) (state_of checker.old)).typing) }
    ensures state { OnOk result (state_of checker.new ≡ (type_choice op_pos (node_shape a.old) (node_shape b.old) (node_shape c.old) (state_of checker.old)).state) }
{
    let both = type_operands(checker, a, b)?;
    checker.step();
    let third = type_node(checker, c)?;
    let typing = checker.typed_choice(both.token, op_pos, both.left, both.right, third)?;
    Ok(typing)
}
