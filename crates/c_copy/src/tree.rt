//! Copies of expressions, types and declarations.

ghost use Rattle.std.specs.Prelude.{◌≡◌, IfOk};
ghost use Rattle.c_syntax.specs.Shape.{call, select, arrays, params, listed};
ghost use Rattle.c_syntax.specs.View.{expr_shape, node_shape, node_list, maybe_node, probe_shape, type_shape, type_lengths_list, spec_shape, spec_list, enumer_list, decl_shape, decl_list, declarator_shape, declarator_list, decl_form_shape, lengths_list, params_shape, param_shape, param_list, init_shape, init_list, maybe_init};
ghost use Rattle.c_copy.specs.Boxes.{boxed_init};

use crate::build::{
    new_arrays, new_call, new_decl, new_declarator, new_enum, new_enumer, new_list, new_node,
    new_param, new_params, new_select, new_struct, new_type,
};
use crate::parts::{boxed, copy_maybe_named, copy_named, copy_note, copy_stars, put, put_inner};
use c_base::place::{NoMemory, Pos};
use c_syntax::text::Text;
use c_syntax::tree::{
    Decl, DeclForm, Declarator, Enumer, Expr, ExprProbe, Init, Node, Param, Params, Spec, SpecForm,
    TypeName,
};
use std::alloc::Global;

// ---- expressions

/// A copy of an expression.
#[cycle(copy)]
pub fn copy_node(alloc: Global, node: &Node) -> Result<Box<Node>, NoMemory>
    ensures { IfOk result (λ n. node_shape n.value ≡ node_shape node.now) }
{
    let note = copy_note(alloc, &node.note)?;
    let form = copy_form(alloc, &node.form)?;
    new_node(alloc, node.pos, node.op, note, form)
}

#[cycle(copy)]
fn copy_form(alloc: Global, form: &Expr) -> Result<Expr, NoMemory>
    ensures { IfOk result (λ f. expr_shape f ≡ expr_shape form.now) }
{
    match form {
        Expr::Number(text) => Ok(Expr::Number(text.copy(alloc)?)),
        Expr::Char(byte) => Ok(Expr::Char(*byte)),
        Expr::Str(text) => Ok(Expr::Str(text.copy(alloc)?)),
        Expr::Name(text) => Ok(Expr::Name(text.copy(alloc)?)),
        Expr::Paren(a) => Ok(Expr::Paren(copy_node(alloc, a)?)),
        Expr::Index(a, b) => Ok(Expr::Index(copy_node(alloc, a)?, copy_node(alloc, b)?)),
        Expr::Member(a, name, pos) => Ok(Expr::Member(
            copy_node(alloc, a)?,
            name.copy(alloc)?,
            *pos,
        )),
        Expr::Arrow(a, name, pos) => Ok(Expr::Arrow(copy_node(alloc, a)?, name.copy(alloc)?, *pos)),
        Expr::Call(name, args) => copy_call(alloc, name, args),
        Expr::Unary(op, a) => Ok(Expr::Unary(*op, copy_node(alloc, a)?)),
        Expr::Step(op, a) => Ok(Expr::Step(*op, copy_node(alloc, a)?)),
        Expr::SizeOf(a) => Ok(Expr::SizeOf(copy_node(alloc, a)?)),
        Expr::SizeOfType(name) => Ok(Expr::SizeOfType(copy_type(alloc, name)?)),
        Expr::Cast(name, a) => {
            let a = copy_node(alloc, a)?;
            Ok(Expr::Cast(copy_type(alloc, name)?, a))
        }
        Expr::Binary(op, a, b) => Ok(Expr::Binary(*op, copy_node(alloc, a)?, copy_node(alloc, b)?)),
        Expr::And(a, b) => Ok(Expr::And(copy_node(alloc, a)?, copy_node(alloc, b)?)),
        Expr::Or(a, b) => Ok(Expr::Or(copy_node(alloc, a)?, copy_node(alloc, b)?)),
        Expr::Cond(a, b, c) => {
            let a = copy_node(alloc, a)?;
            let b = copy_node(alloc, b)?;
            Ok(Expr::Cond(a, b, copy_node(alloc, c)?))
        }
        Expr::Assign(op, a, b) => Ok(Expr::Assign(*op, copy_node(alloc, a)?, copy_node(alloc, b)?)),
        Expr::Comma(a, b) => Ok(Expr::Comma(copy_node(alloc, a)?, copy_node(alloc, b)?)),
        Expr::Probe(probe, a) => Ok(Expr::Probe(copy_probe(alloc, probe)?, copy_node(alloc, a)?)),
    }
}

#[cycle(copy)]
fn copy_call(alloc: Global, name: &Text, args: &[Node]) -> Result<Expr, NoMemory>
    ensures { IfOk result (λ f. expr_shape f ≡ call name.now (node_list args.now)) }
{
    let name = name.copy(alloc)?;
    let args = copy_nodes(alloc, args)?;
    Ok(new_call(name, args))
}

/// Copies of expressions.
#[cycle(copy)]
pub fn copy_nodes(alloc: Global, nodes: &[Node]) -> Result<Vec<Node>, NoMemory>
    ensures { IfOk result (λ copies. node_list copies.items ≡ node_list nodes.now) }
{
    let mut copies = Vec::new(alloc);
    for node in nodes {
        let copied = copy_node(alloc, node)?;
        put_inner(&mut copies, copied)?;
    }
    Ok(copies)
}

/// A copy of an expression, if there is one.
#[cycle(copy)]
pub fn copy_maybe_node(alloc: Global, node: &Option<Node>) -> Result<Option<Node>, NoMemory>
    ensures { IfOk result (λ n. maybe_node n ≡ maybe_node node.now) }
{
    match node {
        None => Ok(None),
        Some(node) => {
            let copied = copy_node(alloc, node)?;
            Ok(Some(Box::into_inner(copied)))
        }
    }
}

/// A copy of the probe round an expression.
#[cycle(copy)]
pub fn copy_probe(alloc: Global, probe: &ExprProbe) -> Result<ExprProbe, NoMemory>
    ensures { IfOk result (λ p. probe_shape p ≡ probe_shape probe.now) }
{
    match probe {
        ExprProbe::Block(number) => Ok(ExprProbe::Block(number.copy(alloc)?)),
        ExprProbe::Test(number) => Ok(ExprProbe::Test(number.copy(alloc)?)),
        ExprProbe::Select(number, cases) => copy_select(alloc, number, cases),
        ExprProbe::Use(number) => Ok(ExprProbe::Use(number.copy(alloc)?)),
        ExprProbe::Def(number) => Ok(ExprProbe::Def(number.copy(alloc)?)),
    }
}

#[cycle(copy)]
fn copy_select(alloc: Global, number: &Text, cases: &[Node]) -> Result<ExprProbe, NoMemory>
    ensures { IfOk result (λ p. probe_shape p ≡ select number.now (node_list cases.now)) }
{
    let number = number.copy(alloc)?;
    let cases = copy_nodes(alloc, cases)?;
    Ok(new_select(number, cases))
}

// ---- types

/// A copy of a type name.
#[cycle(copy)]
#[tactic(auto, using(std::proofs::lemmas::Grind::common_steps, c_syntax::proofs::Open::type_open))]
pub fn copy_type(alloc: Global, name: &TypeName) -> Result<TypeName, NoMemory>
    ensures { IfOk result (λ t. type_shape t ≡ type_shape name.now) }
{
    let specs = copy_specs(alloc, &name.specs)?;
    let stars = copy_stars(alloc, &name.stars)?;
    let lengths = copy_type_lengths(alloc, &name.lengths)?;
    Ok(new_type(name.pos, specs, stars, lengths))
}

#[cycle(copy)]
fn copy_type_lengths(alloc: Global, nodes: &[Node]) -> Result<Vec<Node>, NoMemory>
    ensures { IfOk result (λ copies. type_lengths_list copies.items ≡ type_lengths_list nodes.now) }
{
    let mut copies = Vec::new(alloc);
    for node in nodes {
        let copied = copy_node(alloc, node)?;
        put_inner(&mut copies, copied)?;
    }
    Ok(copies)
}

/// Copies of specifiers.
#[cycle(copy)]
pub fn copy_specs(alloc: Global, specs: &[Spec]) -> Result<Vec<Spec>, NoMemory>
    ensures { IfOk result (λ copies. spec_list copies.items ≡ spec_list specs.now) }
{
    let mut copies = Vec::new(alloc);
    for spec in specs {
        let form = copy_spec(alloc, &spec.form)?;
        put(
            &mut copies,
            Spec {
                pos: spec.pos,
                form,
            },
        )?;
    }
    Ok(copies)
}

#[cycle(copy)]
fn copy_spec(alloc: Global, form: &SpecForm) -> Result<SpecForm, NoMemory>
    ensures { IfOk result (λ f. spec_shape f ≡ spec_shape form.now) }
{
    match form {
        SpecForm::Plain(key) => Ok(SpecForm::Plain(*key)),
        SpecForm::Struct(name, list) => {
            let name = copy_maybe_named(alloc, name)?;
            match list {
                None => Ok(new_struct(name, None)),
                Some(decls) => {
                    let decls = copy_decls(alloc, decls)?;
                    Ok(new_struct(name, Some(decls)))
                }
            }
        }
        SpecForm::Enum(name, list) => {
            let name = copy_maybe_named(alloc, name)?;
            match list {
                None => Ok(new_enum(name, None)),
                Some(rows) => {
                    let rows = copy_enumers(alloc, rows)?;
                    Ok(new_enum(name, Some(rows)))
                }
            }
        }
    }
}

#[cycle(copy)]
fn copy_enumers(alloc: Global, rows: &[Enumer]) -> Result<Vec<Enumer>, NoMemory>
    ensures { IfOk result (λ copies. enumer_list copies.items ≡ enumer_list rows.now) }
{
    let mut copies = Vec::new(alloc);
    for row in rows {
        let name = copy_named(alloc, &row.name)?;
        let value = copy_maybe_node(alloc, &row.value)?;
        put(&mut copies, new_enumer(name, value))?;
    }
    Ok(copies)
}

// ---- declarations

/// Copies of declarations.
#[cycle(copy)]
pub fn copy_decls(alloc: Global, decls: &[Decl]) -> Result<Vec<Decl>, NoMemory>
    ensures { IfOk result (λ copies. decl_list copies.items ≡ decl_list decls.now) }
{
    let mut copies = Vec::new(alloc);
    for decl in decls {
        let copied = copy_decl(alloc, decl)?;
        put(&mut copies, copied)?;
    }
    Ok(copies)
}

/// A copy of a declaration.
#[cycle(copy)]
#[tactic(auto, using(std::proofs::lemmas::Grind::common_steps, c_syntax::proofs::Open::decl_open))]
pub fn copy_decl(alloc: Global, decl: &Decl) -> Result<Decl, NoMemory>
    ensures { IfOk result (λ d. decl_shape d ≡ decl_shape decl.now) }
{
    let specs = copy_specs(alloc, &decl.specs)?;
    let names = copy_declarators(alloc, &decl.names)?;
    Ok(new_decl(decl.pos, specs, names))
}

#[cycle(copy)]
fn copy_declarators(alloc: Global, names: &[Declarator]) -> Result<Vec<Declarator>, NoMemory>
    ensures { IfOk result (λ copies. declarator_list copies.items ≡ declarator_list names.now) }
{
    let mut copies = Vec::new(alloc);
    for name in names {
        let copied = copy_declarator(alloc, name)?;
        put_inner(&mut copies, copied)?;
    }
    Ok(copies)
}

/// A copy of a declarator and its initialiser.
#[cycle(copy)]
pub fn copy_declarator(alloc: Global, name: &Declarator) -> Result<Box<Declarator>, NoMemory>
    ensures { IfOk result (λ d. declarator_shape d.value ≡ declarator_shape name.now) }
{
    let stars = copy_stars(alloc, &name.stars)?;
    let named = copy_maybe_named(alloc, &name.name)?;
    let init = copy_maybe_init(alloc, &name.init)?;
    let form = copy_decl_form(alloc, &name.form)?;
    new_declarator(alloc, stars, named, form, init)
}

/// A copy of what stands behind a declared name.
#[cycle(copy)]
pub fn copy_decl_form(alloc: Global, form: &DeclForm) -> Result<Box<DeclForm>, NoMemory>
    ensures { IfOk result (λ f. decl_form_shape f.value ≡ decl_form_shape form.now) }
{
    match form {
        DeclForm::Arrays(lengths) => copy_arrays(alloc, lengths),
        DeclForm::Function(list) => {
            let list = copy_params(alloc, list)?;
            boxed(alloc, DeclForm::Function(list))
        }
    }
}

#[cycle(copy)]
fn copy_arrays(alloc: Global, lengths: &[Option<Node>]) -> Result<Box<DeclForm>, NoMemory>
    ensures { IfOk result (λ f. decl_form_shape f.value ≡ arrays (lengths_list lengths.now)) }
{
    let lengths = copy_lengths(alloc, lengths)?;
    boxed(alloc, new_arrays(lengths))
}

/// Copies of array lengths.
#[cycle(copy)]
pub fn copy_lengths(alloc: Global, lengths: &[Option<Node>]) -> Result<Vec<Option<Node>>, NoMemory>
    ensures { IfOk result (λ copies. lengths_list copies.items ≡ lengths_list lengths.now) }
{
    let mut copies = Vec::new(alloc);
    for length in lengths {
        match length {
            None => put(&mut copies, None)?,
            Some(node) => {
                let copied = copy_node(alloc, node)?;
                put(&mut copies, Some(Box::into_inner(copied)))?;
            }
        }
    }
    Ok(copies)
}

/// A copy of the parameters of a function.
#[cycle(copy)]
pub fn copy_params(alloc: Global, list: &Params) -> Result<Params, NoMemory>
    ensures { IfOk result (λ l. params_shape l ≡ params_shape list.now) }
{
    match list {
        Params::Empty => Ok(Params::Empty),
        Params::Void => Ok(Params::Void),
        Params::List(list) => copy_param_list(alloc, list),
    }
}

#[cycle(copy)]
fn copy_param_list(alloc: Global, list: &[Param]) -> Result<Params, NoMemory>
    ensures { IfOk result (λ l. params_shape l ≡ params (param_list list.now)) }
{
    let mut copies = Vec::new(alloc);
    for param in list {
        let copied = copy_param(alloc, param)?;
        put_inner(&mut copies, copied)?;
    }
    Ok(new_params(copies))
}

#[cycle(copy)]
#[tactic(auto, using(std::proofs::lemmas::Grind::common_steps, c_syntax::proofs::Open::param_open))]
fn copy_param(alloc: Global, param: &Param) -> Result<Box<Param>, NoMemory>
    ensures { IfOk result (λ p. param_shape p.value ≡ param_shape param.now) }
{
    let specs = copy_specs(alloc, &param.specs)?;
    let name = copy_declarator(alloc, &param.name)?;
    new_param(alloc, param.pos, specs, name)
}

// ---- initialisers

/// A copy of an initialiser, if there is one.
#[cycle(copy)]
pub fn copy_maybe_init(alloc: Global, init: &Option<Init>) -> Result<Option<Box<Init>>, NoMemory>
    ensures { IfOk result (λ i. boxed_init i ≡ maybe_init init.now) }
{
    match init {
        None => Ok(None),
        Some(init) => Ok(Some(copy_init(alloc, init)?)),
    }
}

/// A copy of an initialiser.
#[cycle(copy)]
pub fn copy_init(alloc: Global, init: &Init) -> Result<Box<Init>, NoMemory>
    ensures { IfOk result (λ i. init_shape i.value ≡ init_shape init.now) }
{
    match init {
        Init::One(node) => {
            let node = copy_node(alloc, node)?;
            boxed(alloc, Init::One(Box::into_inner(node)))
        }
        Init::List(pos, list, last) => copy_init_list(alloc, *pos, list, *last),
    }
}

#[cycle(copy)]
fn copy_init_list(alloc: Global, pos: Pos, list: &[Init], last: bool) -> Result<Box<Init>, NoMemory>
    ensures { IfOk result (λ i. init_shape i.value ≡ listed pos (init_list list.now) last) }
{
    let mut copies = Vec::new(alloc);
    for init in list {
        let copied = copy_init(alloc, init)?;
        put_inner(&mut copies, copied)?;
    }
    boxed(alloc, new_list(pos, copies, last))
}
