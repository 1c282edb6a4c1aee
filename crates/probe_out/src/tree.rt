//! Expressions, types and declarations without their probes.

ghost use Rattle.std.specs.Prelude.{◌≡◌, IfOk};
ghost use Rattle.c_syntax.specs.Shape.{node, call, arrays, params, listed};
ghost use Rattle.c_syntax.specs.View.{note_shape, expr_shape, node_shape, node_list, maybe_node, type_shape, type_lengths_list, spec_shape, spec_list, enumer_list, decl_shape, decl_list, declarator_shape, declarator_list, decl_form_shape, lengths_list, params_shape, param_shape, param_list, init_shape, init_list, maybe_init};
ghost use Rattle.c_copy.specs.Boxes.{boxed_init, boxed_node};
ghost use Rattle.c_tree.specs.Erased.{erased_node, erased_nodes, erased_maybe, erased_lengths, erased_type, erased_specs, erased_spec, erased_enumers, erased_decl, erased_decls, erased_declarator, erased_declarators, erased_behind, erased_params, erased_init, erased_inits, erased_maybe_init};
ghost use Rattle.probe_out.specs.Forms.{erased_expr};

use crate::names::{erased_maybe_name, erased_name};
use c_base::place::{NoMemory, Pos};
use c_copy::build::{
    new_arrays, new_call, new_decl, new_declarator, new_enum, new_enumer, new_list, new_node,
    new_param, new_params, new_struct, new_type, unboxed_node,
};
use c_copy::parts::{boxed, copy_note, copy_stars, put, put_inner};
use c_syntax::text::Text;
use c_syntax::tree::{
    Decl, DeclForm, Declarator, Enumer, Expr, Init, Node, Param, Params, Spec, SpecForm, TypeName,
};
use std::alloc::Global;

// ---- expressions

// The expression in the probes that stand round it: its places and its note are what is left of theirs.
fn in_probes(probed: &Node) -> &Node
    ensures { erased_node (node_shape probed.now) ≡ node result.now.pos result.now.op (note_shape result.now.note) (erased_expr (expr_shape probed.now.form)) }
{
    match &probed.form {
        Expr::Probe(_, inner) => in_probes(inner),
        _ => probed,
    }
}

/// An expression.
#[cycle(erase)]
pub fn erased(alloc: Global, probed: &Node) -> Result<Box<Node>, NoMemory>
    ensures { IfOk result (λ n. node_shape n.value ≡ erased_node (node_shape probed.now)) }
{
    let inner = in_probes(probed);
    let note = copy_note(alloc, &inner.note)?;
    let form = erased_form(alloc, &probed.form)?;
    new_node(alloc, inner.pos, inner.op, note, form)
}

// A form; of one in probes, that of what stands in them.
#[cycle(erase)]
fn erased_form(alloc: Global, form: &Expr) -> Result<Expr, NoMemory>
    ensures { IfOk result (λ f. expr_shape f ≡ erased_expr (expr_shape form.now)) }
{
    match form {
        Expr::Number(text) => Ok(Expr::Number(text.copy(alloc)?)),
        Expr::Char(byte) => Ok(Expr::Char(*byte)),
        Expr::Str(text) => Ok(Expr::Str(text.copy(alloc)?)),
        Expr::Name(text) => Ok(Expr::Name(text.copy(alloc)?)),
        Expr::Paren(a) => Ok(Expr::Paren(erased(alloc, a)?)),
        Expr::Index(a, b) => Ok(Expr::Index(erased(alloc, a)?, erased(alloc, b)?)),
        Expr::Member(a, name, pos) => Ok(Expr::Member(erased(alloc, a)?, name.copy(alloc)?, *pos)),
        Expr::Arrow(a, name, pos) => Ok(Expr::Arrow(erased(alloc, a)?, name.copy(alloc)?, *pos)),
        Expr::Call(name, args) => erased_call(alloc, name, args),
        Expr::Unary(op, a) => Ok(Expr::Unary(*op, erased(alloc, a)?)),
        Expr::Step(op, a) => Ok(Expr::Step(*op, erased(alloc, a)?)),
        Expr::SizeOf(a) => Ok(Expr::SizeOf(erased(alloc, a)?)),
        Expr::SizeOfType(name) => Ok(Expr::SizeOfType(erased_type(alloc, name)?)),
        Expr::Cast(name, a) => {
            let a = erased(alloc, a)?;
            Ok(Expr::Cast(erased_type(alloc, name)?, a))
        }
        Expr::Binary(op, a, b) => Ok(Expr::Binary(*op, erased(alloc, a)?, erased(alloc, b)?)),
        Expr::And(a, b) => Ok(Expr::And(erased(alloc, a)?, erased(alloc, b)?)),
        Expr::Or(a, b) => Ok(Expr::Or(erased(alloc, a)?, erased(alloc, b)?)),
        Expr::Cond(a, b, c) => {
            let a = erased(alloc, a)?;
            let b = erased(alloc, b)?;
            Ok(Expr::Cond(a, b, erased(alloc, c)?))
        }
        Expr::Assign(op, a, b) => Ok(Expr::Assign(*op, erased(alloc, a)?, erased(alloc, b)?)),
        Expr::Comma(a, b) => Ok(Expr::Comma(erased(alloc, a)?, erased(alloc, b)?)),
        Expr::Probe(_, inner) => erased_form(alloc, &inner.form),
    }
}

#[cycle(erase)]
fn erased_call(alloc: Global, name: &Text, args: &[Node]) -> Result<Expr, NoMemory>
    ensures { IfOk result (λ f. expr_shape f ≡ call name.now (erased_nodes (node_list args.now))) }
{
    let name = name.copy(alloc)?;
    let args = erased_nodes(alloc, args)?;
    Ok(new_call(name, args))
}

#[cycle(erase)]
fn erased_nodes(alloc: Global, nodes: &[Node]) -> Result<Vec<Node>, NoMemory>
    ensures { IfOk result (λ v. node_list v.items ≡ erased_nodes (node_list nodes.now)) }
{
    let mut made = Vec::new(alloc);
    for node in nodes {
        let inner = erased(alloc, node)?;
        put_inner(&mut made, inner)?;
    }
    Ok(made)
}

/// An expression, if there is one.
#[cycle(erase)]
pub fn erased_maybe(alloc: Global, node: &Option<Node>) -> Result<Option<Box<Node>>, NoMemory>
    ensures { IfOk result (λ n. boxed_node n ≡ erased_maybe (maybe_node node.now)) }
{
    match node {
        None => Ok(None),
        Some(node) => Ok(Some(erased(alloc, node)?)),
    }
}

// ---- types

#[cycle(erase)]
#[tactic(auto, using(std::proofs::lemmas::Grind::common_steps, c_syntax::proofs::Open::type_open))]
fn erased_type(alloc: Global, name: &TypeName) -> Result<TypeName, NoMemory>
    ensures { IfOk result (λ t. type_shape t ≡ erased_type (type_shape name.now)) }
{
    let specs = erased_specs(alloc, &name.specs)?;
    let stars = copy_stars(alloc, &name.stars)?;
    let lengths = erased_type_lengths(alloc, &name.lengths)?;
    Ok(new_type(name.pos, specs, stars, lengths))
}

#[cycle(erase)]
fn erased_type_lengths(alloc: Global, nodes: &[Node]) -> Result<Vec<Node>, NoMemory>
    ensures { IfOk result (λ v. type_lengths_list v.items ≡ erased_lengths (type_lengths_list nodes.now)) }
{
    let mut made = Vec::new(alloc);
    for node in nodes {
        let inner = erased(alloc, node)?;
        put_inner(&mut made, inner)?;
    }
    Ok(made)
}

/// Specifiers.
#[cycle(erase)]
pub fn erased_specs(alloc: Global, specs: &[Spec]) -> Result<Vec<Spec>, NoMemory>
    ensures { IfOk result (λ v. spec_list v.items ≡ erased_specs (spec_list specs.now)) }
{
    let mut made = Vec::new(alloc);
    for spec in specs {
        let form = erased_spec(alloc, &spec.form)?;
        put(
            &mut made,
            Spec {
                pos: spec.pos,
                form,
            },
        )?;
    }
    Ok(made)
}

#[cycle(erase)]
fn erased_spec(alloc: Global, form: &SpecForm) -> Result<SpecForm, NoMemory>
    ensures { IfOk result (λ f. spec_shape f ≡ erased_spec (spec_shape form.now)) }
{
    match form {
        SpecForm::Plain(key) => Ok(SpecForm::Plain(*key)),
        SpecForm::Struct(name, list) => {
            let name = erased_maybe_name(alloc, name)?;
            match list {
                None => Ok(new_struct(name, None)),
                Some(decls) => {
                    let decls = erased_decls(alloc, decls)?;
                    Ok(new_struct(name, Some(decls)))
                }
            }
        }
        SpecForm::Enum(name, list) => {
            let name = erased_maybe_name(alloc, name)?;
            match list {
                None => Ok(new_enum(name, None)),
                Some(rows) => {
                    let rows = erased_enumers(alloc, rows)?;
                    Ok(new_enum(name, Some(rows)))
                }
            }
        }
    }
}

#[cycle(erase)]
fn erased_enumers(alloc: Global, rows: &[Enumer]) -> Result<Vec<Enumer>, NoMemory>
    ensures { IfOk result (λ v. enumer_list v.items ≡ erased_enumers (enumer_list rows.now)) }
{
    let mut made = Vec::new(alloc);
    for row in rows {
        let name = erased_name(alloc, &row.name)?;
        let value = erased_maybe(alloc, &row.value)?;
        put(&mut made, new_enumer(name, unboxed_node(value)))?;
    }
    Ok(made)
}

// ---- declarations

/// Declarations.
#[cycle(erase)]
pub fn erased_decls(alloc: Global, decls: &[Decl]) -> Result<Vec<Decl>, NoMemory>
    ensures { IfOk result (λ v. decl_list v.items ≡ erased_decls (decl_list decls.now)) }
{
    let mut made = Vec::new(alloc);
    for decl in decls {
        let inner = erased_decl(alloc, decl)?;
        put(&mut made, inner)?;
    }
    Ok(made)
}

/// A declaration.
#[cycle(erase)]
#[tactic(auto, using(std::proofs::lemmas::Grind::common_steps, c_syntax::proofs::Open::decl_open))]
pub fn erased_decl(alloc: Global, decl: &Decl) -> Result<Decl, NoMemory>
    ensures { IfOk result (λ d. decl_shape d ≡ erased_decl (decl_shape decl.now)) }
{
    let specs = erased_specs(alloc, &decl.specs)?;
    let names = erased_declarators(alloc, &decl.names)?;
    Ok(new_decl(decl.pos, specs, names))
}

#[cycle(erase)]
fn erased_declarators(alloc: Global, names: &[Declarator]) -> Result<Vec<Declarator>, NoMemory>
    ensures { IfOk result (λ v. declarator_list v.items ≡ erased_declarators (declarator_list names.now)) }
{
    let mut made = Vec::new(alloc);
    for name in names {
        let inner = erased_declarator(alloc, name)?;
        put_inner(&mut made, inner)?;
    }
    Ok(made)
}

/// A declarator and its initialiser.
#[cycle(erase)]
pub fn erased_declarator(alloc: Global, name: &Declarator) -> Result<Box<Declarator>, NoMemory>
    ensures { IfOk result (λ d. declarator_shape d.value ≡ erased_declarator (declarator_shape name.now)) }
{
    let stars = copy_stars(alloc, &name.stars)?;
    let named = erased_maybe_name(alloc, &name.name)?;
    let init = erased_maybe_init(alloc, &name.init)?;
    let form = erased_behind(alloc, &name.form)?;
    new_declarator(alloc, stars, named, form, init)
}

// What stands behind a declared name.
#[cycle(erase)]
fn erased_behind(alloc: Global, form: &DeclForm) -> Result<Box<DeclForm>, NoMemory>
    ensures { IfOk result (λ f. decl_form_shape f.value ≡ erased_behind (decl_form_shape form.now)) }
{
    match form {
        DeclForm::Arrays(lengths) => erased_arrays(alloc, lengths),
        DeclForm::Function(list) => {
            let list = erased_params(alloc, list)?;
            boxed(alloc, DeclForm::Function(list))
        }
    }
}

#[cycle(erase)]
fn erased_arrays(alloc: Global, lengths: &[Option<Node>]) -> Result<Box<DeclForm>, NoMemory>
    ensures { IfOk result (λ f. decl_form_shape f.value ≡ arrays (erased_lengths (lengths_list lengths.now))) }
{
    let lengths = erased_lengths(alloc, lengths)?;
    boxed(alloc, new_arrays(lengths))
}

#[cycle(erase)]
fn erased_lengths(alloc: Global, lengths: &[Option<Node>]) -> Result<Vec<Option<Node>>, NoMemory>
    ensures { IfOk result (λ v. lengths_list v.items ≡ erased_lengths (lengths_list lengths.now)) }
{
    let mut made = Vec::new(alloc);
    for length in lengths {
        match length {
            None => put(&mut made, None)?,
            Some(node) => {
                let inner = erased(alloc, node)?;
                put(&mut made, Some(Box::into_inner(inner)))?;
            }
        }
    }
    Ok(made)
}

#[cycle(erase)]
fn erased_params(alloc: Global, list: &Params) -> Result<Params, NoMemory>
    ensures { IfOk result (λ l. params_shape l ≡ erased_params (params_shape list.now)) }
{
    match list {
        Params::Empty => Ok(Params::Empty),
        Params::Void => Ok(Params::Void),
        Params::List(list) => erased_param_list(alloc, list),
    }
}

#[cycle(erase)]
fn erased_param_list(alloc: Global, list: &[Param]) -> Result<Params, NoMemory>
    ensures { IfOk result (λ l. params_shape l ≡ params (erased_decls (param_list list.now))) }
{
    let mut made = Vec::new(alloc);
    for param in list {
        let inner = erased_param(alloc, param)?;
        put_inner(&mut made, inner)?;
    }
    Ok(new_params(made))
}

#[cycle(erase)]
#[tactic(auto, using(std::proofs::lemmas::Grind::common_steps, c_syntax::proofs::Open::param_open))]
fn erased_param(alloc: Global, param: &Param) -> Result<Box<Param>, NoMemory>
    ensures { IfOk result (λ p. param_shape p.value ≡ erased_decl (param_shape param.now)) }
{
    let specs = erased_specs(alloc, &param.specs)?;
    let name = erased_declarator(alloc, &param.name)?;
    new_param(alloc, param.pos, specs, name)
}

// ---- initialisers

#[cycle(erase)]
fn erased_maybe_init(alloc: Global, init: &Option<Init>) -> Result<Option<Box<Init>>, NoMemory>
    ensures { IfOk result (λ i. boxed_init i ≡ erased_maybe_init (maybe_init init.now)) }
{
    match init {
        None => Ok(None),
        Some(init) => Ok(Some(erased_init(alloc, init)?)),
    }
}

#[cycle(erase)]
fn erased_init(alloc: Global, init: &Init) -> Result<Box<Init>, NoMemory>
    ensures { IfOk result (λ i. init_shape i.value ≡ erased_init (init_shape init.now)) }
{
    match init {
        Init::One(node) => {
            let node = erased(alloc, node)?;
            boxed(alloc, Init::One(Box::into_inner(node)))
        }
        Init::List(pos, list, last) => erased_init_list(alloc, *pos, list, *last),
    }
}

#[cycle(erase)]
fn erased_init_list(
    alloc: Global,
    pos: Pos,
    list: &[Init],
    last: bool,
) -> Result<Box<Init>, NoMemory>
    ensures { IfOk result (λ i. init_shape i.value ≡ listed pos (erased_inits (init_list list.now)) last) }
{
    let mut made = Vec::new(alloc);
    for init in list {
        let inner = erased_init(alloc, init)?;
        put_inner(&mut made, inner)?;
    }
    boxed(alloc, new_list(pos, made, last))
}
