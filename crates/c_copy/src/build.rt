//! Parts of trees, made from what stands in them.

ghost use Rattle.std.specs.Prelude.{◌≡◌, IfOk};
ghost use Rattle.c_syntax.specs.declared.tree.Enumer.{out-Enumer};
ghost use Rattle.c_syntax.specs.Shape.{node, call, select, type_name, struct, enum, decl, no_declarators, more_declarators, declarator, arrays, function, params, one, listed};
ghost use Rattle.c_syntax.specs.View.{note_shape, expr_shape, node_shape, node_list, maybe_node, probe_shape, type_shape, type_lengths_list, spec_shape, spec_list, enumer_list, decl_shape, decl_list, declarator_shape, declarator_list, decl_form_shape, lengths_list, params_shape, param_shape, param_list, init_shape, init_list, maybe_init};
ghost use Rattle.c_syntax.specs.Options.{maybe_members, maybe_rows};
ghost use Rattle.c_copy.specs.Boxes.{boxed_init, boxed_node};

use crate::parts::boxed;
use c_base::place::{NoMemory, Pos};
use c_syntax::text::Text;
use c_syntax::tree::{
    Decl, DeclForm, Declarator, Enumer, Expr, ExprProbe, Init, Named, Node, Note, Param, Params,
    Spec, SpecForm, Star, TypeName,
};
use std::alloc::Global;

/// An expression.
pub fn new_node(
    alloc: Global,
    pos: Pos,
    op: Pos,
    note: Note,
    form: Expr,
) -> Result<Box<Node>, NoMemory>
    ensures { IfOk result (λ n. node_shape n.value ≡ node pos op (note_shape note) (expr_shape form)) }
{
    boxed(
        alloc,
        Node {
            pos,
            op,
            note,
            form,
        },
    )
}

/// An optional expression out of its box.
pub fn unboxed_node(node: Option<Box<Node>>) -> Option<Node>
    ensures { maybe_node result ≡ boxed_node node }
{
    match node {
        None => None,
        Some(node) => Some(Box::into_inner(node)),
    }
}

/// A call.
pub fn new_call(name: Text, args: Vec<Node>) -> Expr
    ensures { expr_shape result ≡ call name (node_list args.items) }
{
    Expr::Call(name, args)
}

/// A select probe with its case constants.
pub fn new_select(number: Text, cases: Vec<Node>) -> ExprProbe
    ensures { probe_shape result ≡ select number (node_list cases.items) }
{
    ExprProbe::Select(number, cases)
}

/// A type name.
pub fn new_type(pos: Pos, specs: Vec<Spec>, stars: Vec<Star>, lengths: Vec<Node>) -> TypeName
    ensures { type_shape result ≡ type_name pos (spec_list specs.items) stars.items (type_lengths_list lengths.items) }
{
    TypeName {
        pos,
        specs,
        stars,
        lengths,
    }
}

/// A structure with its member list, where it has one.
pub fn new_struct(name: Option<Named>, list: Option<Vec<Decl>>) -> SpecForm
    ensures { spec_shape result ≡ struct name (maybe_members list) }
{
    SpecForm::Struct(name, list)
}

/// An enumeration with its enumerators, where it has them.
pub fn new_enum(name: Option<Named>, list: Option<Vec<Enumer>>) -> SpecForm
    ensures { spec_shape result ≡ enum name (maybe_rows list) }
{
    SpecForm::Enum(name, list)
}

/// An enumerator with its value, where it has one.
pub fn new_enumer(name: Named, value: Option<Node>) -> Enumer
    ensures named { (out-Enumer result).name ≡ name }
    ensures valued { (out-Enumer result).value ≡ value }
{
    Enumer { name, value }
}

/// A declaration.
pub fn new_decl(pos: Pos, specs: Vec<Spec>, names: Vec<Declarator>) -> Decl
    ensures { decl_shape result ≡ decl pos (spec_list specs.items) (declarator_list names.items) }
{
    Decl { pos, specs, names }
}

/// A declarator with its initialiser, where it has one.
pub fn new_declarator(
    alloc: Global,
    stars: Vec<Star>,
    name: Option<Named>,
    form: Box<DeclForm>,
    init: Option<Box<Init>>,
) -> Result<Box<Declarator>, NoMemory>
    ensures { IfOk result (λ d. declarator_shape d.value ≡ declarator stars.items name (decl_form_shape form.value) (boxed_init init)) }
{
    let form = Box::into_inner(form);
    let init = unboxed(init);
    boxed(
        alloc,
        Declarator {
            stars,
            name,
            form,
            init,
        },
    )
}

// The initialiser out of its box.
fn unboxed(init: Option<Box<Init>>) -> Option<Init>
    ensures { maybe_init result ≡ boxed_init init }
{
    match init {
        None => None,
        Some(init) => Some(Box::into_inner(init)),
    }
}

// A parameter by value.
fn param_of(pos: Pos, specs: Vec<Spec>, name: Declarator) -> Param
    ensures { param_shape result ≡ decl pos (spec_list specs.items) (more_declarators (declarator_shape name) no_declarators) }
{
    Param { pos, specs, name }
}

/// A parameter.
pub fn new_param(
    alloc: Global,
    pos: Pos,
    specs: Vec<Spec>,
    name: Box<Declarator>,
) -> Result<Box<Param>, NoMemory>
    ensures { IfOk result (λ p. param_shape p.value ≡ decl pos (spec_list specs.items) (more_declarators (declarator_shape name.value) no_declarators)) }
{
    boxed(alloc, param_of(pos, specs, Box::into_inner(name)))
}

/// Array lengths.
pub fn new_arrays(lengths: Vec<Option<Node>>) -> DeclForm
    ensures { decl_form_shape result ≡ arrays (lengths_list lengths.items) }
{
    DeclForm::Arrays(lengths)
}

/// A list of parameters.
pub fn new_params(list: Vec<Param>) -> Params
    ensures { params_shape result ≡ params (param_list list.items) }
{
    Params::List(list)
}

/// A list of initialisers in braces, and whether a comma stands before the closing brace.
pub fn new_list(pos: Pos, list: Vec<Init>, last: bool) -> Init
    ensures { init_shape result ≡ listed pos (init_list list.items) last }
{
    Init::List(pos, list, last)
}
