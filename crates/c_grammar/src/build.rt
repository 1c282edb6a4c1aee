//! Parts of types and declarations, made of what stands in them.

ghost use Rattle.std.specs.Prelude.{◌≡◌, ◌≤◌, length, IfOk, IsErrOf};
ghost use Rattle.c_syntax.specs.declared.tree.Enumer.{out-Enumer};
ghost use Rattle.c_syntax.specs.Shape.{type_name, struct, enum, no_members, members, no_rows, rows, decl, no_declarators, declarator, more_declarators, no_init, one_init, arrays, function, params, one, listed};
ghost use Rattle.c_syntax.specs.View.{node_shape, type_shape, type_lengths_list, spec_shape, spec_list, enumer_list, decl_shape, decl_list, declarator_shape, declarator_list, decl_form_shape, lengths_list, params_shape, param_shape, param_list, init_shape, init_list};
ghost use Rattle.c_grammar.specs.ExprReader.{plain_name};

use crate::look::Stop;
use crate::nodes::copied;
use c_base::place::Pos;
use c_syntax::text::Text;
use c_syntax::tree::{
    Decl, DeclForm, Declarator, Enumer, Init, Named, Node, Param, Params, Spec, SpecForm, Star,
    TypeName,
};
use std::alloc::Global;

/// How many stars these are.
pub fn star_count(stars: &[Star]) -> u32
    requires { length stars.now ≤ 400 }
    ensures { result ≡ length stars.now }
{
    stars.len() as u32
}

/// A type name.
pub fn new_type(pos: Pos, specs: Vec<Spec>, stars: Vec<Star>, lengths: Vec<Node>) -> TypeName
    ensures { type_shape result ≡ type_name pos (spec_list specs.items) stars.items (type_lengths_list lengths.items) }
{
    TypeName {
        pos,
        specs,
        stars,
        lengths,
    }
}

/// A structure without a member list.
pub fn bare_struct(name: Option<Named>) -> SpecForm
    ensures { spec_shape result ≡ struct name no_members }
{
    SpecForm::Struct(name, None)
}

/// A structure with its member list.
pub fn new_struct(name: Option<Named>, list: Vec<Decl>) -> SpecForm
    ensures { spec_shape result ≡ struct name (members (decl_list list.items)) }
{
    SpecForm::Struct(name, Some(list))
}

/// An enumeration without enumerators.
pub fn bare_enum(name: Option<Named>) -> SpecForm
    ensures { spec_shape result ≡ enum name no_rows }
{
    SpecForm::Enum(name, None)
}

/// An enumeration with its enumerators.
pub fn new_enum(name: Option<Named>, list: Vec<Enumer>) -> SpecForm
    ensures { spec_shape result ≡ enum name (rows (enumer_list list.items)) }
{
    SpecForm::Enum(name, Some(list))
}

/// A name that stands at `pos`, without a probe.
pub fn bare_name(alloc: Global, pos: Pos, word: &Text) -> Result<Named, Stop>
    ensures ok { IfOk result (λ n. n ≡ plain_name pos word.now) }
    ensures err { IsErrOf result Stop.Syntax → ⊥ }
{
    let text = copied(alloc, word)?;
    Ok(Named {
        pos,
        text,
        probe: None,
    })
}

/// An enumerator with its value, where it has one.
pub fn new_enumer(name: Named, value: Option<Node>) -> Enumer
    ensures named { (out-Enumer result).name ≡ name }
    ensures valued { (out-Enumer result).value ≡ value }
{
    Enumer { name, value }
}

/// A declaration.
pub fn new_decl(pos: Pos, specs: Vec<Spec>, names: Vec<Declarator>) -> Decl
    ensures { decl_shape result ≡ decl pos (spec_list specs.items) (declarator_list names.items) }
{
    Decl { pos, specs, names }
}

/// A declaration without a declarator.
pub fn bare_decl(alloc: Global, pos: Pos, specs: Vec<Spec>) -> Decl
    ensures { decl_shape result ≡ decl pos (spec_list specs.items) no_declarators }
{
    new_decl(pos, specs, Vec::new(alloc))
}

/// A declarator without an initialiser.
pub fn bare_declarator(stars: Vec<Star>, name: Option<Named>, form: DeclForm) -> Declarator
    ensures { declarator_shape result ≡ declarator stars.items name (decl_form_shape form) no_init }
{
    Declarator {
        stars,
        name,
        form,
        init: None,
    }
}

/// A declarator with its initialiser.
pub fn new_declarator(
    stars: Vec<Star>,
    name: Option<Named>,
    form: DeclForm,
    init: Init,
) -> Declarator
    ensures { declarator_shape result ≡ declarator stars.items name (decl_form_shape form) (one_init (init_shape init)) }
{
    Declarator {
        stars,
        name,
        form,
        init: Some(init),
    }
}

/// A parameter.
pub fn new_param(pos: Pos, specs: Vec<Spec>, name: Declarator) -> Param
    ensures { param_shape result ≡ decl pos (spec_list specs.items) (more_declarators (declarator_shape name) no_declarators) }
{
    Param { pos, specs, name }
}

/// Array lengths.
pub fn new_arrays(lengths: Vec<Option<Node>>) -> DeclForm
    ensures { decl_form_shape result ≡ arrays (lengths_list lengths.items) }
{
    DeclForm::Arrays(lengths)
}

/// What stands behind the name of a function.
pub fn new_function(list: Params) -> DeclForm
    ensures { decl_form_shape result ≡ function (params_shape list) }
{
    DeclForm::Function(list)
}

/// A list of parameters.
pub fn new_params(list: Vec<Param>) -> Params
    ensures { params_shape result ≡ params (param_list list.items) }
{
    Params::List(list)
}

/// An initialiser that is an expression.
pub fn single_init(node: Box<Node>) -> Init
    ensures { init_shape result ≡ one (node_shape node.value) }
{
    Init::One(Box::into_inner(node))
}

/// A list of initialisers in braces, and whether a comma stands before the closing brace.
pub fn new_list(pos: Pos, list: Vec<Init>, last: bool) -> Init
    ensures { init_shape result ≡ listed pos (init_list list.items) last }
{
    Init::List(pos, list, last)
}
