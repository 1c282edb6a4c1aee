// The items of a program (C89, 3.7).

ghost use Rattle.std.specs.Prelude.{◌≡◌, map, OnOk, IfOk};
ghost use Rattle.c_syntax.specs.View.{declarator_shape, declarator_list, decl_shape, param_shape, param_list, params_shape, decl_form_shape, compound_shape, external_shape, unit_shape};
ghost use Rattle.c_tables.specs.Tables.{tables_shape, function_shape};
ghost use Rattle.c_tables.specs.Rows.{text_of};
ghost use Rattle.c_walk.specs.ItemView.{item_shape};
ghost use Rattle.c_walk.specs.Sound.{AreSound};
ghost use Rattle.c_walk.specs.Units.{define_declarator, define_declarators, define_decl, define_decls, define_params, define_parameters, has_body, function_of, walk_function, walk_external, items_of};
ghost use Rattle.c_walk.specs.WalkerView.{walked};

use crate::around::Around;
use crate::items::Item;
use crate::stating::{put_whole_def, walk_compound};
use crate::walker::Walker;
use c_base::place::NoMemory;
use c_syntax::tree::{Compound, Decl, DeclForm, Declarator, External, Named, Param, Params, Unit};
use c_tables::tables::{FunctionRow, Tables};
use std::alloc::Global;

// ---- variables that their declarators define

fn define_declarator(
    out: &mut Walker,
    tables: &Tables,
    function: u32,
    name: &Declarator,
) -> Result<(), NoMemory>
    ensures { OnOk result (walked out.new ≡ define_declarator (tables_shape tables.now) function (declarator_shape name.now) (walked out.old)) }
{
    match &name.form {
        DeclForm::Arrays(_) => {
            out.declare()?;
            put_whole_def(out, tables, function, &name.name)
        }
        DeclForm::Function(_) => Ok(()),
    }
}

fn define_declarators(
    out: &mut Walker,
    tables: &Tables,
    function: u32,
    names: &[Declarator],
) -> Result<(), NoMemory>
    ensures { OnOk result (walked out.new ≡ define_declarators (tables_shape tables.now) function (declarator_list names.now) (walked out.old)) }
{
    for name in names {
        define_declarator(out, tables, function, name)?;
    }
    Ok(())
}

#[tactic(auto, using(c_syntax::proofs::Open::decl_open))]
fn define_decl(
    out: &mut Walker,
    tables: &Tables,
    function: u32,
    decl: &Decl,
) -> Result<(), NoMemory>
    ensures { OnOk result (walked out.new ≡ define_decl (tables_shape tables.now) function (decl_shape decl.now) (walked out.old)) }
{
    define_declarators(out, tables, function, &decl.names)
}

#[tactic(auto, using(c_syntax::proofs::Open::param_open))]
fn define_param(
    out: &mut Walker,
    tables: &Tables,
    function: u32,
    param: &Param,
) -> Result<(), NoMemory>
    ensures { OnOk result (walked out.new ≡ define_decl (tables_shape tables.now) function (param_shape param.now) (walked out.old)) }
{
    define_declarator(out, tables, function, &param.name)
}

fn define_param_list(
    out: &mut Walker,
    tables: &Tables,
    function: u32,
    list: &[Param],
) -> Result<(), NoMemory>
    ensures { OnOk result (walked out.new ≡ define_decls (tables_shape tables.now) function (param_list list.now) (walked out.old)) }
{
    for param in list {
        define_param(out, tables, function, param)?;
    }
    Ok(())
}

#[tactic(auto, using(c_syntax::proofs::Open::params_open))]
fn define_params(
    out: &mut Walker,
    tables: &Tables,
    function: u32,
    list: &Params,
) -> Result<(), NoMemory>
    ensures { OnOk result (walked out.new ≡ define_params (tables_shape tables.now) function (params_shape list.now) (walked out.old)) }
{
    match list {
        Params::List(list) => define_param_list(out, tables, function, list),
        Params::Empty | Params::Void => Ok(()),
    }
}

fn define_parameters(
    out: &mut Walker,
    tables: &Tables,
    function: u32,
    form: &DeclForm,
) -> Result<(), NoMemory>
    ensures { OnOk result (walked out.new ≡ define_parameters (tables_shape tables.now) function (decl_form_shape form.now) (walked out.old)) }
{
    match form {
        DeclForm::Function(list) => define_params(out, tables, function, list),
        DeclForm::Arrays(_) => Ok(()),
    }
}

// ---- functions

fn has_body(name: &[u8], row: &FunctionRow) -> bool
    ensures { result ≡ has_body name.now (function_shape row.now) }
{
    name == row.name.bytes() && row.defined.is_some()
}

// The number of the function of that name that has a body.
fn function_of(tables: &Tables, name: &[u8]) -> u32
    ensures { result ≡ function_of (tables_shape tables.now) name.now }
{
    for i in 0..tables.functions() {
        if has_body(name, tables.function(i + 1)) {
            return i + 1;
        }
    }
    0
}

fn function_named(tables: &Tables, name: &Option<Named>) -> u32
    ensures { result ≡ function_of (tables_shape tables.now) (text_of name.now) }
{
    match name {
        None => function_of(tables, b""),
        Some(name) => function_of(tables, name.text.bytes()),
    }
}

#[tactic(auto, using(c_syntax::proofs::Open::compound_open))]
fn walk_function(
    out: &mut Walker,
    tables: &Tables,
    function: u32,
    form: &DeclForm,
    body: &Compound,
) -> Result<(), NoMemory>
    ensures { OnOk result (walked out.new ≡ walk_function (tables_shape tables.now) function (decl_form_shape form.now) (compound_shape body.now) (walked out.old)) }
{
    define_parameters(out, tables, function, form)?;
    out.block(body.pos)?;
    let around = Around {
        function,
        owner: None,
    };
    walk_compound(out, tables, around, body)
}

fn walk_external(out: &mut Walker, tables: &Tables, external: &External) -> Result<(), NoMemory>
    ensures { OnOk result (walked out.new ≡ walk_external (tables_shape tables.now) (external_shape external.now) (walked out.old)) }
{
    match external {
        External::Function(_, name, _, body) => {
            let function = function_named(tables, &name.name);
            walk_function(out, tables, function, &name.form, body)
        }
        External::Plain(decl) => define_decl(out, tables, 0, decl),
    }
}

/// The items of a unit with these tables, in the order of its tree. An owner is the number of one of the decisions, and a
/// direct use is one of an integer or a pointer.
pub fn items_of(alloc: Global, tables: &Tables, unit: &Unit) -> Result<Vec<Item>, NoMemory>
    ensures items { IfOk result (λ items. map item_shape items.items ≡ items_of (tables_shape tables.now) (unit_shape unit.now)) }
    ensures sound { IfOk result (λ items. AreSound (map item_shape items.items)) }
{
    let mut out = Walker::new(alloc);
    for external in &unit.externals {
        walk_external(&mut out, tables, external)?;
    }
    Ok(out.into_items())
}
