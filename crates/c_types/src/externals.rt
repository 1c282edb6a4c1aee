// External declarations (C89, 3.7).

ghost use Rattle.std.specs.Prelude.{◌≡◌, map, OnOk, IfOk};
ghost use Rattle.c_type_rules.specs.Kinds.{type_in};
ghost use Rattle.c_type_rules.specs.Verdicts.{result_type};
ghost use Rattle.c_syntax.specs.Shape.{defined, declarator, function, no_init};
ghost use Rattle.c_syntax.specs.View.{spec_list, declarator_shape, decl_form_shape, params_shape, compound_shape, external_shape};
ghost use Rattle.c_tree.specs.Rulings.{by, kind_at};
ghost use Rattle.c_tree.specs.Parts.{pointed};
ghost use Rattle.c_tree.specs.Units.{specs_place, type_external, type_externals};
ghost use Rattle.c_checker.specs.CheckerView.{state_of};
ghost use Rattle.c_types.specs.Defined.{typed_specs, kind_of_specs, behind_specs};
ghost use Rattle.c_tree.specs.Complaints.{wrong_type};

use crate::functions::type_definition;
use c_base::place::{NoMemory, Pos};
use c_checker::checker::Checker;
use c_checker::ruling::by;
use c_checker::sort::copied;
use c_checker_parts::lengths::pointed;
use c_syntax::tree::{
    CType, Compound, DeclForm, Declarator, External, Named, Params, ProbeMark, Spec, Star,
};
use c_tree::complaints::WRONG_TYPE;
use c_type_rules::storing::result_kind;
use c_types_decl::declarations::type_decl;
use c_types_decl::functions::type_function;
use c_types_decl::names::first_place;
use c_types_expr::specifiers::type_specs;
use std::alloc::Global;

// Where specifiers begin.
fn specs_place(specs: &[Spec]) -> Pos
    ensures { result ≡ specs_place (spec_list specs.now) }
{
    match specs.first() {
        None => first_place(),
        Some(spec) => spec.pos,
    }
}

// Types the specifiers of a function in place: the type that they mean, where no complaint stands inside.
fn type_heading(checker: &mut Checker, specs: &mut Vec<Spec>) -> Result<Option<CType>, NoMemory>
    ensures tree { OnOk result (spec_list specs.new.items ≡ (typed_specs (spec_list specs.old.items) (state_of checker.old)).specs) }
    ensures kind { IfOk result (λ k. type_in k ≡ kind_of_specs (spec_list specs.old.items) (state_of checker.old)) }
    ensures state { OnOk result (state_of checker.new ≡ behind_specs (spec_list specs.old.items) (state_of checker.old)) }
{
    let token = checker.at;
    let pos = specs_place(specs);
    let spelled = type_specs(checker, false, specs)?;
    let kind = checker.rule(spelled.ruling(), token, pos)?;
    Ok(kind)
}

// What a function gives, in front of whose stars stands that type.
fn given_by(stars: &[Star], kind: &Option<CType>, alloc: Global) -> Result<Option<CType>, NoMemory>
    ensures { IfOk result (λ k. type_in k ≡ kind_at (by wrong_type (result_type (pointed stars.now (type_in kind.now))))) }
{
    let kind = copied(kind, alloc)?;
    let kind = pointed(stars, kind, alloc)?;
    Ok(by(WRONG_TYPE, result_kind(kind)).kind())
}

// Types a function with a body in place.
fn type_defined(
    checker: &mut Checker,
    specs: &mut Vec<Spec>,
    stars: &[Star],
    name: &Option<Named>,
    params: &mut Params,
    marks: &[ProbeMark],
    body: &mut Compound,
) -> Result<(), NoMemory>
    ensures tree { OnOk result (defined (spec_list specs.new.items) (declarator stars.now name.now (function (params_shape params.new)) no_init) marks.now (compound_shape body.new) ≡ (type_external (defined (spec_list specs.old.items) (declarator stars.now name.now (function (params_shape params.old)) no_init) marks.now (compound_shape body.old)) (state_of checker.old)).external) }
    ensures state { OnOk result (state_of checker.new ≡ (type_external (defined (spec_list specs.old.items) (declarator stars.now name.now (function (params_shape params.old)) no_init) marks.now (compound_shape body.old)) (state_of checker.old)).state) }
{
    let kind = type_heading(checker, specs)?;
    let gives = given_by(stars, &kind, checker.alloc)?;
    let declared = type_function(checker, true, kind, stars, name, params)?;
    type_definition(checker, &declared, &gives, marks, body)?;
    Ok(())
}

// Types what has a body in place, behind whose name that stands; only a function has one.
fn type_behind(
    checker: &mut Checker,
    specs: &mut Vec<Spec>,
    stars: &[Star],
    name: &Option<Named>,
    form: &mut DeclForm,
    marks: &[ProbeMark],
    body: &mut Compound,
) -> Result<(), NoMemory>
    ensures tree { OnOk result (defined (spec_list specs.new.items) (declarator stars.now name.now (decl_form_shape form.new) no_init) marks.now (compound_shape body.new) ≡ (type_external (defined (spec_list specs.old.items) (declarator stars.now name.now (decl_form_shape form.old) no_init) marks.now (compound_shape body.old)) (state_of checker.old)).external) }
    ensures state { OnOk result (state_of checker.new ≡ (type_external (defined (spec_list specs.old.items) (declarator stars.now name.now (decl_form_shape form.old) no_init) marks.now (compound_shape body.old)) (state_of checker.old)).state) }
{
    match form {
        DeclForm::Arrays(_) => {
            checker.complain(WRONG_TYPE, checker.at, first_place())?;
            Ok(())
        }
        DeclForm::Function(params) => {
            type_defined(checker, specs, stars, name, params, marks, body)?;
            Ok(())
        }
    }
}

// Types a declarator with a body in place.
fn type_body(
    checker: &mut Checker,
    specs: &mut Vec<Spec>,
    name: &mut Declarator,
    marks: &[ProbeMark],
    body: &mut Compound,
) -> Result<(), NoMemory>
    ensures tree { OnOk result (defined (spec_list specs.new.items) (declarator_shape name.new) marks.now (compound_shape body.new) ≡ (type_external (defined (spec_list specs.old.items) (declarator_shape name.old) marks.now (compound_shape body.old)) (state_of checker.old)).external) }
    ensures state { OnOk result (state_of checker.new ≡ (type_external (defined (spec_list specs.old.items) (declarator_shape name.old) marks.now (compound_shape body.old)) (state_of checker.old)).state) }
{
    type_behind(
        checker,
        specs,
        &name.stars,
        &name.name,
        &mut name.form,
        marks,
        body,
    )?;
    Ok(())
}

/// Types an external declaration in place.
pub fn type_external(checker: &mut Checker, external: &mut External) -> Result<(), NoMemory>
    ensures tree { OnOk result (external_shape external.new ≡ (type_external (external_shape external.old) (state_of checker.old)).external) }
    ensures state { OnOk result (state_of checker.new ≡ (type_external (external_shape external.old) (state_of checker.old)).state) }
{
    match external {
        External::Function(specs, name, marks, body) => {
            type_body(checker, specs, name, marks, body)
        }
        External::Plain(decl) => type_decl(checker, decl),
    }
}

/// Types external declarations in place.
pub fn type_externals(checker: &mut Checker, externals: &mut Vec<External>) -> Result<(), NoMemory>
    ensures tree { OnOk result (map external_shape externals.new.items ≡ (type_externals (map external_shape externals.old.items) (state_of checker.old)).externals) }
    ensures state { OnOk result (state_of checker.new ≡ (type_externals (map external_shape externals.old.items) (state_of checker.old)).state) }
{
    for i in 0..externals.len() {
        type_external(checker, &mut externals[i])?;
    }
    Ok(())
}
