// Declarations.

ghost use Rattle.std.specs.Prelude.{◌≡◌, OnOk};
ghost use Rattle.c_type_rules.specs.Kinds.{type_in};
ghost use Rattle.c_syntax.specs.Shape.{declarator, decl};
ghost use Rattle.c_syntax.specs.View.{spec_list, decl_shape, decl_list, decl_form_shape, declarator_shape, declarator_list, maybe_init};
ghost use Rattle.c_tree.specs.State.{steps};
ghost use Rattle.c_tree.specs.Declaring.{type_declarator, type_declarators, none_declared, semicolon, type_decl, type_decls};
ghost use Rattle.c_checker.specs.CheckerView.{state_of};

use crate::functions::type_function;
use crate::specifiers::type_specifiers;
use crate::variables::type_variable;
use c_base::place::{NoMemory, Pos};
use c_checker::checker::Checker;
use c_checker::sort::copied;
use c_syntax::tree::{CType, Decl, DeclForm, Declarator, Init, Named, Spec, Star};

// Types a declarator in place, in front of whose stars stands that type.
fn type_declarator(
    checker: &mut Checker,
    kind: &Option<CType>,
    declarator: &mut Declarator,
) -> Result<(), NoMemory>
    ensures tree { OnOk result (declarator_shape declarator.new ≡ (type_declarator (type_in kind.now) (declarator_shape declarator.old) (state_of checker.old)).name) }
    ensures state { OnOk result (state_of checker.new ≡ (type_declarator (type_in kind.now) (declarator_shape declarator.old) (state_of checker.old)).state) }
{
    type_form(
        checker,
        kind,
        &declarator.stars,
        &declarator.name,
        &mut declarator.form,
        &mut declarator.init,
    )?;
    Ok(())
}

// The same of its parts.
#[tactic(auto, using(c_syntax::proofs::Open::arrays_open))]
fn type_form(
    checker: &mut Checker,
    kind: &Option<CType>,
    stars: &[Star],
    name: &Option<Named>,
    form: &mut DeclForm,
    init: &mut Option<Init>,
) -> Result<(), NoMemory>
    ensures tree { OnOk result (declarator stars.now name.now (decl_form_shape form.new) (maybe_init init.new) ≡ (type_declarator (type_in kind.now) (declarator stars.now name.now (decl_form_shape form.old) (maybe_init init.old)) (state_of checker.old)).name) }
    ensures state { OnOk result (state_of checker.new ≡ (type_declarator (type_in kind.now) (declarator stars.now name.now (decl_form_shape form.old) (maybe_init init.old)) (state_of checker.old)).state) }
{
    match form {
        DeclForm::Arrays(lengths) => {
            type_variable(checker, kind, stars, name, lengths, init)?;
            Ok(())
        }
        DeclForm::Function(params) => {
            let kind = copied(kind, checker.alloc)?;
            let _declared = type_function(checker, false, kind, stars, name, params)?;
            Ok(())
        }
    }
}

// Types declarators in place, each with the comma or the semicolon behind it.
fn type_declarators(
    checker: &mut Checker,
    kind: &Option<CType>,
    names: &mut Vec<Declarator>,
) -> Result<(), NoMemory>
    ensures tree { OnOk result (declarator_list names.new.items ≡ (type_declarators (type_in kind.now) (declarator_list names.old.items) (state_of checker.old)).names) }
    ensures state { OnOk result (state_of checker.new ≡ (type_declarators (type_in kind.now) (declarator_list names.old.items) (state_of checker.old)).state) }
{
    for i in 0..names.len() {
        type_declarator(checker, kind, &mut names[i])?;
        checker.step();
    }
    Ok(())
}

// Whether there is no declarator.
fn none_declared(names: &[Declarator]) -> bool
    ensures { result ≡ none_declared (declarator_list names.now) }
{
    match names.split_first() {
        None => true,
        Some(_) => false,
    }
}

// Without a declarator a semicolon stands behind the specifiers.
fn step_semicolon(checker: &mut Checker, names: &[Declarator])
    ensures { state_of checker.new ≡ steps (semicolon (declarator_list names.now)) (state_of checker.old) }
{
    match names.split_first() {
        None => checker.steps(1),
        Some(_) => checker.steps(0),
    }
}

// Types the declarators behind specifiers that mean that type in place.
fn type_names(
    checker: &mut Checker,
    kind: Option<CType>,
    names: &mut Vec<Declarator>,
) -> Result<(), NoMemory>
    ensures tree { OnOk result (declarator_list names.new.items ≡ (type_declarators (type_in kind) (declarator_list names.old.items) (steps (semicolon (declarator_list names.old.items)) (state_of checker.old))).names) }
    ensures state { OnOk result (state_of checker.new ≡ (type_declarators (type_in kind) (declarator_list names.old.items) (steps (semicolon (declarator_list names.old.items)) (state_of checker.old))).state) }
{
    step_semicolon(checker, names);
    type_declarators(checker, &kind, names)
}

// Types the specifiers and the declarators of a declaration in place.
fn type_parts(
    checker: &mut Checker,
    pos: Pos,
    specs: &mut Vec<Spec>,
    names: &mut Vec<Declarator>,
) -> Result<(), NoMemory>
    ensures tree { OnOk result (decl pos (spec_list specs.new.items) (declarator_list names.new.items) ≡ (type_decl (decl pos (spec_list specs.old.items) (declarator_list names.old.items)) (state_of checker.old)).decl) }
    ensures state { OnOk result (state_of checker.new ≡ (type_decl (decl pos (spec_list specs.old.items) (declarator_list names.old.items)) (state_of checker.old)).state) }
{
    let alone = none_declared(names);
    let kind = type_specifiers(checker, alone, pos, specs)?;
    type_names(checker, kind, names)?;
    Ok(())
}

/// Types a declaration in place.
#[tactic(auto, using(c_syntax::proofs::Open::decl_open))]
pub fn type_decl(checker: &mut Checker, decl: &mut Decl) -> Result<(), NoMemory>
    ensures tree { OnOk result (decl_shape decl.new ≡ (type_decl (decl_shape decl.old) (state_of checker.old)).decl) }
    ensures state { OnOk result (state_of checker.new ≡ (type_decl (decl_shape decl.old) (state_of checker.old)).state) }
{
    type_parts(checker, decl.pos, &mut decl.specs, &mut decl.names)?;
    Ok(())
}

/// Types declarations in place.
pub fn type_decls(checker: &mut Checker, decls: &mut Vec<Decl>) -> Result<(), NoMemory>
    ensures tree { OnOk result (decl_list decls.new.items ≡ (type_decls (decl_list decls.old.items) (state_of checker.old)).decls) }
    ensures state { OnOk result (state_of checker.new ≡ (type_decls (decl_list decls.old.items) (state_of checker.old)).state) }
{
    for i in 0..decls.len() {
        type_decl(checker, &mut decls[i])?;
    }
    Ok(())
}
