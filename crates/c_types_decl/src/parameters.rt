// Parameters of functions (C89, 3.5.4.3 and 3.7.1).

ghost use Rattle.std.specs.Prelude.{◌≡◌, ◌+◌, ◌++◌, [], ◌∷◌, None, length, map, OnOk, IfOk};
ghost use Rattle.c_type_rules.specs.Kinds.{type_in};
ghost use Rattle.c_scopes.specs.Scoping.{find_here};
ghost use Rattle.c_syntax.specs.View.{type_of, spec_list, lengths_list, decl_form_shape, param_shape};
ghost use Rattle.c_tree.specs.Rulings.{kind_at};
ghost use Rattle.c_tables.specs.Rows.{text_of};
ghost use Rattle.c_tree.specs.Declaring.{with_parameter, declare_parameter, name_demand};
ghost use Rattle.c_checker.specs.CheckerView.{state_of};
ghost use Rattle.c_checker.specs.RulingView.{ruled_of};
ghost use Rattle.c_types_decl.specs.Steps.{settled_parameter, type_declared, type_parts, type_form, type_item};
ghost use Rattle.c_types_decl.specs.GivenView.{parameter_of};

use crate::functions::Parameter;
use crate::names::{claim_name, first_place, token_of_name};
use crate::rules::parameter_rule;
use crate::specifiers::type_specifiers;
use c_base::place::{NoMemory, Pos};
use c_checker::checker::Checker;
use c_checker::ruling::Ruling;
use c_checker::sort::copied;
use c_checker_parts::fields::name_pos;
use c_checker_parts::lengths::{pointed, step_stars};
use c_syntax::text::Text;
use c_syntax::tree::{CType, DeclForm, Named, Node, Param, Spec, Star};
use c_tree::complaints::{DECLARED_TWICE, STRAY, WRONG_TYPE};
use c_tree::meaning::Entity;
use c_types_expr::lengths::type_lengths;
use std::alloc::Global;

// Declares a parameter of that type in the present scope, which doesn't have its name; where it has no type, the name
// stands for nothing.
fn add_parameter(checker: &mut Checker, name: &Text, kind: Option<CType>) -> Result<(), NoMemory>
    requires { find_here name.now (state_of checker.old).names ≡ None }
    ensures { OnOk result (state_of checker.new ≡ with_parameter name.now (type_in kind) (state_of checker.old)) }
{
    match kind {
        None => checker.names.declare(name.bytes(), Entity::Unknown),
        Some(kind) => {
            let number = add_type(checker, kind)?;
            checker
                .names
                .declare(name.bytes(), Entity::Parameter(number))
        }
    }
}

// One more type of the list that is read: its number.
fn add_type(checker: &mut Checker, kind: CType) -> Result<u32, NoMemory>
    ensures number { IfOk result (λ n. n ≡ length (state_of checker.old).params + 1) }
    ensures state { OnOk result (state_of checker.new ≡ record (state_of checker.old) { params = (state_of checker.old).params ++ type_of kind ∷ [] }) }
    ensures names { checker.new.names ≡ checker.old.names }
{
    let before = checker.params.len();
    if before >= 4_294_967_295 {
        return Err(NoMemory);
    }
    match checker.params.push(kind) {
        Ok(()) => Ok(before as u32 + 1),
        Err(_) => Err(NoMemory),
    }
}

// Declares a parameter at that token, whose name, if it has one, is new in its scope.
fn declare_parameter(
    checker: &mut Checker,
    token: u32,
    name: &Option<Named>,
    kind: Option<CType>,
) -> Result<(), NoMemory>
    ensures { OnOk result (state_of checker.new ≡ declare_parameter token name.now (type_in kind) (state_of checker.old)) }
{
    match name {
        None => Ok(()),
        Some(name) => match checker.names.find_here(name.text.bytes()) {
            None => add_parameter(checker, &name.text, kind),
            Some(_) => checker.complain(DECLARED_TWICE, token, name.pos),
        },
    }
}

// A parameter of a definition has a name.
fn name_demand(
    checker: &mut Checker,
    defining: bool,
    name: &Option<Named>,
    token: u32,
    pos: Pos,
) -> Result<(), NoMemory>
    ensures { OnOk result (state_of checker.new ≡ name_demand defining name.now token pos (state_of checker.old)) }
{
    match (defining, name) {
        (true, None) => checker.complain(STRAY, token, pos),
        _ => Ok(()),
    }
}

// Declares the parameter as it was ruled, and answers its type.
fn settled_parameter(
    checker: &mut Checker,
    token: u32,
    pos: Pos,
    name: &Option<Named>,
    ruling: Ruling,
) -> Result<Option<CType>, NoMemory>
    ensures kind { IfOk result (λ k. type_in k ≡ kind_at (ruled_of ruling)) }
    ensures state { OnOk result (state_of checker.new ≡ settled_parameter token pos name.now (ruled_of ruling) (state_of checker.old)) }
{
    let kind = checker.rule(ruling, token, name_pos(pos, name))?;
    let row = copied(&kind, checker.alloc)?;
    declare_parameter(checker, token, name, row)?;
    Ok(kind)
}

// Declares a parameter that begins at that token, and in front of whose stars stands that type; its lengths are typed
// in place.
fn type_declared(
    checker: &mut Checker,
    defining: bool,
    first: u32,
    pos: Pos,
    kind: Option<CType>,
    stars: &[Star],
    name: &Option<Named>,
    lengths: &mut Vec<Option<Node>>,
) -> Result<Option<CType>, NoMemory>
    ensures tree { OnOk result (lengths_list lengths.new.items ≡ (type_declared defining first pos (type_in kind) stars.now name.now (lengths_list lengths.old.items) (state_of checker.old)).lengths) }
    ensures kind { IfOk result (λ k. type_in k ≡ (type_declared defining first pos (type_in kind) stars.now name.now (lengths_list lengths.old.items) (state_of checker.old)).kind) }
    ensures state { OnOk result (state_of checker.new ≡ (type_declared defining first pos (type_in kind) stars.now name.now (lengths_list lengths.old.items) (state_of checker.old)).state) }
{
    let kind = pointed(stars, kind, checker.alloc)?;
    step_stars(checker, stars);
    let token = token_of_name(checker, first, name);
    claim_name(checker, defining, name)?;
    let counts = type_lengths(checker, lengths)?;
    name_demand(checker, defining, name, first, pos)?;
    let ruling = parameter_rule(&checker.rooms, &counts, kind, checker.alloc)?;
    let kind = settled_parameter(checker, token, pos, name, ruling)?;
    Ok(kind)
}

// Types a parameter with arrays in place, and answers its type.
fn type_parts(
    checker: &mut Checker,
    defining: bool,
    pos: Pos,
    specs: &mut Vec<Spec>,
    stars: &[Star],
    name: &Option<Named>,
    lengths: &mut Vec<Option<Node>>,
) -> Result<Option<CType>, NoMemory>
    ensures specs { OnOk result (spec_list specs.new.items ≡ (type_parts defining pos (spec_list specs.old.items) stars.now name.now (lengths_list lengths.old.items) (state_of checker.old)).specs) }
    ensures lengths { OnOk result (lengths_list lengths.new.items ≡ (type_parts defining pos (spec_list specs.old.items) stars.now name.now (lengths_list lengths.old.items) (state_of checker.old)).lengths) }
    ensures kind { IfOk result (λ k. type_in k ≡ (type_parts defining pos (spec_list specs.old.items) stars.now name.now (lengths_list lengths.old.items) (state_of checker.old)).kind) }
    ensures state { OnOk result (state_of checker.new ≡ (type_parts defining pos (spec_list specs.old.items) stars.now name.now (lengths_list lengths.old.items) (state_of checker.old)).state) }
{
    let first = checker.at;
    let kind = type_specifiers(checker, false, pos, specs)?;
    let kind = type_declared(checker, defining, first, pos, kind, stars, name, lengths)?;
    Ok(kind)
}

// The parameter stands behind the others.
fn give(
    given: &mut Vec<Parameter>,
    name: &Option<Named>,
    kind: Option<CType>,
    alloc: Global,
) -> Result<(), NoMemory>
    ensures { OnOk result (map parameter_of given.new.items ≡ map parameter_of given.old.items ++ (text_of name.now, type_in kind) ∷ []) }
{
    let name = copied_text(name, alloc)?;
    match given.push(Parameter { name, kind }) {
        Ok(()) => Ok(()),
        Err(_) => Err(NoMemory),
    }
}

// The text of a name once more, which is empty where there is none.
fn copied_text(name: &Option<Named>, alloc: Global) -> Result<Text, NoMemory>
    ensures { IfOk result (λ t. t ≡ text_of name.now) }
{
    match name {
        None => Ok(Text::new(alloc)),
        Some(name) => name.text.copy(alloc),
    }
}

// Types the parts of a declaration of a parameter list in place; the parameter that it gives stands behind the others.
#[tactic(auto, using(c_syntax::proofs::Open::arrays_open))]
fn type_form(
    checker: &mut Checker,
    defining: bool,
    pos: Pos,
    specs: &mut Vec<Spec>,
    stars: &[Star],
    name: &Option<Named>,
    form: &mut DeclForm,
    given: &mut Vec<Parameter>,
) -> Result<(), NoMemory>
    ensures specs { OnOk result (spec_list specs.new.items ≡ (type_form defining pos (spec_list specs.old.items) stars.now name.now (decl_form_shape form.old) (state_of checker.old)).specs) }
    ensures form { OnOk result (decl_form_shape form.new ≡ (type_form defining pos (spec_list specs.old.items) stars.now name.now (decl_form_shape form.old) (state_of checker.old)).form) }
    ensures given { OnOk result (map parameter_of given.new.items ≡ map parameter_of given.old.items ++ (type_form defining pos (spec_list specs.old.items) stars.now name.now (decl_form_shape form.old) (state_of checker.old)).given) }
    ensures state { OnOk result (state_of checker.new ≡ (type_form defining pos (spec_list specs.old.items) stars.now name.now (decl_form_shape form.old) (state_of checker.old)).state) }
{
    match form {
        DeclForm::Arrays(lengths) => {
            let kind = type_parts(checker, defining, pos, specs, stars, name, lengths)?;
            give(given, name, kind, checker.alloc)?;
            Ok(())
        }
        DeclForm::Function(_) => {
            checker.complain(WRONG_TYPE, checker.at, first_place())?;
            Ok(())
        }
    }
}

/// Types a declaration of a parameter list in place; the parameter that it gives stands behind the others.
pub fn type_item(
    checker: &mut Checker,
    defining: bool,
    param: &mut Param,
    given: &mut Vec<Parameter>,
) -> Result<(), NoMemory>
    ensures tree { OnOk result (param_shape param.new ≡ (type_item defining (param_shape param.old) (state_of checker.old)).param) }
    ensures given { OnOk result (map parameter_of given.new.items ≡ map parameter_of given.old.items ++ (type_item defining (param_shape param.old) (state_of checker.old)).given) }
    ensures state { OnOk result (state_of checker.new ≡ (type_item defining (param_shape param.old) (state_of checker.old)).state) }
{
    type_form(
        checker,
        defining,
        param.pos,
        &mut param.specs,
        &param.name.stars,
        &param.name.name,
        &mut param.name.form,
        given,
    )?;
    Ok(())
}
