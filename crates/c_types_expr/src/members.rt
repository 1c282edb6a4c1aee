// Member lists (C89, 3.5.2.1).

ghost use Rattle.std.specs.Prelude.{◌≡◌, [], OnOk, IfOk};
ghost use Rattle.c_type_rules.specs.Kinds.{type_in};
ghost use Rattle.c_syntax.specs.Shape.{decl};
ghost use Rattle.c_syntax.specs.View.{spec_list, decl_shape, decl_list, declarator_shape, declarator_list};
ghost use Rattle.c_tree.specs.Typing.{type_lines, type_fields};
ghost use Rattle.c_checker.specs.CheckerView.{state_of};
ghost use Rattle.c_types_expr.specs.MembersView.{fields_of};
ghost use Rattle.c_types_expr.specs.Parts.{lined, fielded};

use crate::fields::{Members, place_field};
use crate::lengths::type_lengths;
use crate::specifiers::{shaped, type_specs};
use c_base::place::{NoMemory, Pos};
use c_checker::checker::Checker;
use c_checker::sort::copied;
use c_checker_parts::fields::name_pos;
use c_checker_parts::lengths::step_stars;
use c_syntax::tree::{CType, Decl, DeclForm, Declarator, Spec};
use c_tree::complaints::WRONG_TYPE;

/// Types the lines of a member list in place, and answers its fields.
#[cycle(typing)]
pub fn type_lines(checker: &mut Checker, decls: &mut Vec<Decl>) -> Result<Members, NoMemory>
    ensures tree { OnOk result (decl_list decls.new.items ≡ (type_lines (decl_list decls.old.items) [] (state_of checker.old)).decls) }
    ensures fields { IfOk result (λ f. fields_of f ≡ (type_lines (decl_list decls.old.items) [] (state_of checker.old)).fields) }
    ensures state { OnOk result (state_of checker.new ≡ (type_lines (decl_list decls.old.items) [] (state_of checker.old)).state) }
{
    let mut fields = Members::new(checker.alloc);
    for i in 0..decls.len() {
        type_line(checker, &mut decls[i], &mut fields)?;
    }
    Ok(fields)
}

// A line of a member list, behind these fields.
#[cycle(typing)]
#[tactic(auto, using(c_syntax::proofs::Open::decl_open, c_syntax::proofs::Made::decl_made))]
fn type_line(checker: &mut Checker, line: &mut Decl, fields: &mut Members) -> Result<(), NoMemory>
    ensures tree { OnOk result (decl_shape line.new ≡ (lined (decl_shape line.old) (fields_of fields.old) (state_of checker.old)).decl) }
    ensures fields { OnOk result (fields_of fields.new ≡ (lined (decl_shape line.old) (fields_of fields.old) (state_of checker.old)).fields) }
    ensures state { OnOk result (state_of checker.new ≡ (lined (decl_shape line.old) (fields_of fields.old) (state_of checker.old)).state) }
{
    let Decl { pos, specs, names } = line;
    type_line_parts(checker, *pos, specs, names, fields)?;
    Ok(())
}

// The parts of a line.
#[cycle(typing)]
fn type_line_parts(
    checker: &mut Checker,
    pos: Pos,
    specs: &mut Vec<Spec>,
    names: &mut Vec<Declarator>,
    fields: &mut Members,
) -> Result<(), NoMemory>
    ensures tree { OnOk result (decl pos (spec_list specs.new.items) (declarator_list names.new.items) ≡ (lined (decl pos (spec_list specs.old.items) (declarator_list names.old.items)) (fields_of fields.old) (state_of checker.old)).decl) }
    ensures fields { OnOk result (fields_of fields.new ≡ (lined (decl pos (spec_list specs.old.items) (declarator_list names.old.items)) (fields_of fields.old) (state_of checker.old)).fields) }
    ensures state { OnOk result (state_of checker.new ≡ (lined (decl pos (spec_list specs.old.items) (declarator_list names.old.items)) (fields_of fields.old) (state_of checker.old)).state) }
{
    let token = checker.at;
    let spelled = type_specs(checker, false, specs)?;
    let kind = checker.rule(spelled.ruling(), token, pos)?;
    type_fields(checker, pos, &kind, names, fields)?;
    Ok(())
}

// Fields of what stands before their stars, each with the comma or the semicolon behind it.
#[cycle(typing)]
fn type_fields(
    checker: &mut Checker,
    pos: Pos,
    kind: &Option<CType>,
    names: &mut Vec<Declarator>,
    fields: &mut Members,
) -> Result<(), NoMemory>
    ensures tree { OnOk result (declarator_list names.new.items ≡ (type_fields pos (type_in kind.now) (declarator_list names.old.items) (fields_of fields.old) (state_of checker.old)).names) }
    ensures fields { OnOk result (fields_of fields.new ≡ (type_fields pos (type_in kind.now) (declarator_list names.old.items) (fields_of fields.old) (state_of checker.old)).fields) }
    ensures state { OnOk result (state_of checker.new ≡ (type_fields pos (type_in kind.now) (declarator_list names.old.items) (fields_of fields.old) (state_of checker.old)).state) }
{
    for i in 0..names.len() {
        type_field(checker, pos, kind, &mut names[i], fields)?;
    }
    Ok(())
}

// A field.
#[cycle(typing)]
#[tactic(auto, using(c_syntax::proofs::Open::arrays_open))]
fn type_field(
    checker: &mut Checker,
    pos: Pos,
    kind: &Option<CType>,
    name: &mut Declarator,
    fields: &mut Members,
) -> Result<(), NoMemory>
    ensures tree { OnOk result (declarator_shape name.new ≡ (fielded pos (type_in kind.now) (declarator_shape name.old) (fields_of fields.old) (state_of checker.old)).name) }
    ensures fields { OnOk result (fields_of fields.new ≡ (fielded pos (type_in kind.now) (declarator_shape name.old) (fields_of fields.old) (state_of checker.old)).fields) }
    ensures state { OnOk result (state_of checker.new ≡ (fielded pos (type_in kind.now) (declarator_shape name.old) (fields_of fields.old) (state_of checker.old)).state) }
{
    step_stars(checker, &name.stars);
    let token = checker.at;
    checker.step();
    match &mut name.form {
        DeclForm::Arrays(lengths) => {
            let counts = type_lengths(checker, lengths)?;
            let kind = copied(kind, checker.alloc)?;
            let kind = shaped(&name.stars, &counts, kind, checker.alloc)?;
            place_field(checker, token, pos, &name.name, kind, fields)?;
            Ok(())
        }
        DeclForm::Function(_) => {
            checker.complain(WRONG_TYPE, token, name_pos(pos, &name.name))?;
            Ok(())
        }
    }
}
