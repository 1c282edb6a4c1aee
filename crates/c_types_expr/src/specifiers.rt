// Type names and specifiers (C89, 3.5.2 and 3.5.5).

ghost use Rattle.std.specs.Prelude.{◌≡◌, map, OnOk, IfOk};
ghost use Rattle.c_type_rules.specs.Kinds.{type_in};
ghost use Rattle.c_syntax.specs.Options.{maybe_members};
ghost use Rattle.c_syntax.specs.Shape.{struct, type_name, members};
ghost use Rattle.c_syntax.specs.View.{type_shape, type_lengths_list, spec_shape, spec_list, decl_list};
ghost use Rattle.c_tree.specs.State.{step};
ghost use Rattle.c_tree.specs.Parts.{unspelled, pointed, arrays_of};
ghost use Rattle.c_tree.specs.Typing.{type_type, type_specs, type_struct};
ghost use Rattle.c_checker.specs.CheckerView.{state_of};
ghost use Rattle.c_checker_parts.specs.LengthView.{length_shape};
ghost use Rattle.c_checker_parts.specs.SpelledView.{spelled_of};
ghost use Rattle.c_types_expr.specs.Parts.{specified};

use crate::enumerators::type_enum;
use crate::lengths::type_name_lengths;
use crate::members::type_lines;
use c_base::place::{NoMemory, Pos};
use c_checker::checker::Checker;
use c_checker_parts::lengths::{Length, arrays_of, pointed, step_stars};
use c_checker_parts::specifiers::{Spelled, static_fits};
use c_checker_parts::structures::{begun_at, closed, kind_if, structure_kind};
use c_checker_parts::tags::{opened, step_tag};
use c_syntax::tree::{CType, Decl, Named, Node, Spec, SpecForm, Star, TypeName};
use c_tree::complaints::STRAY;
use std::alloc::Global;

/// Types the lengths, members and enumerators in a type name in place, and answers the type (C89, 3.5.5).
#[cycle(typing)]
#[tactic(auto, using(c_syntax::proofs::Open::type_open, c_syntax::proofs::Made::type_made))]
pub fn type_name(checker: &mut Checker, name: &mut TypeName) -> Result<Option<CType>, NoMemory>
    ensures tree { OnOk result (type_shape name.new ≡ (type_type (type_shape name.old) (state_of checker.old)).type) }
    ensures kind { IfOk result (λ k. type_in k ≡ (type_type (type_shape name.old) (state_of checker.old)).kind) }
    ensures state { OnOk result (state_of checker.new ≡ (type_type (type_shape name.old) (state_of checker.old)).state) }
{
    let TypeName {
        pos,
        specs,
        stars,
        lengths,
    } = name;
    let kind = type_spelled(checker, *pos, specs, stars, lengths)?;
    Ok(kind)
}

// The parts of a type name.
#[cycle(typing)]
fn type_spelled(
    checker: &mut Checker,
    pos: Pos,
    specs: &mut Vec<Spec>,
    stars: &[Star],
    lengths: &mut Vec<Node>,
) -> Result<Option<CType>, NoMemory>
    ensures tree { OnOk result (type_name pos (spec_list specs.new.items) stars.now (type_lengths_list lengths.new.items) ≡ (type_type (type_name pos (spec_list specs.old.items) stars.now (type_lengths_list lengths.old.items)) (state_of checker.old)).type) }
    ensures kind { IfOk result (λ k. type_in k ≡ (type_type (type_name pos (spec_list specs.old.items) stars.now (type_lengths_list lengths.old.items)) (state_of checker.old)).kind) }
    ensures state { OnOk result (state_of checker.new ≡ (type_type (type_name pos (spec_list specs.old.items) stars.now (type_lengths_list lengths.old.items)) (state_of checker.old)).state) }
{
    let token = checker.at;
    let spelled = type_specs(checker, false, specs)?;
    let kind = checker.rule(spelled.ruling(), token, pos)?;
    step_stars(checker, stars);
    let counts = type_name_lengths(checker, lengths)?;
    let kind = shaped(stars, &counts, kind, checker.alloc)?;
    Ok(kind)
}

/// Arrays of pointers to that type.
pub fn shaped(
    stars: &[Star],
    counts: &[Length],
    kind: Option<CType>,
    alloc: Global,
) -> Result<Option<CType>, NoMemory>
    ensures { IfOk result (λ k. type_in k ≡ arrays_of (map length_shape counts.now) (pointed stars.now (type_in kind))) }
{
    let kind = pointed(stars, kind, alloc)?;
    arrays_of(counts, kind, alloc)
}

/// Types the expressions in specifiers in place, and answers what the specifiers say; `alone` says that no declarator
/// follows.
#[cycle(typing)]
pub fn type_specs(
    checker: &mut Checker,
    alone: bool,
    specs: &mut Vec<Spec>,
) -> Result<Spelled, NoMemory>
    ensures tree { OnOk result (spec_list specs.new.items ≡ (type_specs alone (spec_list specs.old.items) unspelled (state_of checker.old)).specs) }
    ensures spelled { IfOk result (λ a. spelled_of a ≡ (type_specs alone (spec_list specs.old.items) unspelled (state_of checker.old)).spelled) }
    ensures state { OnOk result (state_of checker.new ≡ (type_specs alone (spec_list specs.old.items) unspelled (state_of checker.old)).state) }
{
    let mut spelled = Spelled::new();
    for i in 0..specs.len() {
        type_spec(checker, alone, &mut specs[i], &mut spelled)?;
    }
    Ok(spelled)
}

// A specifier.
#[cycle(typing)]
fn type_spec(
    checker: &mut Checker,
    alone: bool,
    spec: &mut Spec,
    spelled: &mut Spelled,
) -> Result<(), NoMemory>
    ensures pos { OnOk result (spec.new.pos ≡ spec.old.pos) }
    ensures tree { OnOk result (spec_shape spec.new.form ≡ (specified alone spec.old.pos (spec_shape spec.old.form) (spelled_of spelled.old) (state_of checker.old)).spec) }
    ensures spelled { OnOk result (spelled_of spelled.new ≡ (specified alone spec.old.pos (spec_shape spec.old.form) (spelled_of spelled.old) (state_of checker.old)).spelled) }
    ensures state { OnOk result (state_of checker.new ≡ (specified alone spec.old.pos (spec_shape spec.old.form) (spelled_of spelled.old) (state_of checker.old)).state) }
{
    let pos = spec.pos;
    match &mut spec.form {
        SpecForm::Plain(key) => {
            let fits = static_fits(*key, checker.file);
            checker.demand(fits, STRAY, checker.at, pos)?;
            checker.step();
            spelled.add_word(*key);
            Ok(())
        }
        SpecForm::Struct(tag, decls) => {
            let kind = type_struct(checker, alone, tag, decls)?;
            spelled.add_tagged(kind);
            Ok(())
        }
        SpecForm::Enum(tag, rows) => {
            let kind = type_enum(checker, tag, rows)?;
            spelled.add_tagged(kind);
            Ok(())
        }
    }
}

// A structure, from its key on.
#[cycle(typing)]
fn type_struct(
    checker: &mut Checker,
    alone: bool,
    tag: &Option<Named>,
    decls: &mut Option<Vec<Decl>>,
) -> Result<Option<CType>, NoMemory>
    ensures tree { OnOk result (struct tag.now (maybe_members decls.new) ≡ (type_struct alone tag.now (maybe_members decls.old) (step (state_of checker.old))).spec) }
    ensures kind { IfOk result (λ k. type_in k ≡ (type_struct alone tag.now (maybe_members decls.old) (step (state_of checker.old))).kind) }
    ensures state { OnOk result (state_of checker.new ≡ (type_struct alone tag.now (maybe_members decls.old) (step (state_of checker.old))).state) }
{
    checker.step();
    match decls {
        None => {
            let number = opened(checker, alone, false, tag)?;
            step_tag(checker, tag);
            Ok(structure_kind(number))
        }
        Some(decls) => {
            let kind = type_members(checker, alone, tag, decls)?;
            Ok(kind)
        }
    }
}

// A structure with its member list.
#[cycle(typing)]
fn type_members(
    checker: &mut Checker,
    alone: bool,
    tag: &Option<Named>,
    decls: &mut Vec<Decl>,
) -> Result<Option<CType>, NoMemory>
    ensures tree { OnOk result (struct tag.now (members (decl_list decls.new.items)) ≡ (type_struct alone tag.now (members (decl_list decls.old.items)) (state_of checker.old)).spec) }
    ensures kind { IfOk result (λ k. type_in k ≡ (type_struct alone tag.now (members (decl_list decls.old.items)) (state_of checker.old)).kind) }
    ensures state { OnOk result (state_of checker.new ≡ (type_struct alone tag.now (members (decl_list decls.old.items)) (state_of checker.old)).state) }
{
    let before = checker.complained();
    let number = opened(checker, alone, true, tag)?;
    begun_at(checker, number);
    step_tag(checker, tag);
    checker.step();
    let file = checker.file;
    checker.within();
    let fields = type_lines(checker, decls)?;
    let clean = before == checker.complained();
    closed(checker, number, fields.rows())?;
    checker.outside(file);
    checker.step();
    Ok(kind_if(clean, structure_kind(number)))
}
