// Enumerations (C89, 3.5.2.2).

ghost use Rattle.std.specs.Prelude.{◌≡◌, pos, Some, OnOk, IfOk};
ghost use Rattle.c_type_rules.specs.Kinds.{type_in};
ghost use Rattle.c_syntax.specs.Options.{maybe_rows};
ghost use Rattle.c_syntax.specs.Shape.{enum, rows};
ghost use Rattle.c_syntax.specs.View.{maybe_node, enumer_list};
ghost use Rattle.c_tree.specs.State.{step};
ghost use Rattle.c_tree.specs.Typing.{type_enum, rows_types, type_value};
ghost use Rattle.c_checker.specs.CheckerView.{state_of};
ghost use Rattle.c_syntax.specs.declared.tree.Enumer.{out-Enumer};
ghost use Rattle.c_types_expr.specs.Parts.{enumerated};

use crate::nodes::type_node;
use c_base::place::{IntKind, NoMemory, Pos};
use c_checker::checker::Checker;
use c_checker_parts::enumerators::{after, declare, entity_of, given_value, next_value};
use c_checker_parts::structures::kind_if;
use c_checker_parts::tags::{enumeration, step_tag};
use c_syntax::tree::{CType, Enumer, Named, Node};

/// Types the values in an enumeration in place, from its key on, and answers its type.
#[cycle(typing)]
pub fn type_enum(
    checker: &mut Checker,
    tag: &Option<Named>,
    enumers: &mut Option<Vec<Enumer>>,
) -> Result<Option<CType>, NoMemory>
    ensures tree { OnOk result (enum tag.now (maybe_rows enumers.new) ≡ (type_enum tag.now (maybe_rows enumers.old) (step (state_of checker.old))).spec) }
    ensures kind { IfOk result (λ k. type_in k ≡ (type_enum tag.now (maybe_rows enumers.old) (step (state_of checker.old))).kind) }
    ensures state { OnOk result (state_of checker.new ≡ (type_enum tag.now (maybe_rows enumers.old) (step (state_of checker.old))).state) }
{
    checker.step();
    let before = checker.complained();
    match enumers {
        None => {
            enumeration(checker, false, tag)?;
            let clean = before == checker.complained();
            step_tag(checker, tag);
            Ok(kind_if(clean, Some(CType::Int(IntKind::Int))))
        }
        Some(enumers) => {
            enumeration(checker, true, tag)?;
            step_tag(checker, tag);
            checker.step();
            rows_types(checker, enumers)?;
            let clean = before == checker.complained();
            Ok(kind_if(clean, Some(CType::Int(IntKind::Int))))
        }
    }
}

// Enumerators, each with the comma or the brace behind it.
#[cycle(typing)]
fn rows_types(checker: &mut Checker, enumers: &mut Vec<Enumer>) -> Result<(), NoMemory>
    ensures tree { OnOk result (enumer_list enumers.new.items ≡ (rows_types (Some (pos 0)) (enumer_list enumers.old.items) (state_of checker.old)).rows) }
    ensures state { OnOk result (state_of checker.new ≡ (rows_types (Some (pos 0)) (enumer_list enumers.old.items) (state_of checker.old)).state) }
{
    let mut next = Some(0);
    for i in 0..enumers.len() {
        next = type_row(checker, next, &mut enumers[i])?;
    }
    Ok(())
}

// An enumerator; the value of the next one.
#[cycle(typing)]
fn type_row(
    checker: &mut Checker,
    next: Option<i128>,
    row: &mut Enumer,
) -> Result<Option<i128>, NoMemory>
    ensures name { OnOk result ((out-Enumer row.new).name ≡ (out-Enumer row.old).name) }
    ensures tree { OnOk result (maybe_node (out-Enumer row.new).value ≡ (enumerated next (out-Enumer row.old).name (maybe_node (out-Enumer row.old).value) (state_of checker.old)).node) }
    ensures next { IfOk result (λ n. n ≡ (enumerated next (out-Enumer row.old).name (maybe_node (out-Enumer row.old).value) (state_of checker.old)).next) }
    ensures state { OnOk result (state_of checker.new ≡ (enumerated next (out-Enumer row.old).name (maybe_node (out-Enumer row.old).value) (state_of checker.old)).state) }
{
    let Enumer { name, value } = row;
    let token = checker.at;
    checker.step();
    let value = type_value(checker, token, name.pos, next, value)?;
    declare(
        checker,
        token,
        name.pos,
        name.text.bytes(),
        entity_of(value),
    )?;
    checker.step();
    Ok(after(value))
}

// The value of the enumerator that is that token.
#[cycle(typing)]
fn type_value(
    checker: &mut Checker,
    token: u32,
    place: Pos,
    next: Option<i128>,
    given: &mut Option<Node>,
) -> Result<Option<i32>, NoMemory>
    ensures tree { OnOk result (maybe_node given.new ≡ (type_value token place next (maybe_node given.old) (state_of checker.old)).node) }
    ensures value { IfOk result (λ v. v ≡ (type_value token place next (maybe_node given.old) (state_of checker.old)).value) }
    ensures state { OnOk result (state_of checker.new ≡ (type_value token place next (maybe_node given.old) (state_of checker.old)).state) }
{
    match given {
        None => {
            let value = next_value(checker, token, place, next)?;
            Ok(value)
        }
        Some(a) => {
            checker.step();
            let first = checker.at;
            let pos = a.pos;
            let sort = type_node(checker, a)?;
            let value = given_value(checker, first, pos, sort)?;
            Ok(value)
        }
    }
}
