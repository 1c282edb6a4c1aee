// The member lists of structures (C89, 3.5.2.1).

ghost use Rattle.std.specs.Prelude.{◌≡◌, ◌-◌, true, map, Some, OnOk, IfOk};
ghost use Rattle.c_type_rules.specs.Kinds.{type_in};
ghost use Rattle.c_type_rules.specs.Layouts.{measure_of, measures, structure_measure};
ghost use Rattle.c_syntax.specs.View.{type_of};
ghost use Rattle.c_tables.specs.Tables.{field_shape, tables_shape, changed_at, with_fields};
ghost use Rattle.c_tree.specs.Parts.{begun_at, closed, structure_kind, kind_if};
ghost use Rattle.c_checker.specs.CheckerView.{state_of};

use c_base::place::NoMemory;
use c_checker::checker::Checker;
use c_syntax::tree::CType;
use c_tables::tables::{FieldRow, Tables};
use c_type_rules::extent::Measured;
use c_type_rules::kinds::copy;
use c_type_rules::layout::structure_measured;
use std::alloc::Global;

/// The member list of the structure with that number begins.
pub fn begun_at(checker: &mut Checker, number: Option<u32>)
    ensures { state_of checker.new ≡ begun_at number (state_of checker.old) }
{
    if let Some(number) = number {
        set_begun(&mut checker.begun, number);
    }
}

// The row with that number is set.
#[tactic(auto, using(crate::proofs::Rows::begun_set, crate::proofs::Rows::begun_stays))]
fn set_begun(begun: &mut [bool], number: u32)
    ensures { begun.new ≡ changed_at (λ b. true) (number - 1) begun.old }
{
    let i = (number as usize).saturating_sub(1);
    if i < begun.len() {
        begun[i] = true;
    }
}

/// The member list of the structure with that number is complete.
pub fn closed(
    checker: &mut Checker,
    number: Option<u32>,
    fields: Vec<FieldRow>,
) -> Result<(), NoMemory>
    ensures { OnOk result (state_of checker.new ≡ closed number (map field_shape fields.items) (state_of checker.old)) }
{
    match number {
        None => Ok(()),
        Some(number) => closed_at(checker, number, fields),
    }
}

// The structure with that number has these members, and their room.
fn closed_at(checker: &mut Checker, number: u32, fields: Vec<FieldRow>) -> Result<(), NoMemory>
    ensures { OnOk result (state_of checker.new ≡ closed (Some number) (map field_shape fields.items) (state_of checker.old)) }
{
    let kinds = kinds_of(&fields, checker.alloc)?;
    let room = structure_measured(&kinds, &checker.rooms);
    set_room(&mut checker.rooms, number, room);
    set_fields(&mut checker.tables, number, fields);
    Ok(())
}

// The row with that number has these members.
fn set_fields(tables: &mut Tables, number: u32, fields: Vec<FieldRow>)
    ensures { tables_shape tables.new ≡ with_fields number (map field_shape fields.items) (tables_shape tables.old) }
{
    let row = number.saturating_sub(1);
    if row < tables.structures() {
        tables.set_fields(row + 1, fields);
    }
}

// The row with that number has that room.
fn set_room(rooms: &mut [Measured], number: u32, room: Measured)
    ensures { measures rooms.new ≡ changed_at (λ m. measure_of room) (number - 1) (measures rooms.old) }
{
    let i = (number as usize).saturating_sub(1);
    if i < rooms.len() {
        rooms[i] = room;
    }
}

// The types of the fields, once more.
fn kinds_of(fields: &[FieldRow], alloc: Global) -> Result<Vec<CType>, NoMemory>
    ensures { IfOk result (λ v. map type_of v.items ≡ map (λ f. f.kind) (map field_shape fields.now)) }
{
    let mut kinds = Vec::new(alloc);
    for i in 0..fields.len() {
        let kind = copy(&fields[i].kind, alloc)?;
        if kinds.push(kind).is_err() {
            return Err(NoMemory);
        }
    }
    Ok(kinds)
}

/// The type of the structure with that number.
pub fn structure_kind(number: Option<u32>) -> Option<CType>
    ensures { type_in result ≡ structure_kind number }
{
    match number {
        None => None,
        Some(number) => Some(CType::Struct(number)),
    }
}

/// The type, if the test holds.
pub fn kind_if(test: bool, kind: Option<CType>) -> Option<CType>
    ensures { type_in result ≡ kind_if test (type_in kind) }
{
    if test { kind } else { None }
}
