//! How many cells types have, and how many stand before a field.

ghost use Rattle.std.specs.Prelude.{◌≡◌, ◌*◌, ◌<◌, ◌≤◌, length, map, get_or, option_map, Some, OnOk, IfOk};
ghost use Rattle.c_syntax.specs.Shape.{TypeOf};
ghost use Rattle.c_syntax.specs.View.{type_of};
ghost use Rattle.c_tables.specs.Rows.{row, fields_in};
ghost use Rattle.c_tables.specs.Tables.{TablesShape, tables_shape, field_shape};
ghost use Rattle.c_meaning.specs.Layout.{cells, variable_kind, part_in, part_from};
ghost use Rattle.c_compute.specs.Sizes.{element, elements, element_count, field_count, scalar_count, IsMeasured};
ghost use Rattle.c_base.specs.Kept.{kept};
ghost use Rattle.c_compute.specs.Parts.{part_shape, kept_part};

use c_base::place::NoMemory;
use c_syntax::tree::CType;
use c_tables::tables::{FieldRow, Tables};

/// A field of a structure: how many cells stand before it, and its type (C89, 3.5.2.1).
#[derive(Clone, Copy, Drop)]
pub struct Part<'t> {
    pub offset: u32,
    pub kind: &'t CType,
}

/// How many cells an object of the type has, one for each of its scalars (C89, 3.1.2.5); 4,294,967,295 where it has more.
pub fn cells(tables: &Tables, kind: &CType) -> u32
    ensures { result ≡ kept (cells (tables_shape tables.now) (type_of kind.now)) }
{
    scalar_count(tables, u64::from(tables.structures()) + 1, kind)
}

/// The same of the variable of that number, which is counted once and kept in the table.
pub fn variable_cells(sizes: &mut Vec<u32>, tables: &Tables, variable: u32) -> Result<u32, NoMemory>
    requires numbered { (1 ≤ variable) × (variable ≤ length (tables_shape tables.now).variables) }
    requires measured { IsMeasured (tables_shape tables.now) sizes.old.items }
    ensures cells { IfOk result (λ n. (k : TypeOf) → variable_kind (tables_shape tables.now) variable ≡ Some k → n ≡ kept (cells (tables_shape tables.now) k)) }
    ensures measured { IsMeasured (tables_shape tables.now) sizes.new.items }
{
    let known = known_size(sizes, variable);
    if known != 0 {
        return Ok(known);
    }
    reach_size(sizes, variable)?;
    let counted = cells(tables, &tables.variable(variable).kind);
    sizes[variable as usize] = counted;
    Ok(counted)
}

// What the table has; 0 where that is nothing.
#[inline(always)]
fn known_size(sizes: &[u32], variable: u32) -> u32
    ensures { result ≡ get_or sizes.now variable 0 }
{
    match sizes.get(variable as usize) {
        Some(size) => *size,
        None => 0,
    }
}

// The table has a row for the variable of that number.
#[tactic(auto, using(crate::proofs::Measures::measured_grown))]
fn reach_size(sizes: &mut Vec<u32>, variable: u32) -> Result<(), NoMemory>
    ensures reached { OnOk result (variable < length sizes.new.items) }
    ensures measured { (t : TablesShape) → IsMeasured t sizes.old.items → IsMeasured t sizes.new.items }
{
    while sizes.len() <= variable as usize {
        match sizes.push(0) {
            Ok(()) => {}
            Err(_) => return Err(NoMemory),
        }
    }
    Ok(())
}

// The same of a type in which structures lie no deeper one in another than that.
#[cycle(counts)]
#[tactic(auto, using(crate::proofs::Sizes::none_deep, crate::proofs::Sizes::count_deep, crate::proofs::Sizes::kept_product))]
fn scalar_count(tables: &Tables, depth: u64, kind: &CType) -> u32
    ensures { result ≡ kept (scalar_count depth (tables_shape tables.now).structures (type_of kind.now)) }
{
    if depth == 0 {
        return 0;
    }
    product(
        elements(kind),
        element_count(tables, depth - 1, element(kind)),
    )
}

// Of a type that is no array.
#[cycle(counts)]
fn element_count(tables: &Tables, depth: u64, kind: &CType) -> u32
    ensures { result ≡ kept (element_count (scalar_count depth (tables_shape tables.now).structures) (tables_shape tables.now).structures (type_of kind.now)) }
{
    match kind {
        CType::Int(_) | CType::Pointer(_) => 1,
        CType::Struct(number) => structure_count(tables, depth, *number),
        CType::Array(_, _) | CType::Void => 0,
    }
}

#[cycle(counts)]
fn structure_count(tables: &Tables, depth: u64, number: u32) -> u32
    ensures { result ≡ kept (field_count (scalar_count depth (tables_shape tables.now).structures) (fields_in (row (tables_shape tables.now).structures number))) }
{
    if number == 0 || number > tables.structures() {
        return 0;
    }
    field_count(tables, depth, &tables.structure(number).fields)
}

#[cycle(counts)]
fn field_count(tables: &Tables, depth: u64, fields: &[FieldRow]) -> u32
    ensures { result ≡ kept (field_count (scalar_count depth (tables_shape tables.now).structures) (map field_shape fields.now)) }
{
    let mut count: u32 = 0;
    for field in fields {
        count = count.saturating_add(scalar_count(tables, depth, &field.kind));
    }
    count
}

// What an array's elements are, where these are no arrays; another type is its own.
fn element(kind: &CType) -> &CType
    ensures { type_of result.now ≡ element (type_of kind.now) }
{
    match kind {
        CType::Array(of, _) => element(of),
        CType::Int(_) | CType::Pointer(_) | CType::Struct(_) | CType::Void => kind,
    }
}

// How many such elements there are.
#[tactic(auto, using(crate::proofs::Sizes::kept_product))]
fn elements(kind: &CType) -> u32
    ensures { result ≡ kept (elements (type_of kind.now)) }
{
    match kind {
        CType::Array(of, length) => product(*length, elements(of)),
        CType::Int(_) | CType::Pointer(_) | CType::Struct(_) | CType::Void => 1,
    }
}

fn product(a: u32, b: u32) -> u32
    ensures { result ≡ kept (a * b) }
{
    a.saturating_mul(b)
}

/// The field of that name in a structure of that type; its offset is 4,294,967,295 where more cells stand before it. None
/// where there is no such field.
pub fn part_in<'t>(tables: &'t Tables, name: &[u8], kind: &CType) -> Option<Part<'t>>
    ensures { option_map part_shape result ≡ kept_part (part_in (tables_shape tables.now) name.now (type_of kind.now)) }
{
    match kind {
        CType::Struct(number) => part_of(tables, name, *number),
        CType::Int(_) | CType::Pointer(_) | CType::Array(_, _) | CType::Void => None,
    }
}

fn part_of<'t>(tables: &'t Tables, name: &[u8], number: u32) -> Option<Part<'t>>
    ensures { option_map part_shape result ≡ kept_part (part_from (tables_shape tables.now) 0 name.now (fields_in (row (tables_shape tables.now).structures number))) }
{
    if number == 0 || number > tables.structures() {
        return None;
    }
    part_among(tables, name, &tables.structure(number).fields)
}

fn part_among<'t>(tables: &Tables, name: &[u8], fields: &'t [FieldRow]) -> Option<Part<'t>>
    ensures { option_map part_shape result ≡ kept_part (part_from (tables_shape tables.now) 0 name.now (map field_shape fields.now)) }
{
    let mut offset: u32 = 0;
    for field in fields {
        if name == field.name.bytes() {
            return Some(Part {
                offset,
                kind: &field.kind,
            });
        }
        offset = offset.saturating_add(cells(tables, &field.kind));
    }
    None
}
