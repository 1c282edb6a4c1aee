// The cells of an object whose scalars are zero or null (C89, 3.5.7).

ghost use Rattle.std.specs.Prelude.{◌≡◌, ◌++◌, [], ◌∷◌, map, replicate, IfSome, OnOk};
ghost use Rattle.c_syntax.specs.View.{type_of};
ghost use Rattle.c_tables.specs.Tables.{tables_shape, field_shape};
ghost use Rattle.c_tables.specs.Rows.{row, fields_in};
ghost use Rattle.c_meaning.specs.Layout.{field_scalars, scalars_to, zero_of, zeros};
ghost use Rattle.c_meaning.specs.Constants.{all_zeros};
ghost use Rattle.c_compute.specs.Sizes.{element, elements};
ghost use Rattle.c_compute.specs.Cells.{element_scalars};

use c_base::place::NoMemory;
use c_store::value::Value;
use c_syntax::tree::CType;
use c_tables::tables::{FieldRow, Tables};

/// Appends those of an object of the type.
pub fn push_zeros(
    cells: &mut Vec<Option<Value>>,
    tables: &Tables,
    kind: &CType,
) -> Result<(), NoMemory>
    ensures { OnOk result (cells.new.items ≡ cells.old.items ++ zeros (tables_shape tables.now) (type_of kind.now)) }
{
    push_scalars(cells, tables, u64::from(tables.structures()) + 1, kind)
}

/// Appends those of so many objects of the type.
pub fn push_many_zeros(
    cells: &mut Vec<Option<Value>>,
    tables: &Tables,
    kind: &CType,
    count: u32,
) -> Result<(), NoMemory>
    ensures { OnOk result (cells.new.items ≡ cells.old.items ++ all_zeros (tables_shape tables.now) (replicate count (type_of kind.now))) }
{
    let mut left = count;
    while left > 0 {
        push_zeros(cells, tables, kind)?;
        left -= 1;
    }
    Ok(())
}

/// Appends those of fields.
pub fn push_field_zeros(
    cells: &mut Vec<Option<Value>>,
    tables: &Tables,
    fields: &[FieldRow],
) -> Result<(), NoMemory>
    ensures { OnOk result (cells.new.items ≡ cells.old.items ++ all_zeros (tables_shape tables.now) (map (λ f. f.kind) (map field_shape fields.now))) }
{
    for field in fields {
        push_zeros(cells, tables, &field.kind)?;
    }
    Ok(())
}

/// Appends one cell.
#[inline(always)]
pub fn push(cells: &mut Vec<Option<Value>>, cell: Option<Value>) -> Result<(), NoMemory>
    ensures { OnOk result (cells.new.items ≡ cells.old.items ++ cell ∷ []) }
{
    match cells.push(cell) {
        Ok(()) => Ok(()),
        Err(_) => Err(NoMemory),
    }
}

// Those of a type in which structures lie no deeper one in another than that.
#[cycle(zeros)]
#[tactic(auto, using(crate::proofs::Scalars::none_deep, crate::proofs::Scalars::scalars_deep))]
fn push_scalars(
    cells: &mut Vec<Option<Value>>,
    tables: &Tables,
    depth: u64,
    kind: &CType,
) -> Result<(), NoMemory>
    ensures { OnOk result (cells.new.items ≡ cells.old.items ++ map zero_of (scalars_to depth (tables_shape tables.now).structures (type_of kind.now))) }
{
    if depth == 0 {
        return Ok(());
    }
    let of = element(kind);
    let Some(count) = elements(kind) else {
        return Err(NoMemory);
    };
    let mut left = count;
    while left > 0 {
        push_element(cells, tables, depth - 1, of)?;
        left -= 1;
    }
    Ok(())
}

// Those of a type that is no array.
#[cycle(zeros)]
fn push_element(
    cells: &mut Vec<Option<Value>>,
    tables: &Tables,
    depth: u64,
    kind: &CType,
) -> Result<(), NoMemory>
    ensures { OnOk result (cells.new.items ≡ cells.old.items ++ map zero_of (element_scalars (scalars_to depth (tables_shape tables.now).structures) (tables_shape tables.now).structures (type_of kind.now))) }
{
    match kind {
        CType::Int(_) => push(cells, Some(Value::Int(0))),
        CType::Pointer(_) => push(cells, Some(Value::Null)),
        CType::Struct(number) => push_fields(cells, tables, depth, fields_of(tables, *number)),
        CType::Array(_, _) | CType::Void => Ok(()),
    }
}

#[cycle(zeros)]
fn push_fields(
    cells: &mut Vec<Option<Value>>,
    tables: &Tables,
    depth: u64,
    fields: &[FieldRow],
) -> Result<(), NoMemory>
    ensures { OnOk result (cells.new.items ≡ cells.old.items ++ map zero_of (field_scalars (scalars_to depth (tables_shape tables.now).structures) (map field_shape fields.now))) }
{
    for field in fields {
        push_scalars(cells, tables, depth, &field.kind)?;
    }
    Ok(())
}

/// The fields of a structure; none where no structure has that number.
#[tactic(auto, using(crate::proofs::Scalars::no_row))]
pub fn fields_of(tables: &Tables, number: u32) -> &[FieldRow]
    ensures { map field_shape result.now ≡ fields_in (row (tables_shape tables.now).structures number) }
{
    if number == 0 {
        return &[];
    }
    if number > tables.structures() {
        return &[];
    }
    &tables.structure(number).fields
}

// What an array's elements are, where these are no arrays; another type is its own.
fn element(kind: &CType) -> &CType
    ensures { type_of result.now ≡ element (type_of kind.now) }
{
    match kind {
        CType::Array(of, _) => element(of),
        CType::Int(_) | CType::Pointer(_) | CType::Struct(_) | CType::Void => kind,
    }
}

// How many such elements there are; None where there are too many to count.
fn elements(kind: &CType) -> Option<u64>
    ensures { IfSome result (λ n. n ≡ elements (type_of kind.now)) }
{
    match kind {
        CType::Array(of, length) => u64::from(*length).checked_mul(elements(of)?),
        CType::Int(_) | CType::Pointer(_) | CType::Struct(_) | CType::Void => Some(1),
    }
}
