//! Copies of the tables of a program.

ghost use Rattle.std.specs.Prelude.{◌≡◌, [], map, IfOk, OnOk};
ghost use Rattle.c_syntax.specs.View.{type_of};
ghost use Rattle.c_tables.specs.Tables.{tables_shape, field_shape, struct_shape, function_shape, variable_shape};

use c_base::place::NoMemory;
use c_copy::parts::put;
use c_syntax::text::Text;
use c_syntax::tree::CType;
use c_tables::tables::{
    FieldRow, FunctionRow, LiteralRow, NumberList, StructRow, Tables, VariableRow,
};
use c_type_rules::kinds::copy;
use std::alloc::Global;

// ---- rows

fn copy_maybe_text(alloc: Global, text: &Option<Text>) -> Result<Option<Text>, NoMemory>
    ensures { IfOk result (λ copied. copied ≡ text.now) }
{
    match text {
        None => Ok(None),
        Some(text) => Ok(Some(text.copy(alloc)?)),
    }
}

fn copy_field(alloc: Global, field: &FieldRow) -> Result<FieldRow, NoMemory>
    ensures { IfOk result (λ f. field_shape f ≡ field_shape field.now) }
{
    let name = field.name.copy(alloc)?;
    let kind = copy(&field.kind, alloc)?;
    Ok(FieldRow { name, kind })
}

fn copy_fields(alloc: Global, fields: &[FieldRow]) -> Result<Vec<FieldRow>, NoMemory>
    ensures { IfOk result (λ copies. map field_shape copies.items ≡ map field_shape fields.now) }
{
    let mut copies = Vec::new(alloc);
    for field in fields {
        let copied = copy_field(alloc, field)?;
        put(&mut copies, copied)?;
    }
    Ok(copies)
}

fn copy_structure(alloc: Global, row: &StructRow) -> Result<StructRow, NoMemory>
    ensures { IfOk result (λ s. struct_shape s ≡ struct_shape row.now) }
{
    let tag = copy_maybe_text(alloc, &row.tag)?;
    let fields = copy_fields(alloc, &row.fields)?;
    Ok(StructRow { tag, fields })
}

fn copy_kinds(alloc: Global, kinds: &[CType]) -> Result<Vec<CType>, NoMemory>
    ensures { IfOk result (λ copies. map type_of copies.items ≡ map type_of kinds.now) }
{
    let mut copies = Vec::new(alloc);
    for kind in kinds {
        let copied = copy(kind, alloc)?;
        put(&mut copies, copied)?;
    }
    Ok(copies)
}

fn copy_numbers(alloc: Global, list: &NumberList) -> Result<NumberList, NoMemory>
    ensures { IfOk result (λ copied. copied ≡ list.now) }
{
    let mut copied = NumberList::new(alloc);
    for i in 0..list.len() {
        copied.push(list.get(i))?;
    }
    Ok(copied)
}

fn copy_maybe_numbers(
    alloc: Global,
    list: &Option<NumberList>,
) -> Result<Option<NumberList>, NoMemory>
    ensures { IfOk result (λ copied. copied ≡ list.now) }
{
    match list {
        None => Ok(None),
        Some(list) => Ok(Some(copy_numbers(alloc, list)?)),
    }
}

fn copy_function(alloc: Global, row: &FunctionRow) -> Result<FunctionRow, NoMemory>
    ensures { IfOk result (λ f. function_shape f ≡ function_shape row.now) }
{
    let name = row.name.copy(alloc)?;
    let result = copy(&row.result, alloc)?;
    let params = copy_kinds(alloc, &row.params)?;
    let defined = copy_maybe_numbers(alloc, &row.defined)?;
    Ok(FunctionRow {
        name,
        result,
        params,
        defined,
    })
}

fn copy_variable(alloc: Global, row: &VariableRow) -> Result<VariableRow, NoMemory>
    ensures { IfOk result (λ v. variable_shape v ≡ variable_shape row.now) }
{
    let name = row.name.copy(alloc)?;
    let kind = copy(&row.kind, alloc)?;
    Ok(VariableRow {
        name,
        kind,
        function: row.function,
    })
}

// ---- tables

fn copy_structures(alloc: Global, from: &Tables, into: &mut Tables) -> Result<(), NoMemory>
    requires { (tables_shape into.old).structures ≡ [] }
    ensures { OnOk result (tables_shape into.new ≡ record (tables_shape into.old) { structures = (tables_shape from.now).structures }) }
{
    for i in 0..from.structures() {
        let row = copy_structure(alloc, from.structure(i + 1))?;
        into.push_structure(row)?;
    }
    Ok(())
}

fn copy_functions(alloc: Global, from: &Tables, into: &mut Tables) -> Result<(), NoMemory>
    requires { (tables_shape into.old).functions ≡ [] }
    ensures { OnOk result (tables_shape into.new ≡ record (tables_shape into.old) { functions = (tables_shape from.now).functions }) }
{
    for i in 0..from.functions() {
        let row = copy_function(alloc, from.function(i + 1))?;
        into.push_function(row)?;
    }
    Ok(())
}

fn copy_variables(alloc: Global, from: &Tables, into: &mut Tables) -> Result<(), NoMemory>
    requires { (tables_shape into.old).variables ≡ [] }
    ensures { OnOk result (tables_shape into.new ≡ record (tables_shape into.old) { variables = (tables_shape from.now).variables }) }
{
    for i in 0..from.variables() {
        let row = copy_variable(alloc, from.variable(i + 1))?;
        into.push_variable(row)?;
    }
    Ok(())
}

fn copy_literals(alloc: Global, from: &Tables, into: &mut Tables) -> Result<(), NoMemory>
    requires { (tables_shape into.old).literals ≡ [] }
    ensures { OnOk result (tables_shape into.new ≡ record (tables_shape into.old) { literals = (tables_shape from.now).literals }) }
{
    for i in 0..from.literals() {
        let bytes = from.literal(i + 1).bytes.copy(alloc)?;
        into.push_literal(LiteralRow { bytes })?;
    }
    Ok(())
}

/// The same tables: each row stands where it stood.
pub fn copy_tables(alloc: Global, tables: &Tables) -> Result<Tables, NoMemory>
    ensures { IfOk result (λ copied. tables_shape copied ≡ tables_shape tables.now) }
{
    let mut copied = Tables::new(alloc);
    copy_structures(alloc, tables, &mut copied)?;
    copy_functions(alloc, tables, &mut copied)?;
    copy_variables(alloc, tables, &mut copied)?;
    copy_literals(alloc, tables, &mut copied)?;
    Ok(copied)
}
