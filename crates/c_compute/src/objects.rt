//! The cells of objects with initialisers (C89, 3.5.7).

ghost use Rattle.std.specs.Prelude.{◌≡◌, ◌++◌, [], ◌∷◌, map, replicate, option_map, OnOk, IfOk};
ghost use Rattle.c_syntax.specs.View.{type_of, node_shape, init_shape, init_list, maybe_init};
ghost use Rattle.c_tables.specs.Tables.{tables_shape, field_shape};
ghost use Rattle.c_meaning.specs.Constants.{value_in, one_cells, slot_kinds, init_cells, items_cells};
ghost use Rattle.c_meaning.specs.Operators.{converted};
ghost use Rattle.c_meaning.specs.Declarations.{file_cells};

use crate::filing::Filing;
use crate::operators::converted;
use crate::strings::push_string;
use crate::values::{string_in, value_in};
use crate::zeros::{fields_of, push, push_field_zeros, push_many_zeros, push_zeros};
use c_base::place::NoMemory;
use c_store::value::Value;
use c_syntax::tree::{CType, Init, Node};
use c_tables::tables::{FieldRow, Tables};
use std::alloc::Global;

/// The cells of an object of the type with that initialiser, whose values are constants or a string; None is a cell that
/// stays without a value.
pub fn init_cells(
    alloc: Global,
    tables: &Tables,
    filing: &Filing,
    kind: &CType,
    init: &Init,
) -> Result<Vec<Option<Value>>, NoMemory>
    ensures { IfOk result (λ v. v.items ≡ init_cells (tables_shape tables.now) filing.now (type_of kind.now) (init_shape init.now)) }
{
    let mut cells = Vec::new(alloc);
    push_init(&mut cells, tables, filing, kind, init)?;
    Ok(cells)
}

/// Those of an object of file scope: without an initialiser it is zero, its pointers null.
pub fn file_cells(
    alloc: Global,
    tables: &Tables,
    filing: &Filing,
    kind: &CType,
    init: &Option<Init>,
) -> Result<Vec<Option<Value>>, NoMemory>
    ensures { IfOk result (λ v. v.items ≡ file_cells (tables_shape tables.now) filing.now (type_of kind.now) (maybe_init init.now)) }
{
    let mut cells = Vec::new(alloc);
    match init {
        None => push_zeros(&mut cells, tables, kind)?,
        Some(init) => push_init(&mut cells, tables, filing, kind, init)?,
    }
    Ok(cells)
}

#[cycle(initials)]
#[tactic(auto, using(crate::proofs::Cells::list_open, crate::proofs::Cells::list_size))]
fn push_init(
    cells: &mut Vec<Option<Value>>,
    tables: &Tables,
    filing: &Filing,
    kind: &CType,
    init: &Init,
) -> Result<(), NoMemory>
    ensures { OnOk result (cells.new.items ≡ cells.old.items ++ init_cells (tables_shape tables.now) filing.now (type_of kind.now) (init_shape init.now)) }
{
    match init {
        Init::One(node) => push_one(cells, tables, filing, kind, node),
        Init::List(_, items, _) => push_list(cells, tables, filing, kind, items),
    }
}

// Those of a list, behind which what is left out is zero.
#[cycle(initials)]
#[tactic(auto, using(crate::proofs::Cells::no_slots))]
fn push_list(
    cells: &mut Vec<Option<Value>>,
    tables: &Tables,
    filing: &Filing,
    kind: &CType,
    items: &[Init],
) -> Result<(), NoMemory>
    ensures { OnOk result (cells.new.items ≡ cells.old.items ++ items_cells (tables_shape tables.now) filing.now (slot_kinds (tables_shape tables.now) (type_of kind.now)) (init_list items.now)) }
{
    match kind {
        CType::Array(of, length) => push_elements(cells, tables, filing, of, *length, items),
        CType::Struct(number) => {
            push_fields(cells, tables, filing, fields_of(tables, *number), items)
        }
        CType::Int(_) | CType::Pointer(_) | CType::Void => Ok(()),
    }
}

#[cycle(initials)]
fn push_elements(
    cells: &mut Vec<Option<Value>>,
    tables: &Tables,
    filing: &Filing,
    kind: &CType,
    length: u32,
    items: &[Init],
) -> Result<(), NoMemory>
    ensures { OnOk result (cells.new.items ≡ cells.old.items ++ items_cells (tables_shape tables.now) filing.now (replicate length (type_of kind.now)) (init_list items.now)) }
{
    let mut left = length;
    for item in items {
        if left == 0 {
            return Ok(());
        }
        push_init(cells, tables, filing, kind, item)?;
        left -= 1;
    }
    push_many_zeros(cells, tables, kind, left)
}

#[cycle(initials)]
fn push_fields(
    cells: &mut Vec<Option<Value>>,
    tables: &Tables,
    filing: &Filing,
    fields: &[FieldRow],
    items: &[Init],
) -> Result<(), NoMemory>
    ensures { OnOk result (cells.new.items ≡ cells.old.items ++ items_cells (tables_shape tables.now) filing.now (map (λ f. f.kind) (map field_shape fields.now)) (init_list items.now)) }
{
    let mut fields = fields;
    for item in items {
        let Some((field, others)) = fields.split_first() else {
            return Ok(());
        };
        push_init(cells, tables, filing, &field.kind, item)?;
        fields = others;
    }
    push_field_zeros(cells, tables, fields)
}

// Those of one expression: of an array a string's.
#[tactic(auto, using(crate::proofs::Cells::string_cells_of, crate::proofs::Cells::value_cells_of))]
fn push_one(
    cells: &mut Vec<Option<Value>>,
    tables: &Tables,
    filing: &Filing,
    kind: &CType,
    node: &Node,
) -> Result<(), NoMemory>
    ensures { OnOk result (cells.new.items ≡ cells.old.items ++ one_cells (tables_shape tables.now) filing.now (type_of kind.now) (node_shape node.now)) }
{
    match kind {
        CType::Array(of, length) => match string_in(node) {
            Some(text) => push_string(cells, of, *length, text.bytes()),
            None => push_value(cells, tables, filing, kind, node),
        },
        CType::Int(_) | CType::Pointer(_) | CType::Struct(_) | CType::Void => {
            push_value(cells, tables, filing, kind, node)
        }
    }
}

// The value in the type.
fn push_value(
    cells: &mut Vec<Option<Value>>,
    tables: &Tables,
    filing: &Filing,
    kind: &CType,
    node: &Node,
) -> Result<(), NoMemory>
    ensures { OnOk result (cells.new.items ≡ cells.old.items ++ option_map (converted (type_of kind.now)) (value_in (tables_shape tables.now) filing.now (node_shape node.now)) ∷ []) }
{
    match value_in(tables, filing, node) {
        None => push(cells, None),
        Some(value) => push(cells, Some(converted(kind, value))),
    }
}
