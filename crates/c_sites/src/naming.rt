// The numbers of a site's leaf names.

ghost use Rattle.std.specs.Prelude.{◌≡◌, ◌-◌, [], ◌∷◌, ◌++◌, map, OnOk, IfOk};
ghost use Rattle.c_syntax.specs.View.{type_of};
ghost use Rattle.c_tables.specs.Rows.{row, fields_in};
ghost use Rattle.c_tables.specs.Tables.{tables_shape, field_shape};
ghost use Rattle.c_walk.specs.ItemView.{direct_shape, place_shape};
ghost use Rattle.c_walk.specs.Places.{field_text};
ghost use Rattle.c_sites.specs.Names.{leaves, field_leaves, leaf_name, own_names, site_names};
ghost use Rattle.c_sites.specs.Elements.{elements_text, element_leaves};
ghost use Rattle.c_sites.specs.Spelled.{AreNamed};
ghost use Rattle.c_sites.specs.SpellingView.{IsNamed};

use crate::limits::element;
use crate::names::Names;
use c_base::numbers::NumberList;
use c_base::place::NoMemory;
use c_syntax::tree::CType;
use c_tables::tables::{FieldRow, Tables};
use c_type_rules::kinds::is_scalar;
use c_walk::items::Direct;
use c_walk::places::bytes;
use std::alloc::Global;

/// A site whose leaf names are gone through: its variable, the text of the part that is reached, and the numbers so far.
#[derive(Drop)]
pub struct Spelling {
    alloc: Global,
    variable: u32,
    text: Vec<u8>,
    numbers: NumberList,
}

impl Spelling {
    // Names the part that is reached.
    fn put_name(&mut self, names: &mut Names) -> Result<(), NoMemory>
        ensures { OnOk result (IsNamed names.old names.new self.old self.new (self.old.text.items ∷ [])) }
    {
        let text = bytes(self.alloc, &self.text)?;
        let number = names.number(self.variable, text)?;
        self.put(number)
    }

    fn put(&mut self, number: u32) -> Result<(), NoMemory>
        ensures { OnOk result (self.new ≡ record self.old { numbers = self.old.numbers ++ number ∷ [] }) }
    {
        if self.numbers.len() == u32::MAX {
            return Err(NoMemory);
        }
        self.numbers.push(number)
    }
}

// ---- the text of a part

// An element of what is an array, one in another.
fn put_elements(text: &mut Vec<u8>, kind: &CType) -> Result<(), NoMemory>
    ensures { OnOk result (text.new.items ≡ elements_text text.old.items (type_of kind.now)) }
{
    match kind {
        CType::Array(of, _) => {
            put_text(text, b"[]")?;
            put_elements(text, of)
        }
        CType::Int(_) | CType::Pointer(_) | CType::Struct(_) | CType::Void => Ok(()),
    }
}

fn put_field_text(text: &mut Vec<u8>, name: &[u8]) -> Result<(), NoMemory>
    ensures { OnOk result (text.new.items ≡ text.old.items ++ field_text name.now) }
{
    put_text(text, b".")?;
    put_text(text, name)
}

fn put_text(text: &mut Vec<u8>, more: &[u8]) -> Result<(), NoMemory>
    ensures { OnOk result (text.new.items ≡ text.old.items ++ more.now) }
{
    match text.extend_from_slice(more) {
        Ok(()) => Ok(()),
        Err(_) => Err(NoMemory),
    }
}

// ---- the leaf names of a part

// Of the part that is reached, of that type, in which structures lie no deeper one in another than that.
#[cycle(leaves)]
fn put_leaves(
    names: &mut Names,
    site: &mut Spelling,
    tables: &Tables,
    depth: u64,
    kind: &CType,
) -> Result<(), NoMemory>
    ensures { OnOk result (IsNamed names.old names.new site.old site.new (leaves depth (tables_shape tables.now).structures site.old.text.items (type_of kind.now))) }
{
    if depth == 0 {
        return Ok(());
    }
    let length = site.text.len();
    put_elements(&mut site.text, kind)?;
    put_element(names, site, tables, depth - 1, element(kind))?;
    site.text.truncate(length);
    Ok(())
}

// Of a part whose type is no array.
#[cycle(leaves)]
fn put_element(
    names: &mut Names,
    site: &mut Spelling,
    tables: &Tables,
    depth: u64,
    kind: &CType,
) -> Result<(), NoMemory>
    ensures { OnOk result (IsNamed names.old names.new site.old site.new (element_leaves (leaves depth (tables_shape tables.now).structures) (tables_shape tables.now).structures site.old.text.items (type_of kind.now))) }
{
    match kind {
        CType::Int(_) | CType::Pointer(_) => site.put_name(names),
        CType::Struct(number) => put_structure(names, site, tables, depth, *number),
        CType::Array(_, _) | CType::Void => Ok(()),
    }
}

#[cycle(leaves)]
fn put_structure(
    names: &mut Names,
    site: &mut Spelling,
    tables: &Tables,
    depth: u64,
    number: u32,
) -> Result<(), NoMemory>
    ensures { OnOk result (IsNamed names.old names.new site.old site.new (field_leaves (leaves depth (tables_shape tables.now).structures) site.old.text.items (fields_in (row (tables_shape tables.now).structures number)))) }
{
    if number == 0 || number > tables.structures() {
        return Ok(());
    }
    put_fields(names, site, tables, depth, &tables.structure(number).fields)
}

#[cycle(leaves)]
fn put_fields(
    names: &mut Names,
    site: &mut Spelling,
    tables: &Tables,
    depth: u64,
    fields: &[FieldRow],
) -> Result<(), NoMemory>
    ensures { OnOk result (IsNamed names.old names.new site.old site.new (field_leaves (leaves depth (tables_shape tables.now).structures) site.old.text.items (map field_shape fields.now))) }
{
    for field in fields {
        put_field(names, site, tables, depth, field)?;
    }
    Ok(())
}

#[cycle(leaves)]
fn put_field(
    names: &mut Names,
    site: &mut Spelling,
    tables: &Tables,
    depth: u64,
    field: &FieldRow,
) -> Result<(), NoMemory>
    ensures { OnOk result (IsNamed names.old names.new site.old site.new (leaves depth (tables_shape tables.now).structures (site.old.text.items ++ field_text field.now.name) (type_of field.now.kind))) }
{
    let length = site.text.len();
    put_field_text(&mut site.text, field.name.bytes())?;
    put_leaves(names, site, tables, depth, &field.kind)?;
    site.text.truncate(length);
    Ok(())
}

// ---- sites

/// The number of a place's own name, by itself; of an indirect site there is none.
pub fn own_numbers(
    alloc: Global,
    names: &mut Names,
    place: &Option<Direct>,
) -> Result<NumberList, NoMemory>
    ensures { IfOk result (AreNamed names.old names.new (own_names (place_shape place.now)) []) }
{
    match place {
        None => Ok(NumberList::new(alloc)),
        Some(place) => {
            let text = bytes(alloc, &place.name)?;
            scalar_numbers(alloc, names, place.variable, text)
        }
    }
}

/// The numbers of a site's leaf names, in their order; of an indirect site there are none. Each leaf name is looked up once.
pub fn site_numbers(
    alloc: Global,
    names: &mut Names,
    tables: &Tables,
    place: Option<Direct>,
) -> Result<NumberList, NoMemory>
    ensures { IfOk result (AreNamed names.old names.new (site_names (tables_shape tables.now).structures (place_shape place)) []) }
{
    match place {
        None => Ok(NumberList::new(alloc)),
        Some(place) => place_numbers(alloc, names, tables, place),
    }
}

fn place_numbers(
    alloc: Global,
    names: &mut Names,
    tables: &Tables,
    place: Direct,
) -> Result<NumberList, NoMemory>
    ensures { IfOk result (AreNamed names.old names.new (site_names (tables_shape tables.now).structures (Some (direct_shape place))) []) }
{
    if is_scalar(&place.kind) {
        return scalar_numbers(alloc, names, place.variable, place.name);
    }
    let mut site = Spelling {
        alloc,
        variable: place.variable,
        text: place.name,
        numbers: NumberList::new(alloc),
    };
    let depth = u64::from(tables.structures()) + 1;
    put_leaves(names, &mut site, tables, depth, &place.kind)?;
    Ok(site.numbers)
}

// Of an integer or a pointer, whose one leaf name is its own.
fn scalar_numbers(
    alloc: Global,
    names: &mut Names,
    variable: u32,
    text: Vec<u8>,
) -> Result<NumberList, NoMemory>
    ensures { IfOk result (AreNamed names.old names.new (leaf_name variable text.items ∷ []) []) }
{
    let number = names.number(variable, text)?;
    let mut numbers = NumberList::new(alloc);
    numbers.push(number)?;
    Ok(numbers)
}
