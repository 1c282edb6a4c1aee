// How many items there may be.

ghost use Rattle.std.specs.Prelude.{◌≡◌, length, map};
ghost use Rattle.c_syntax.specs.View.{type_of};
ghost use Rattle.c_tables.specs.Rows.{row, fields_in};
ghost use Rattle.c_tables.specs.Tables.{tables_shape, field_shape};
ghost use Rattle.c_walk.specs.ItemView.{item_shape, place_shape};
ghost use Rattle.c_sites.specs.Names.{site_leaves};
ghost use Rattle.c_sites.specs.Elements.{element};
ghost use Rattle.c_sites.specs.Counts.{field_counts, leaf_count};
ghost use Rattle.c_sites.specs.Limits.{no_counts, kept, with_names, with_one, too_many, place_of, excess};

use c_base::place::Pos;
use c_syntax::tree::CType;
use c_tables::tables::{FieldRow, Tables};
use c_walk::items::{Direct, Item};

/// How many blocks, decisions, definitions and uses there are, and leaf names of sites, each site's counted by itself.
#[derive(Clone, Copy, Debug, PartialEq, Eq)]
pub struct Counts {
    pub blocks: u32,
    pub decisions: u32,
    pub defs: u32,
    pub uses: u32,
    pub names: u32,
}

/// What an array's elements are, where these are no arrays; another type is its own.
pub fn element(kind: &CType) -> &CType
    ensures { type_of result.now ≡ element (type_of kind.now) }
{
    match kind {
        CType::Array(of, _) => element(of),
        CType::Int(_) | CType::Pointer(_) | CType::Struct(_) | CType::Void => kind,
    }
}

// How many leaf names a place of that type has, in which structures lie no deeper one in another than that.
#[cycle(leaves)]
#[tactic(auto, using(crate::proofs::Leaves::none_deep, crate::proofs::Leaves::count_deep))]
fn leaf_count(tables: &Tables, depth: u64, kind: &CType) -> u32
    ensures { result ≡ kept (leaf_count depth (tables_shape tables.now).structures (type_of kind.now)) }
{
    if depth == 0 {
        return 0;
    }
    match element(kind) {
        CType::Int(_) | CType::Pointer(_) => 1,
        CType::Struct(number) => field_counts(tables, depth - 1, *number),
        CType::Array(_, _) | CType::Void => 0,
    }
}

#[cycle(leaves)]
fn field_counts(tables: &Tables, depth: u64, number: u32) -> u32
    ensures { result ≡ kept (field_counts (leaf_count depth (tables_shape tables.now).structures) (fields_in (row (tables_shape tables.now).structures number))) }
{
    if number == 0 || number > tables.structures() {
        return 0;
    }
    fields_count(tables, depth, &tables.structure(number).fields)
}

#[cycle(leaves)]
fn fields_count(tables: &Tables, depth: u64, fields: &[FieldRow]) -> u32
    ensures { result ≡ kept (field_counts (leaf_count depth (tables_shape tables.now).structures) (map field_shape fields.now)) }
{
    let mut count: u32 = 0;
    for field in fields {
        count = count.saturating_add(leaf_count(tables, depth, &field.kind));
    }
    count
}

#[tactic(auto, using(crate::proofs::Leaves::leaves_length))]
fn name_count(tables: &Tables, place: &Option<Direct>) -> u32
    ensures { result ≡ kept (length (site_leaves (tables_shape tables.now).structures (place_shape place.now))) }
{
    match place {
        None => 0,
        Some(place) => leaf_count(tables, u64::from(tables.structures()) + 1, &place.kind),
    }
}

fn with_names(tables: &Tables, place: &Option<Direct>, counts: Counts) -> Counts
    ensures { result ≡ with_names (tables_shape tables.now).structures (place_shape place.now) counts }
{
    let mut counts = counts;
    counts.names = counts.names.saturating_add(name_count(tables, place));
    counts
}

fn with_one(tables: &Tables, item: &Item, counts: Counts) -> Counts
    ensures { result ≡ with_one (tables_shape tables.now).structures (item_shape item.now) counts }
{
    let mut counts = counts;
    match item {
        Item::Block(_) => {
            counts.blocks = counts.blocks.saturating_add(1);
            counts
        }
        Item::Decision(_, _) => {
            counts.decisions = counts.decisions.saturating_add(1);
            counts
        }
        Item::Def(_, _, place) => {
            counts.defs = counts.defs.saturating_add(1);
            with_names(tables, place, counts)
        }
        Item::Used(_, _, place, _) => {
            counts.uses = counts.uses.saturating_add(1);
            with_names(tables, place, counts)
        }
    }
}

fn too_many(counts: Counts) -> bool
    ensures { result ≡ too_many counts }
{
    counts.blocks > 16_383
        || counts.decisions > 16_383
        || counts.defs > 16_383
        || counts.uses > 16_383
        || counts.names > 100_000_000
}

fn place_of(item: &Item) -> Pos
    ensures { result ≡ place_of (item_shape item.now) }
{
    match item {
        Item::Block(pos)
        | Item::Decision(pos, _)
        | Item::Def(pos, _, _)
        | Item::Used(pos, _, _, _) => *pos,
    }
}

/// The place of the first item with which there are more than 16,383 of its kind, or more than 100,000,000 leaf names of
/// sites, each site's counted by itself; None where there are not so many.
pub fn excess(tables: &Tables, items: &[Item]) -> Option<Pos>
    ensures { result ≡ excess (tables_shape tables.now).structures no_counts (map item_shape items.now) }
{
    let mut counts = Counts {
        blocks: 0,
        decisions: 0,
        defs: 0,
        uses: 0,
        names: 0,
    };
    for item in items {
        counts = with_one(tables, item, counts);
        if too_many(counts) {
            return Some(place_of(item));
        }
    }
    None
}
