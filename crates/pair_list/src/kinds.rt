//! The items of a program, one kind after the other.

ghost use Rattle.std.specs.Prelude.{◌≡◌, ◌<◌, ◌≤◌, ◌-◌, ◌++◌, ◌∷◌, [], Some, All, length, map, slice_get, IfOk, OnOk};
ghost use Rattle.std.specs.String.{string_bytes};
ghost use Rattle.c_sites.specs.declared.lists.DefSite.{DefSite as a_def};
ghost use Rattle.c_sites.specs.declared.lists.UseSite.{UseSite as a_use};
ghost use Rattle.pair_list.specs.Items.{label_rows, outcome_rows, pair_row, with_outcomes, c_use_at, p_uses_at, c_use_rows, p_use_rows};
ghost use Rattle.pair_list.specs.Placed.{IsPlaced};

use crate::pairs::Pair;
use atac_base::items::Items;
use atac_base::rows::{OutcomeRow, PUseRow, PairRow};
use c_base::labels::Labels;
use c_base::place::{NoMemory, Pos};
use c_sites::numbered::Sites;
use std::alloc::Global;

// ---- blocks

fn put_block(items: &mut Items, pos: Pos) -> Result<(), NoMemory>
    ensures { OnOk result (items.new ≡ record items.old { blocks = items.old.blocks ++ pos ∷ [] }) }
{
    if items.blocks() == 65535 {
        return Err(NoMemory);
    }
    items.push_block(pos)?;
    Ok(())
}

fn put_blocks(items: &mut Items, sites: &Sites) -> Result<(), NoMemory>
    ensures { OnOk result (items.new ≡ record items.old { blocks = items.old.blocks ++ sites.now.lists.blocks.items }) }
{
    for k in 0..sites.blocks() {
        let pos = sites.block(k + 1);
        put_block(items, pos)?;
    }
    Ok(())
}

// ---- outcomes

fn put_outcome(items: &mut Items, row: OutcomeRow) -> Result<(), NoMemory>
    ensures { OnOk result (items.new ≡ record items.old { outcomes = items.old.outcomes ++ row ∷ [] }) }
{
    if items.outcomes() == u32::MAX {
        return Err(NoMemory);
    }
    items.push_outcome(row)?;
    Ok(())
}

// The outcomes of the decision with that number.
fn put_labels(items: &mut Items, decision: u16, pos: Pos, labels: &Labels) -> Result<(), NoMemory>
    ensures { OnOk result (items.new ≡ record items.old { outcomes = items.old.outcomes ++ label_rows decision pos labels.now }) }
{
    for i in 0..labels.len() {
        let it = labels.get(i);
        put_outcome(
            items,
            OutcomeRow {
                decision,
                outcome: it.0,
                pos,
                label: it.1,
            },
        )?;
    }
    Ok(())
}

fn put_outcomes(items: &mut Items, sites: &Sites) -> Result<(), NoMemory>
    ensures { OnOk result (items.new ≡ record items.old { outcomes = items.old.outcomes ++ outcome_rows 0 sites.now.lists.decisions.items }) }
{
    for k in 0..sites.decisions() {
        let decision = sites.decision(k + 1);
        put_labels(items, k + 1, decision.pos, &decision.labels)?;
    }
    Ok(())
}

// ---- names

fn put_name(items: &mut Items, name: &str) -> Result<(), NoMemory>
    ensures { OnOk result (items.new ≡ record items.old { names = items.old.names ++ name.now ∷ [] }) }
{
    if items.names() == u32::MAX {
        return Err(NoMemory);
    }
    items.push_name(name)?;
    Ok(())
}

fn put_names(items: &mut Items, texts: &[String]) -> Result<(), NoMemory>
    ensures { OnOk result (items.new ≡ record items.old { names = items.old.names ++ map string_bytes texts.now }) }
{
    for i in 0..texts.len() {
        let text = &texts[i];
        let name = text.as_str();
        put_name(items, name)?;
    }
    Ok(())
}

// ---- pairs

fn pair_at(pairs: &[Pair], i: usize) -> Pair
    requires { i < length pairs.now }
    ensures { slice_get pairs.now i ≡ Some result }
{
    pairs[i]
}

fn row_of(sites: &Sites, pair: Pair) -> PairRow
    requires { IsPlaced sites.now pair }
    ensures row { (d : a_def) (u : a_use) → slice_get sites.now.lists.defs.items (pair.def - 1) ≡ Some d → slice_get sites.now.lists.uses.items (pair.used - 1) ≡ Some u → result ≡ pair_row pair d u }
    ensures named { result.name < length sites.now.texts.items }
{
    let def = sites.def(pair.def);
    let used = sites.use_site(pair.used);
    PairRow {
        def: pair.def,
        def_pos: def.pos,
        user: pair.used,
        use_pos: used.pos,
        name: used.name - 1,
    }
}

fn push_c_use(items: &mut Items, row: PairRow) -> Result<(), NoMemory>
    requires { row.name < length items.old.names }
    ensures { OnOk result (items.new ≡ record items.old { c_uses = items.old.c_uses ++ row ∷ [] }) }
{
    if items.c_uses() == u32::MAX {
        return Err(NoMemory);
    }
    items.push_c_use(row)?;
    Ok(())
}

// The c-use of a pair, if its use belongs to no decision.
fn put_c_use(items: &mut Items, sites: &Sites, pair: Pair) -> Result<(), NoMemory>
    requires placed { IsPlaced sites.now pair }
    requires names { length items.old.names ≡ length sites.now.texts.items }
    ensures { OnOk result (items.new ≡ record items.old { c_uses = items.old.c_uses ++ c_use_at pair (slice_get sites.now.lists.defs.items (pair.def - 1)) (slice_get sites.now.lists.uses.items (pair.used - 1)) }) }
{
    let used = sites.use_site(pair.used);
    match used.owner {
        None => {
            let row = row_of(sites, pair);
            push_c_use(items, row)?;
            Ok(())
        }
        Some(_) => Ok(()),
    }
}

fn put_c_uses(items: &mut Items, sites: &Sites, pairs: &[Pair]) -> Result<(), NoMemory>
    requires placed { All (IsPlaced sites.now) pairs.now }
    requires names { length items.old.names ≡ length sites.now.texts.items }
    ensures { OnOk result (items.new ≡ record items.old { c_uses = items.old.c_uses ++ c_use_rows sites.now pairs.now }) }
{
    for i in 0..pairs.len() {
        let pair = pair_at(pairs, i);
        put_c_use(items, sites, pair)?;
    }
    Ok(())
}

fn push_p_use(items: &mut Items, row: PUseRow) -> Result<(), NoMemory>
    requires { row.pair.name < length items.old.names }
    ensures { OnOk result (items.new ≡ record items.old { p_uses = items.old.p_uses ++ row ∷ [] }) }
{
    if items.p_uses() == u32::MAX {
        return Err(NoMemory);
    }
    items.push_p_use(row)?;
    Ok(())
}

// A p-use for each of these outcomes.
fn put_with(items: &mut Items, row: PairRow, labels: &Labels) -> Result<(), NoMemory>
    requires { row.name < length items.old.names }
    ensures { OnOk result (items.new ≡ record items.old { p_uses = items.old.p_uses ++ with_outcomes row labels.now }) }
{
    for n in 0..labels.len() {
        let it = labels.get(n);
        push_p_use(
            items,
            PUseRow {
                pair: row,
                outcome: it.0,
                label: it.1,
            },
        )?;
    }
    Ok(())
}

// The p-uses of a pair, if its use belongs to a decision.
fn put_p_use(items: &mut Items, sites: &Sites, pair: Pair) -> Result<(), NoMemory>
    requires placed { IsPlaced sites.now pair }
    requires names { length items.old.names ≡ length sites.now.texts.items }
    ensures { OnOk result (items.new ≡ record items.old { p_uses = items.old.p_uses ++ p_uses_at sites.now pair (slice_get sites.now.lists.defs.items (pair.def - 1)) (slice_get sites.now.lists.uses.items (pair.used - 1)) }) }
{
    let used = sites.use_site(pair.used);
    match used.owner {
        None => Ok(()),
        Some(k) => {
            if k == 0 {
                return Ok(());
            }
            if k > sites.decisions() {
                return Ok(());
            }
            let row = row_of(sites, pair);
            let decision = sites.decision(k);
            put_with(items, row, &decision.labels)?;
            Ok(())
        }
    }
}

fn put_p_uses(items: &mut Items, sites: &Sites, pairs: &[Pair]) -> Result<(), NoMemory>
    requires placed { All (IsPlaced sites.now) pairs.now }
    requires names { length items.old.names ≡ length sites.now.texts.items }
    ensures { OnOk result (items.new ≡ record items.old { p_uses = items.old.p_uses ++ p_use_rows sites.now pairs.now }) }
{
    for n in 0..pairs.len() {
        let pair = pair_at(pairs, n);
        put_p_use(items, sites, pair)?;
    }
    Ok(())
}

/// The items with these pairs: the blocks, the outcomes of each decision, the names, and the c-uses and p-uses of the pairs
/// in their order.
pub fn items_with(alloc: Global, sites: &Sites, pairs: &[Pair]) -> Result<Items, NoMemory>
    requires { All (IsPlaced sites.now) pairs.now }
    ensures { IfOk result (λ items. items ≡ record { blocks = sites.now.lists.blocks.items; outcomes = outcome_rows 0 sites.now.lists.decisions.items; c_uses = c_use_rows sites.now pairs.now; p_uses = p_use_rows sites.now pairs.now; names = map string_bytes sites.now.texts.items }) }
{
    let mut items = Items::new(alloc);
    put_blocks(&mut items, sites)?;
    put_outcomes(&mut items, sites)?;
    put_names(&mut items, sites.texts())?;
    put_c_uses(&mut items, sites, pairs)?;
    put_p_uses(&mut items, sites, pairs)?;
    Ok(items)
}
