//! The pairs of a program, of one external declaration after the other.

ghost use Rattle.std.specs.Prelude.{◌≡◌, ◌<◌, ◌≤◌, ◌+◌, ◌-◌, ◌^◌, ℕ, Some, length, slice_get, IfOk, IfErr, OnOk};
ghost use Rattle.c_syntax.specs.Shape.{ExternalShape};
ghost use Rattle.c_syntax.specs.View.{unit_shape};
ghost use Rattle.c_tables.specs.Tables.{tables_shape};
ghost use Rattle.c_walk.specs.Units.{items_of};
ghost use Rattle.c_sites.specs.Refused.{AreNumbered};
ghost use Rattle.flow_marks.specs.Paths.{IsStep};
ghost use Rattle.flow_rows.specs.Counts.{counts};
ghost use Rattle.pair_list.specs.declared.pairs.ListRefusal.TheVariants.{TooManyPairs};
ghost use Rattle.pair_list.specs.PairLists.{items_in, pairs_from, all_pairs, AreThose, Appends, HasMore};
ghost use Rattle.pair_list.specs.Items.{IsListed, AreTooMany, most_items};
ghost use Rattle.pair_list.specs.Runs.{StandTogether, IsPathPair, behind, AreRowsOf, AreSoFar};

use crate::pairs::{ListRefusal, Pair};
use crate::runs::run_pairs;
use c_sites::numbered::Sites;
use c_syntax::tree::Unit;
use c_tables::tables::Tables;
use flow_graph::lay_external;
use flow_marks::flow::FlowRow;
use flow_rows::numbers::Numbers;
use std::alloc::Global;

// The pairs of that many definitions from the first on, which stand in one function, by its rows.
fn path_pairs(
    alloc: Global,
    pairs: &mut Vec<Pair>,
    items: u64,
    flow: &[FlowRow],
    sites: &Sites,
    first: u16,
    count: u16,
) -> Result<u64, ListRefusal>
    requires some { 0 < length flow.now }
    requires few { length flow.now < 2 ^ 32 }
    requires in_range { (row to : ℕ) → IsStep flow.now row to → to < length flow.now }
    requires first { 1 ≤ first }
    requires last { first + count ≤ length sites.now.lists.defs.items + 1 }
    requires together { StandTogether sites.now first count }
    requires within { items ≤ most_items }
    requires count { items ≡ items_in sites.now pairs.old.items }
    ensures pairs { OnOk result (Appends (IsPathPair flow.now sites.now) (pairs_from (length sites.now.lists.uses.items) first count) pairs.old.items pairs.new.items) }
    ensures within { IfOk result (λ now. now ≤ most_items) }
    ensures count { IfOk result (λ now. now ≡ items_in sites.now pairs.new.items) }
    ensures more { IfErr result (λ e. e ≡ TooManyPairs → HasMore (IsPathPair flow.now sites.now) (pairs_from (length sites.now.lists.uses.items) first count) sites.now pairs.old.items most_items) }
{
    if count == 0 {
        return Ok(items);
    }
    let function = sites.def(first).function;
    match run_pairs(
        alloc, pairs, items, flow, sites, function, first, count, 1_000_000,
    ) {
        Ok(now) => Ok(now),
        Err(e) => Err(e),
    }
}

// The pairs of the definitions that are counted in the function of these rows, behind those before them.
fn function_pairs(
    alloc: Global,
    tables: &Tables,
    unit: &Unit,
    sites: &Sites,
    k: usize,
    flow: &[FlowRow],
    before: Numbers,
    now: Numbers,
    pairs: &mut Vec<Pair>,
    items: u64,
) -> Result<u64, ListRefusal>
    requires some { 0 < length flow.now }
    requires few { length flow.now < 2 ^ 32 }
    requires in_range { (row to : ℕ) → IsStep flow.now row to → to < length flow.now }
    requires numbered { AreNumbered (tables_shape tables.now).structures (items_of (tables_shape tables.now) (unit_shape unit.now)) sites.now }
    requires there { k < length unit.now.externals.items }
    requires rows { (e : ExternalShape) → slice_get (unit_shape unit.now).externals k ≡ Some e → AreRowsOf (tables_shape tables.now) e (behind (tables_shape tables.now) (unit_shape unit.now) k) flow.now }
    requires so_far { AreSoFar (tables_shape tables.now) (unit_shape unit.now) sites.now k before pairs.old.items items }
    requires counted { counts (behind (tables_shape tables.now) (unit_shape unit.now) (k + 1)) ≡ now }
    requires order { before.defs ≤ now.defs }
    requires last { now.defs ≤ length sites.now.lists.defs.items }
    ensures so_far { IfOk result (AreSoFar (tables_shape tables.now) (unit_shape unit.now) sites.now (k + 1) now pairs.new.items) }
    ensures more { IfErr result (λ e. e ≡ TooManyPairs → AreTooMany (tables_shape tables.now) (unit_shape unit.now) sites.now) }
{
    let first = before.defs + 1;
    let count = now.defs - before.defs;
    match path_pairs(alloc, pairs, items, flow, sites, first, count) {
        Ok(items) => Ok(items),
        Err(e) => Err(e),
    }
}

// The pairs of the definitions that are counted in one external declaration, behind those before them.
fn external_pairs(
    alloc: Global,
    tables: &Tables,
    unit: &Unit,
    sites: &Sites,
    k: usize,
    numbers: &mut Numbers,
    pairs: &mut Vec<Pair>,
    items: u64,
) -> Result<u64, ListRefusal>
    requires numbered { AreNumbered (tables_shape tables.now).structures (items_of (tables_shape tables.now) (unit_shape unit.now)) sites.now }
    requires there { k < length unit.now.externals.items }
    requires so_far { AreSoFar (tables_shape tables.now) (unit_shape unit.now) sites.now k numbers.old pairs.old.items items }
    ensures so_far { IfOk result (AreSoFar (tables_shape tables.now) (unit_shape unit.now) sites.now (k + 1) numbers.new pairs.new.items) }
    ensures more { IfErr result (λ e. e ≡ TooManyPairs → AreTooMany (tables_shape tables.now) (unit_shape unit.now) sites.now) }
{
    let before = *numbers;
    let external = &unit.externals[k];
    let graph = match lay_external(alloc, tables, external, numbers) {
        Ok(graph) => graph,
        Err(_) => return Err(ListRefusal::NoMemory),
    };
    match graph {
        None => Ok(items),
        Some(graph) => {
            let flow = match graph.into_flow(alloc) {
                Ok(flow) => flow,
                Err(_) => return Err(ListRefusal::NoMemory),
            };
            match function_pairs(
                alloc, tables, unit, sites, k, &flow, before, *numbers, pairs, items,
            ) {
                Ok(items) => Ok(items),
                Err(e) => Err(e),
            }
        }
    }
}

/// The pairs of a program with these sites, in ascending order, each once. Linear in its external declarations; each
/// function's rows are laid once, and let go before the next one's.
#[tactic(auto, using(crate::proofs::Joining::so_far_start))]
pub fn unit_pairs(
    alloc: Global,
    tables: &Tables,
    unit: &Unit,
    sites: &Sites,
) -> Result<Vec<Pair>, ListRefusal>
    requires numbered { AreNumbered (tables_shape tables.now).structures (items_of (tables_shape tables.now) (unit_shape unit.now)) sites.now }
    ensures pairs { IfOk result (λ pairs. AreThose (IsListed (tables_shape tables.now) (unit_shape unit.now) sites.now) (all_pairs sites.now) pairs.items) }
    ensures few { IfOk result (λ pairs. items_in sites.now pairs.items ≤ most_items) }
    ensures more { IfErr result (λ e. e ≡ TooManyPairs → AreTooMany (tables_shape tables.now) (unit_shape unit.now) sites.now) }
{
    let mut numbers = Numbers::none();
    let mut pairs = Vec::new(alloc);
    let mut items = 0;
    for k in 0..unit.externals.len() {
        match external_pairs(
            alloc,
            tables,
            unit,
            sites,
            k,
            &mut numbers,
            &mut pairs,
            items,
        ) {
            Ok(now) => items = now,
            Err(e) => return Err(e),
        }
    }
    Ok(pairs)
}
