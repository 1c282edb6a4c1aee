//! Passes of marks over the rows of a function, 64 at a time.

ghost use Rattle.std.specs.Prelude.{◌≡◌, ◌↔◌, ◌<◌, ◌≤◌, ◌+◌, ◌*◌, ◌^◌, ℕ, true, length, IfOk, OnOk, Some, slice_get};
ghost use Rattle.pair_list.specs.declared.marks.Mark.{Mark as MarkOf};
ghost use Rattle.flow_marks.specs.Paths.{IsStep};
ghost use Rattle.flow_marks.specs.Words.{HasBit};
ghost use Rattle.pair_list.specs.Found.{IsFound};
ghost use Rattle.pair_list.specs.Marks.{IsMark};
ghost use Rattle.pair_list.specs.Masks.{AreReached};
ghost use Rattle.pair_list.specs.Tables.{AreTables, AreEmpty};
ghost use Rattle.pair_list.specs.Hits.{FindsOne, FindsAny, AddsBits};

use crate::filling::{clear_tables, empty_tables, fill_tables};
use crate::hits::hit_rows;
use crate::mark_lists::marks_of;
use crate::marks::Mark;
use crate::reached::zeros;
use crate::rows::{all_given, all_stopped};
use crate::tables::Tables;
use c_base::place::NoMemory;
use c_sites::numbered::Sites;
use flow_marks::flow::FlowRow;
use flow_marks::words::arrivals;
use std::alloc::Global;

// The definitions of 64 marks, each as it counts from the first one, with the uses that they find.
fn pass(
    alloc: Global,
    hits: &mut Vec<u64>,
    low: u16,
    flow: &[FlowRow],
    reached: &[bool],
    sites: &Sites,
    function: u32,
    marks: &[Mark],
    start: usize,
    first: u16,
    tables: &Tables,
) -> Result<(), NoMemory>
    requires start { start < 2 ^ 63 }
    requires few { length flow.now < 2 ^ 32 }
    requires in_range { (row to : ℕ) → IsStep flow.now row to → to < length flow.now }
    requires reached { AreReached flow.now reached.now }
    requires marks { (i : ℕ) (m : MarkOf) → slice_get marks.now i ≡ Some m → IsMark sites.now function m }
    requires within { (i : ℕ) (m : MarkOf) → slice_get marks.now i ≡ Some m → (first ≤ m.def) × (m.def < first + 64) }
    requires tables { AreTables marks.now start tables.now }
    ensures { OnOk result (AddsBits (λ k j. FindsOne flow.now sites.now function marks.now start first (low + k) j) hits.old.items hits.new.items) }
{
    let gives = all_given(alloc, flow, reached, marks, start, first)?;
    let stops = all_stopped(alloc, flow, sites, tables)?;
    let came = arrivals(alloc, flow, &gives, &stops)?;
    hit_rows(
        hits, low, &came, flow, sites, function, marks, start, first, tables,
    );
    Ok(())
}

// How often 64 marks are taken until all have been.
fn turns_of(marks: usize) -> usize
    ensures all { marks ≤ result * 64 }
    ensures few { result * 64 < marks + 64 }
{
    let whole = marks / 64;
    if whole * 64 == marks {
        whole
    } else {
        whole + 1
    }
}

// Those of all marks.
fn all_passes(
    alloc: Global,
    hits: &mut Vec<u64>,
    low: u16,
    flow: &[FlowRow],
    reached: &[bool],
    sites: &Sites,
    function: u32,
    marks: &[Mark],
    first: u16,
) -> Result<(), NoMemory>
    requires few { length flow.now < 2 ^ 32 }
    requires in_range { (row to : ℕ) → IsStep flow.now row to → to < length flow.now }
    requires reached { AreReached flow.now reached.now }
    requires marks { (i : ℕ) (m : MarkOf) → slice_get marks.now i ≡ Some m → IsMark sites.now function m }
    requires within { (i : ℕ) (m : MarkOf) → slice_get marks.now i ≡ Some m → (first ≤ m.def) × (m.def < first + 64) }
    ensures { OnOk result (AddsBits (λ k j. FindsAny flow.now sites.now function marks.now (length marks.now) first (low + k) j) hits.old.items hits.new.items) }
{
    let mut tables = empty_tables(alloc, marks)?;
    for turn in 0..turns_of(marks.len()) {
        let start = turn * 64;
        fill_tables(&mut tables, marks, start);
        pass(
            alloc, hits, low, flow, reached, sites, function, marks, start, first, &tables,
        )?;
        clear_tables(&mut tables, marks, start);
    }
    Ok(())
}

/// For each of so many uses from `low` on, the bits of the definitions, counted from the first one, that are found with it.
pub fn found(
    alloc: Global,
    low: u16,
    uses: u16,
    flow: &[FlowRow],
    reached: &[bool],
    sites: &Sites,
    function: u32,
    first: u16,
    count: u16,
) -> Result<Vec<u64>, NoMemory>
    requires few { length flow.now < 2 ^ 32 }
    requires in_range { (row to : ℕ) → IsStep flow.now row to → to < length flow.now }
    requires reached { AreReached flow.now reached.now }
    requires first { 1 ≤ first }
    requires word { count ≤ 64 }
    requires last { first + count ≤ length sites.now.lists.defs.items + 1 }
    requires sites { length sites.now.lists.defs.items ≤ 16383 }
    ensures size { IfOk result (λ hits. length hits.items ≡ uses) }
    ensures found { IfOk result (λ hits. (k j : ℕ) → k < uses → j < count → HasBit hits.items k j ↔ IsFound flow.now sites.now function (first + j) (low + k)) }
{
    let marks = marks_of(alloc, sites, function, first, count)?;
    let mut hits = zeros(alloc, uses as usize)?;
    all_passes(
        alloc, &mut hits, low, flow, reached, sites, function, &marks, first,
    )?;
    Ok(hits)
}
