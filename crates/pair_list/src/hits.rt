//! Which uses which marks meet.

ghost use Rattle.std.specs.Prelude.{◌≡◌, ◌↔◌, ◌<◌, ◌≤◌, ◌+◌, ◌-◌, ◌^◌, ◌⊎◌, ℕ, IsTrue, true, length, IfOk, OnOk, Contains, Some, slice_get};
ghost use Rattle.std.specs.Int.{bit_at};
ghost use Rattle.std.proofs.Math.ListN.{get_or};
ghost use Rattle.pair_list.specs.declared.marks.Mark.{Mark as MarkOf};
ghost use Rattle.pair_list.specs.Tables.{AreTables};
ghost use Rattle.pair_list.specs.Masks.{MarkAt};
ghost use Rattle.pair_list.specs.Hits.{DefOf, UseMeets, RowHits, SomeHits, AddsBits};

use crate::lookup::met;
use crate::marks::Mark;
use crate::masks::with_bit;
use crate::tables::Tables;
use c_base::place::NoMemory;
use c_sites::numbered::Sites;
use flow_marks::flow::FlowRow;
use flow_walks::action::Action;
use std::alloc::Global;

// The lowest bit of a word.
fn lowest(word: u64) -> u32
    requires { 0 < word }
    ensures within { result < 64 }
    ensures has { bit_at word result ≡ 1 }
{
    word.trailing_zeros()
}

// The word without a bit that it has.
fn without(word: u64, i: u32) -> u64
    requires within { i < 64 }
    requires has { bit_at word i ≡ 1 }
    ensures bits { (j : ℕ) → (bit_at result j ≡ 1) ↔ ((bit_at word j ≡ 1) × (j ≡ i → ⊥)) }
    ensures less { result < word }
{
    word & !(1u64 << i)
}

// The definition of a mark, as it counts from the first one.
fn def_at(marks: &[Mark], at: usize, first: u16) -> u32
    requires there { at < length marks.now }
    requires within { (i : ℕ) (m : MarkOf) → slice_get marks.now i ≡ Some m → (first ≤ m.def) × (m.def < first + 64) }
    ensures within { result < 64 }
    ensures def { (j : ℕ) → (j ≡ result) ↔ MarkAt marks.now at (λ m. m.def ≡ first + j) }
{
    (marks[at].def - first) as u32
}

// The definitions of the marks of a word, as they count from the first one.
fn defs_of(marks: &[Mark], start: usize, first: u16, word: u64) -> u64
    requires start { start < 2 ^ 63 }
    requires there { (i : ℕ) → bit_at word i ≡ 1 → (i < 64) × (start + i < length marks.now) }
    requires within { (i : ℕ) (m : MarkOf) → slice_get marks.now i ≡ Some m → (first ≤ m.def) × (m.def < first + 64) }
    ensures { (j : ℕ) → (bit_at result j ≡ 1) ↔ DefOf marks.now start first word j }
{
    let mut bits = 0;
    let mut left = word;
    while left != 0 {
        let i = lowest(left);
        let j = def_at(marks, start + i as usize, first);
        bits = with_bit(bits, j, true);
        left = without(left, i);
    }
    bits
}

/// Adds bits to one word.
pub fn add_bits(hits: &mut Vec<u64>, k: usize, word: u64)
    requires { k < length hits.old.items }
    ensures { AddsBits (λ q j. (q ≡ k) × (bit_at word j ≡ 1)) hits.old.items hits.new.items }
{
    let old = hits[k];
    hits[k] = old | word;
}

// Those of the marks that came to a row of the use, if it stands in the function.
fn row_bits(
    came: u64,
    u: u16,
    sites: &Sites,
    function: u32,
    marks: &[Mark],
    start: usize,
    first: u16,
    tables: &Tables,
) -> u64
    requires start { start < 2 ^ 63 }
    requires within { (i : ℕ) (m : MarkOf) → slice_get marks.now i ≡ Some m → (first ≤ m.def) × (m.def < first + 64) }
    requires tables { AreTables marks.now start tables.now }
    ensures { (j : ℕ) → (bit_at result j ≡ 1) ↔ UseMeets sites.now function marks.now start first came u j }
{
    if came == 0 {
        return 0;
    }
    if u == 0 {
        return 0;
    }
    if u > sites.uses() {
        return 0;
    }
    let used = sites.use_site(u);
    if used.function != function {
        return 0;
    }
    let word = met(tables, came, used);
    let bits = defs_of(marks, start, first, word);
    bits
}

// The number of a use as it counts from the low one, if it is below the length.
fn index_of(u: u16, low: u16, length: usize) -> Option<usize>
    ensures { (k : ℕ) → (result ≡ Some k) ↔ ((u ≡ low + k) × (k < length)) }
{
    if u < low {
        return None;
    }
    let k = (u - low) as usize;
    if k < length { Some(k) } else { None }
}

// The definitions of the marks that came to a row and meet its use.
fn hit_row(
    hits: &mut Vec<u64>,
    low: u16,
    came: u64,
    action: Action,
    sites: &Sites,
    function: u32,
    marks: &[Mark],
    start: usize,
    first: u16,
    tables: &Tables,
)
    requires start { start < 2 ^ 63 }
    requires within { (i : ℕ) (m : MarkOf) → slice_get marks.now i ≡ Some m → (first ≤ m.def) × (m.def < first + 64) }
    requires tables { AreTables marks.now start tables.now }
    ensures { AddsBits (λ k j. RowHits sites.now function marks.now start first came action (low + k) j) hits.old.items hits.new.items }
{
    if let Action::Use(u) = action {
        match index_of(u, low, hits.len()) {
            None => (),
            Some(k) => {
                let word = row_bits(came, u, sites, function, marks, start, first, tables);
                add_bits(hits, k, word);
            }
        }
    }
}

/// The definitions of the marks that came to rows and meet the uses there.
#[tactic(auto, using(crate::proofs::Meeting::hits_start))]
pub fn hit_rows(
    hits: &mut Vec<u64>,
    low: u16,
    came: &[u64],
    flow: &[FlowRow],
    sites: &Sites,
    function: u32,
    marks: &[Mark],
    start: usize,
    first: u16,
    tables: &Tables,
)
    requires start { start < 2 ^ 63 }
    requires size { length came.now ≡ length flow.now }
    requires within { (i : ℕ) (m : MarkOf) → slice_get marks.now i ≡ Some m → (first ≤ m.def) × (m.def < first + 64) }
    requires tables { AreTables marks.now start tables.now }
    ensures { AddsBits (λ k j. SomeHits flow.now sites.now function marks.now start first came.now (length flow.now) (low + k) j) hits.old.items hits.new.items }
{
    for row in 0..flow.len() {
        let action = flow[row].action;
        hit_row(
            hits, low, came[row], action, sites, function, marks, start, first, tables,
        );
    }
}
