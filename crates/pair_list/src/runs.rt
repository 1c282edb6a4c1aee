//! The pairs of definitions that follow each other in one function.

ghost use Rattle.std.specs.Prelude.{◌≡◌, ◌<◌, ◌≤◌, ◌+◌, ◌^◌, ℕ, length, IfOk, IfErr, OnOk};
ghost use Rattle.flow_marks.specs.Paths.{IsStep};
ghost use Rattle.pair_list.specs.declared.pairs.ListRefusal.TheVariants.{TooManyPairs};
ghost use Rattle.pair_list.specs.Masks.{AreReached};
ghost use Rattle.pair_list.specs.PairLists.{items_in, pairs_from, Appends, HasMore};
ghost use Rattle.pair_list.specs.Found.{IsFoundPair, IsSpelledPair};

use crate::pairs::{ListRefusal, Pair};
use crate::passes::found;
use crate::push::push_hits;
use crate::reached::reached_rows;
use crate::spans::{Span, span_of};
use c_sites::numbered::Sites;
use flow_marks::flow::FlowRow;
use std::alloc::Global;

// The pairs of at most 64 definitions.
fn push_few(
    alloc: Global,
    pairs: &mut Vec<Pair>,
    items: u64,
    flow: &[FlowRow],
    reached: &[bool],
    sites: &Sites,
    function: u32,
    span: Span,
    first: u16,
    count: u16,
    limit: u32,
) -> Result<u64, ListRefusal>
    requires few { length flow.now < 2 ^ 32 }
    requires in_range { (row to : ℕ) → IsStep flow.now row to → to < length flow.now }
    requires reached { AreReached flow.now reached.now }
    requires first { 1 ≤ first }
    requires word { count ≤ 64 }
    requires last { first + count ≤ length sites.now.lists.defs.items + 1 }
    requires defs { length sites.now.lists.defs.items ≤ 16383 }
    requires uses { length sites.now.lists.uses.items ≤ 16383 }
    requires order { (1 ≤ span.low) × (span.low ≤ span.high) }
    requires span { span.high ≤ length sites.now.lists.uses.items + 1 }
    requires outside { (d u : ℕ) → IsFoundPair flow.now sites.now function (record { def = d; used = u }) → (span.low ≤ u) × (u < span.high) }
    requires within { items ≤ limit }
    requires count { items ≡ items_in sites.now pairs.old.items }
    ensures pairs { OnOk result (Appends (IsFoundPair flow.now sites.now function) (pairs_from (length sites.now.lists.uses.items) first count) pairs.old.items pairs.new.items) }
    ensures within { IfOk result (λ now. now ≤ limit) }
    ensures count { IfOk result (λ now. now ≡ items_in sites.now pairs.new.items) }
    ensures more { IfErr result (λ e. e ≡ TooManyPairs → HasMore (IsFoundPair flow.now sites.now function) (pairs_from (length sites.now.lists.uses.items) first count) sites.now pairs.old.items limit) }
{
    let uses = span.high - span.low;
    let hits = match found(
        alloc, span.low, uses, flow, reached, sites, function, first, count,
    ) {
        Ok(hits) => hits,
        Err(_) => return Err(ListRefusal::NoMemory),
    };
    let mut now = items;
    for j in 0..count {
        match push_hits(
            pairs,
            now,
            &hits,
            span.low,
            j as u32,
            first + j,
            sites,
            limit,
        ) {
            Ok(more) => now = more,
            Err(e) => return Err(e),
        }
    }
    Ok(now)
}

fn few_of(left: u16) -> u16
    requires { 0 < left }
    ensures some { 0 < result }
    ensures few { result ≤ 64 }
    ensures within { result ≤ left }
{
    if left < 64 { left } else { 64 }
}

// The pairs of that many definitions from the first on, by rows.
#[tactic(auto, using(crate::proofs::Running::appends_none))]
fn push_run(
    alloc: Global,
    pairs: &mut Vec<Pair>,
    items: u64,
    flow: &[FlowRow],
    sites: &Sites,
    function: u32,
    first: u16,
    count: u16,
    limit: u32,
) -> Result<u64, ListRefusal>
    requires some { 0 < length flow.now }
    requires few { length flow.now < 2 ^ 32 }
    requires in_range { (row to : ℕ) → IsStep flow.now row to → to < length flow.now }
    requires first { 1 ≤ first }
    requires last { first + count ≤ length sites.now.lists.defs.items + 1 }
    requires defs { length sites.now.lists.defs.items ≤ 16383 }
    requires uses { length sites.now.lists.uses.items ≤ 16383 }
    requires within { items ≤ limit }
    requires count { items ≡ items_in sites.now pairs.old.items }
    ensures pairs { OnOk result (Appends (IsFoundPair flow.now sites.now function) (pairs_from (length sites.now.lists.uses.items) first count) pairs.old.items pairs.new.items) }
    ensures within { IfOk result (λ now. now ≤ limit) }
    ensures count { IfOk result (λ now. now ≡ items_in sites.now pairs.new.items) }
    ensures more { IfErr result (λ e. e ≡ TooManyPairs → HasMore (IsFoundPair flow.now sites.now function) (pairs_from (length sites.now.lists.uses.items) first count) sites.now pairs.old.items limit) }
{
    let reached = match reached_rows(alloc, flow) {
        Ok(reached) => reached,
        Err(_) => return Err(ListRefusal::NoMemory),
    };
    let span = span_of(flow, sites.uses());
    let mut now = items;
    let mut done = 0;
    while done < count {
        let many = few_of(count - done);
        match push_few(
            alloc,
            pairs,
            now,
            flow,
            &reached,
            sites,
            function,
            span,
            first + done,
            many,
            limit,
        ) {
            Ok(more) => now = more,
            Err(e) => return Err(e),
        }
        done += many;
    }
    Ok(now)
}

/// The pairs of that many definitions from the first on, in ascending order, each once: those that the paths through
/// the rows of the function spell. While the items that they and the others stand for are within the limit.
pub fn run_pairs(
    alloc: Global,
    pairs: &mut Vec<Pair>,
    items: u64,
    flow: &[FlowRow],
    sites: &Sites,
    function: u32,
    first: u16,
    count: u16,
    limit: u32,
) -> Result<u64, ListRefusal>
    requires some { 0 < length flow.now }
    requires few { length flow.now < 2 ^ 32 }
    requires in_range { (row to : ℕ) → IsStep flow.now row to → to < length flow.now }
    requires first { 1 ≤ first }
    requires last { first + count ≤ length sites.now.lists.defs.items + 1 }
    requires defs { length sites.now.lists.defs.items ≤ 16383 }
    requires uses { length sites.now.lists.uses.items ≤ 16383 }
    requires within { items ≤ limit }
    requires count { items ≡ items_in sites.now pairs.old.items }
    ensures pairs { OnOk result (Appends (IsSpelledPair flow.now sites.now function) (pairs_from (length sites.now.lists.uses.items) first count) pairs.old.items pairs.new.items) }
    ensures within { IfOk result (λ now. now ≤ limit) }
    ensures count { IfOk result (λ now. now ≡ items_in sites.now pairs.new.items) }
    ensures more { IfErr result (λ e. e ≡ TooManyPairs → HasMore (IsSpelledPair flow.now sites.now function) (pairs_from (length sites.now.lists.uses.items) first count) sites.now pairs.old.items limit) }
{
    match push_run(
        alloc, pairs, items, flow, sites, function, first, count, limit,
    ) {
        Ok(now) => Ok(now),
        Err(e) => Err(e),
    }
}
