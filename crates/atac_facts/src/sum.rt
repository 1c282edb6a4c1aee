//! Sums of tallies.

ghost use Rattle.std.specs.Prelude.{◌≡◌, ◌≢◌, ◌<◌, ◌≤◌, ◌+◌, ℕ, [], length, min, IfSome, IfNone, IfOk, OnOk, OnErr};
ghost use Rattle.atac_facts.specs.declared.fact.Fact.{Fact};
ghost use Rattle.atac_facts.specs.Tallies.{AscendsFrom, count_of};
ghost use Rattle.atac_facts.specs.Facts.{rank};
ghost use Rattle.atac_facts.specs.Sums.{IsStep, most};

use crate::fact::Fact;
use crate::tally::{Counted, Tally};
use c_base::place::NoMemory;
use std::alloc::Global;

// The least row of both lists, with the counts of both, and what is left of each.
fn least<'a>(a: &'a [Counted], b: &'a [Counted]) -> Option<(Counted, &'a [Counted], &'a [Counted])>
    ensures some { IfSome result (λ x. (low : ℕ) → AscendsFrom low a.now → AscendsFrom low b.now → IsStep low a.now b.now x.0 x.1.now x.2.now) }
    ensures shorter { IfSome result (λ x. length x.1.now + length x.2.now < length a.now + length b.now) }
    ensures none { IfNone result ((a.now ≡ []) × (b.now ≡ [])) }
{
    match (a.split_first(), b.split_first()) {
        (None, None) => None,
        (Some((p, rest)), None) => Some((same_row(*p), rest, b)),
        (None, Some((q, rest))) => Some((same_row(*q), a, rest)),
        (Some((p, rest_a)), Some((q, rest_b))) => {
            let first = same_row(*p);
            let second = same_row(*q);
            if first.fact.is_before(second.fact) {
                return Some((first, rest_a, b));
            }
            if second.fact.is_before(first.fact) {
                return Some((second, a, rest_b));
            }
            let count = first.count.saturating_add(second.count);
            Some((
                Counted {
                    fact: first.fact,
                    count,
                },
                rest_a,
                rest_b,
            ))
        }
    }
}

fn same_row(row: Counted) -> Counted
    ensures value { result ≡ row }
    ensures small { result.count ≤ most }
{
    row
}

// The rows of both lists in order, a fact of both with both counts.
fn merged(alloc: Global, first: &[Counted], second: &[Counted]) -> Result<Tally, NoMemory>
    requires first { AscendsFrom 0 first.now }
    requires second { AscendsFrom 0 second.now }
    ensures { IfOk result (λ t. (fact : Fact) → count_of t fact ≡ min (count_of first.now fact + count_of second.now fact) most) }
{
    let mut sum = Tally::new(alloc);
    let mut a = first;
    let mut b = second;
    while let Some((row, rest_a, rest_b)) = least(a, b) {
        sum.append(row.fact, row.count)?;
        a = rest_a;
        b = rest_b;
    }
    Ok(sum)
}

/// Adds the counts of all facts, each stopping at 4,294,967,295.
pub fn tally_into(into: &mut Tally, from: &Tally) -> Result<(), NoMemory>
    ensures ok { OnOk result ((fact : Fact) → count_of into.new fact ≡ min (count_of into.old fact + count_of from.now fact) most) }
    ensures err { OnErr result (into.new ≡ into.old) }
{
    let sum = merged(into.alloc(), into.rows(), from.rows())?;
    *into = sum;
    Ok(())
}

// Adds to a fact's count.
pub(crate) fn add_to(tally: &mut Tally, fact: Fact, by: u32) -> Result<(), NoMemory>
    requires { 1 ≤ by }
    ensures there { OnOk result (count_of tally.new fact ≡ min (count_of tally.old fact + by) most) }
    ensures others { OnOk result ((other : Fact) → rank other ≢ rank fact → count_of tally.new other ≡ count_of tally.old other) }
    ensures err { OnErr result (tally.new ≡ tally.old) }
{
    let is_last = tally.may_end_with(fact);
    let rows = tally.rows();
    if !is_last {
        let one = [Counted { fact, count: by }];
        let sum = merged(tally.alloc(), rows, &one)?;
        *tally = sum;
        return Ok(());
    }
    tally.append(fact, by)?;
    Ok(())
}
