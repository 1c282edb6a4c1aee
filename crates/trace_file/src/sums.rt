//! Sums of traces, and the tally of one run.

ghost use Rattle.std.specs.Prelude.{◌≡◌, ◌≤◌, ◌+◌, min, ℕ, true, if◌then◌else◌, OnOk, OnErr, IfOk};
ghost use Rattle.std.specs.List.{All};
ghost use Rattle.atac_facts.specs.declared.fact.Fact.{Fact};
ghost use Rattle.atac_facts.specs.Facts.{fits};
ghost use Rattle.atac_facts.specs.Sets.{holds};
ghost use Rattle.atac_facts.specs.Tallies.{count_of};
ghost use Rattle.atac_facts.specs.Sums.{most};
ghost use Rattle.trace_file.specs.Sound.{Orderly, IsSound};
ghost use Rattle.trace_file.specs.Sums.{AreSound, HoldsSound, RowFits, AreRows};

use crate::trace::Trace;
use atac_facts::facts::Facts;
use atac_facts::sum::tally_into;
use atac_facts::tally::{Counted, Tally};
use c_base::place::NoMemory;
use std::alloc::Global;

// A row's numbers fit, by their types.
fn row_fits(row: Counted)
    ensures { RowFits row }
{
    let _key = row.fact.key();
}

// So do those of all rows. The types say it of a row that is read, so each is read.
fn rows_fit(rows: &[Counted])
    ensures { All RowFits rows.now }
{
    for row in rows {
        row_fits(*row);
    }
}

// So the rows of a tally are what they should be.
pub(crate) fn are_rows(tally: &Tally)
    ensures { AreRows tally.now }
{
    rows_fit(tally.rows());
}

// The law of a tally: where all its facts are sound, so are its rows, in their order.
fn law_of_rows(tally: &Tally)
    ensures { AreSound tally.now → Orderly 0 tally.now }
{
    rows_fit(tally.rows());
}

/// Adds the counts of all facts, each stopping at 4,294,967,295.
pub fn add_tally(into: &mut Tally, from: &Tally) -> Result<(), NoMemory>
    ensures counts { OnOk result ((fact : Fact) → count_of into.new fact ≡ min (count_of into.old fact + count_of from.now fact) most) }
    // Where all facts of both are sound, so are those of the sum.
    ensures facts { OnOk result (AreSound into.old → AreSound from.now → AreSound into.new) }
    // With them its rows are, so that a trace with this tally and no more old runs than runs is sound.
    ensures rows { OnOk result (AreSound into.new → Orderly 0 into.new) }
    ensures sound { OnOk result (Orderly 0 into.old → Orderly 0 from.now → Orderly 0 into.new) }
    ensures err { OnErr result (into.new ≡ into.old) }
{
    tally_into(into, from)?;
    law_of_rows(into);
    Ok(())
}

/// The tally of one run: each fact of the set once.
pub fn facts_tally(alloc: Global, facts: &Facts) -> Result<Tally, NoMemory>
    ensures counts { IfOk result (λ t. (fact : Fact) → fits fact ≡ true → count_of t fact ≡ (if holds facts.now fact then 1 else 0)) }
    ensures sound { IfOk result (λ t. HoldsSound facts.now → Orderly 0 t) }
{
    let mut tally = Tally::new(alloc);
    let mut last = None;
    while let Some(fact) = facts.after(last) {
        tally.append(fact, 1)?;
        last = Some(fact);
    }
    Ok(tally)
}

/// Adds a trace of the same program: its runs, its old runs and its tally. Each number stops at 4,294,967,295.
pub fn add_trace(alloc: Global, into: &mut Trace, from: Trace) -> Result<(), NoMemory>
    ensures digest { into.new.digest ≡ into.old.digest }
    ensures runs { OnOk result (into.new.runs ≡ min (into.old.runs + from.runs) most) }
    ensures old_runs { OnOk result (into.new.old_runs ≡ min (into.old.old_runs + from.old_runs) most) }
    ensures counts { OnOk result ((fact : Fact) → count_of into.new.tally fact ≡ min (count_of into.old.tally fact + count_of from.tally fact) most) }
    ensures sound { OnOk result (IsSound into.old → IsSound from → IsSound into.new) }
    ensures err { OnErr result (into.new ≡ into.old) }
{
    into.tally.add(alloc, from.tally)?;
    into.runs = into.runs.saturating_add(from.runs);
    into.old_runs = into.old_runs.saturating_add(from.old_runs);
    Ok(())
}

/// Adds one run, whose facts these are. Each number stops at 4,294,967,295.
pub fn add_run(alloc: Global, into: &mut Trace, facts: &Facts) -> Result<(), NoMemory>
    ensures digest { into.new.digest ≡ into.old.digest }
    ensures runs { OnOk result (into.new.runs ≡ min (into.old.runs + 1) most) }
    ensures old_runs { into.new.old_runs ≡ into.old.old_runs }
    ensures counts { OnOk result ((fact : Fact) → fits fact ≡ true → count_of into.new.tally fact ≡ min (count_of into.old.tally fact + (if holds facts.now fact then 1 else 0)) most) }
    ensures sound { OnOk result (IsSound into.old → HoldsSound facts.now → IsSound into.new) }
    ensures rows { OnOk result (AreRows into.new.tally) }
    ensures err { OnErr result (into.new ≡ into.old) }
{
    let run = facts_tally(alloc, facts)?;
    into.tally.add_tally(alloc, &run)?;
    into.runs = into.runs.saturating_add(1);
    Ok(())
}
