//! Runs marked as kept, from the last one to the first.

ghost use Rattle.std.specs.Prelude.{◌≡◌, ◌++◌, ◌∷◌, [], ◌||◌, ◌<◌, ◌≤◌, reverse, replicate, length, false, OnOk};
ghost use Rattle.atac_facts.specs.declared.fact.Fact.{Fact};
ghost use Rattle.atac_facts.specs.Sets.{holds};
ghost use Rattle.run_pick.specs.Marks.{needs, marks_of, taken_with};

use crate::sets::{needs, part_by};
use atac_facts::fact::Fact;
use atac_facts::facts::{Facts, union_into};
use c_base::place::NoMemory;
use std::alloc::Global;

/// So few runs are gone through one by one, and so many of more runs are cut off at once: of a thousand, each is joined to
/// others once, and a fact is looked for in some thirty sets.
const FEW: usize = 32;

// How many of the runs are cut off in front.
fn cut_of(count: usize) -> usize
    requires { 2 ≤ count }
    ensures some { 1 ≤ result }
    ensures fewer { result < count }
{
    if count > FEW { FEW } else { 1 }
}

// Appends so many marks of runs that aren't kept.
fn drop_all(marks: &mut Vec<bool>, count: usize) -> Result<(), NoMemory>
    ensures { OnOk result (marks.new.items ≡ marks.old.items ++ replicate count false) }
{
    for _i in 0..count {
        marks.push(false)?;
    }
    Ok(())
}

// Appends the mark of one run, and takes its facts where it is kept.
fn mark_one(
    run: &Facts,
    fresh: &[Fact],
    taken: &mut Facts,
    marks: &mut Vec<bool>,
) -> Result<(), NoMemory>
    ensures mark { OnOk result (marks.new.items ≡ marks.old.items ++ needs (holds taken.old) fresh.now run.now ∷ []) }
    ensures taken { OnOk result ((fact : Fact) → holds taken.new fact ≡ taken_with (holds taken.old) (run.now ∷ []) (needs (holds taken.old) fresh.now run.now ∷ []) fact) }
{
    let kept = needs(run, fresh, taken);
    marks.push(kept)?;
    if kept {
        union_into(taken, run)?;
    }
    Ok(())
}

/// Appends the marks of runs, the last one's first, and takes the facts of those that are kept: `fresh` are the facts of items
/// that no run before these shows, `taken` those that the kept runs behind them show.
///
/// The runs are cut in two: a fact that those in front show is fresh there, and any other among those behind.
pub fn mark(
    alloc: Global,
    runs: &[Facts],
    fresh: Vec<Fact>,
    taken: &mut Facts,
    marks: &mut Vec<bool>,
) -> Result<(), NoMemory>
    ensures marks { OnOk result (marks.new.items ≡ marks.old.items ++ reverse (marks_of (holds taken.old) fresh.items runs.now)) }
    ensures taken { OnOk result ((fact : Fact) → holds taken.new fact ≡ taken_with (holds taken.old) runs.now (marks_of (holds taken.old) fresh.items runs.now) fact) }
{
    if fresh.is_empty() {
        drop_all(marks, runs.len())?;
        return Ok(());
    }
    match runs {
        [] => Ok(()),
        [run] => {
            mark_one(run, &fresh, taken, marks)?;
            Ok(())
        }
        _ => {
            let middle = cut_of(runs.len());
            let (front, back) = runs.split_at(middle);
            let parted = part_by(alloc, front, &fresh)?;
            drop(fresh);
            mark(alloc, back, parted.outside, taken, marks)?;
            mark(alloc, front, parted.inside, taken, marks)?;
            Ok(())
        }
    }
}
