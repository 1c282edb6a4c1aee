//! Lists of different marks.

ghost use Rattle.std.specs.Prelude.{◌≤◌, ◌↔◌, ℕ, List, length, vec_len, Contains, IsTrue, IfOk, OnOk};
ghost use Rattle.reach_defs.specs.Paths.{IsListed};
ghost use Rattle.reach_defs.specs.Listing.{AddsMarks};
ghost use Rattle.reach_defs.specs.Work.{Puts};

use crate::rows::ReachRow;
use c_base::place::NoMemory;
use std::alloc::Global;

/// Whether the mark is among these.
pub fn has_mark(marks: &[u32], mark: u32) -> bool
    ensures { IsTrue result ↔ Contains marks.now mark }
{
    marks.contains(&mark)
}

/// Appends a mark, if it isn't there.
fn add_mark(marks: &mut Vec<u32>, mark: u32) -> Result<(), NoMemory>
    ensures { OnOk result (Puts marks.old.items mark marks.new.items) }
{
    if has_mark(marks, mark) {
        return Ok(());
    }
    match marks.push(mark) {
        Ok(()) => Ok(()),
        Err(_) => Err(NoMemory),
    }
}

/// Appends those of the marks that aren't there.
fn add_marks(marks: &mut Vec<u32>, more: &[u32]) -> Result<(), NoMemory>
    ensures { OnOk result (AddsMarks marks.old.items more.now marks.new.items (length more.now)) }
{
    for mark in more {
        add_mark(marks, *mark)?;
    }
    Ok(())
}

/// The different marks that rows give. No list that has them all is shorter.
pub fn different_marks(alloc: Global, rows: &[ReachRow]) -> Result<Vec<u32>, NoMemory>
    ensures listed { IfOk result (λ marks. IsListed rows.now marks.items) }
    ensures fewest { IfOk result (λ marks. (others : List ℕ) → IsListed rows.now others → vec_len marks ≤ length others) }
{
    let mut marks = Vec::new(alloc);
    for row in rows {
        add_marks(&mut marks, row.gives.numbers())?;
    }
    Ok(marks)
}
