//! Which marks reach which rows.

ghost use Rattle.std.specs.Prelude.{◌≡◌, ◌+◌, ◌*◌, ◌^◌, ◌<◌, ◌≤◌, ◌↔◌, ℕ, List, IsTrue, length, IfOk};
ghost use Rattle.reach_defs.specs.Paths.{IsEdge, Arrives, IsListed};
ghost use Rattle.reach_defs.specs.Held.{Has};

use crate::grid::empty;
use crate::marks::different_marks;
use crate::pass::spread;
use crate::rows::ReachRow;
use crate::steps::Steps;
pub use crate::table::Reach;
use crate::worklist::all_rows;
use c_base::place::NoMemory;
use std::alloc::Global;
use std::sync::ledger::Ledger;

/// Which marks reach which rows. A step is one taking of a row from the worklist. Where memory runs out, steps may have
/// been taken.
#[tactic(auto, using(crate::proofs::Spreading::start_open, crate::proofs::Spreading::start_sound))]
pub fn reach<L: Ledger>(
    alloc: Global,
    rows: &[ReachRow],
    steps: &mut Steps<L>,
) -> Result<Reach, NoMemory>
    requires few { length rows.now < 2 ^ 32 }
    requires in_range { (from to : ℕ) → IsEdge rows.now from to → to < length rows.now }

    // A mark reaches a row exactly where a path of one edge or more leads to it from a row that gives the mark, and no
    // row strictly between stops the mark.
    ensures sound { IfOk result (λ found. (row mark : ℕ) → Has found row mark → Arrives rows.now row mark) }
    ensures complete { IfOk result (λ found. (row mark : ℕ) → Arrives rows.now row mark → Has found row mark) }

    // The shortest such list has the different marks that rows give.
    ensures steps { (marks : List ℕ) → IsListed rows.now marks → steps.new ≤ steps.old + length rows.now * (length marks + 1) }
{
    let marks = different_marks(alloc, rows)?;
    let mut held = empty(alloc, rows.len(), marks.len())?;
    let mut worklist = all_rows(alloc, rows.len() as u32)?;
    while let Some(from) = worklist.take(steps) {
        let row = &rows[from as usize];
        spread(
            rows,
            &marks,
            &mut held,
            &mut worklist,
            from as usize,
            row.next.numbers(),
        )?;
    }
    Ok(Reach { marks, held })
}

impl Reach {
    /// Whether the mark reaches the row.
    pub fn at(&self, row: u32, mark: u32) -> bool
        ensures { IsTrue result ↔ Has self.now row mark }
    {
        if row as usize >= self.held.height {
            return false;
        }
        for i in 0..self.marks.len() {
            if self.marks[i] == mark && self.held.has(row as usize, i) {
                return true;
            }
        }
        false
    }
}
