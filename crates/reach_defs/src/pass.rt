//! Marks, passed on from row to row.

ghost use Rattle.std.specs.Prelude.{◌≡◌, ◌+◌, ◌<◌, ◌↔◌, ℕ, IsTrue, true, false, length, OnOk, Contains, slice_get};
ghost use Rattle.reach_defs.specs.Held.{held_count};
ghost use Rattle.reach_defs.specs.Paths.{Gives, Stops, IsEdge, next_of};
ghost use Rattle.reach_defs.specs.Passing.{LetsOut, Passed, Spread};
ghost use Rattle.reach_defs.specs.declared.table.Grid.{Grid as Table};

use crate::marks::has_mark;
use crate::rows::ReachRow;
use crate::table::Grid;
use crate::worklist::Worklist;
use c_base::place::NoMemory;

fn gives_mark(rows: &[ReachRow], row: usize, mark: u32) -> bool
    requires { row < length rows.now }
    ensures { IsTrue result ↔ Gives rows.now row mark }
{
    has_mark(rows[row].gives.numbers(), mark)
}

fn stops_mark(rows: &[ReachRow], row: usize, mark: u32) -> bool
    requires { row < length rows.now }
    ensures { IsTrue result ↔ Stops rows.now row mark }
{
    has_mark(rows[row].stops.numbers(), mark)
}

/// Whether a row lets a mark out: it gives the mark, or holds it and doesn't stop it.
fn lets_out(rows: &[ReachRow], marks: &[u32], held: &Grid, row: usize, i: usize) -> bool
    requires row { row < length rows.now }
    requires mark { i < length marks.now }
    requires height { held.now.height ≡ length rows.now }
    requires width { held.now.width ≡ length marks.now }
    ensures { IsTrue result ↔ LetsOut rows.now marks.now held.now row i }
{
    let mark = marks[i];
    if gives_mark(rows, row, mark) {
        return true;
    }
    if !held.has(row, i) {
        return false;
    }
    !stops_mark(rows, row, mark)
}

/// Passes one mark on along an edge, and says whether it is new there.
#[tactic(auto, using(crate::proofs::Spreading::pass_set, crate::proofs::Spreading::pass_skip))]
fn pass_one(
    rows: &[ReachRow],
    marks: &[u32],
    held: &mut Grid,
    from: usize,
    to: usize,
    i: usize,
) -> bool
    requires from { from < length rows.now }
    requires to { to < length rows.now }
    requires mark { i < length marks.now }
    requires height { held.old.height ≡ length rows.now }
    requires width { held.old.width ≡ length marks.now }
    requires edge { IsEdge rows.now from to }
    ensures step { (first : Table) → Passed rows.now marks.now from to first held.old i → Passed rows.now marks.now from to first held.new (i + 1) }
    ensures more { result ≡ true → held_count held.new ≡ held_count held.old + 1 }
    ensures same { result ≡ false → held.new ≡ held.old }
{
    if !lets_out(rows, marks, held, from, i) {
        return false;
    }
    held.set(to, i)
}

/// Passes all marks on along an edge, and says whether one is new there.
#[tactic(auto, using(crate::proofs::Spreading::pass_start))]
fn pass_all(rows: &[ReachRow], marks: &[u32], held: &mut Grid, from: usize, to: usize) -> bool
    requires from { from < length rows.now }
    requires to { to < length rows.now }
    requires height { held.old.height ≡ length rows.now }
    requires width { held.old.width ≡ length marks.now }
    requires edge { IsEdge rows.now from to }
    ensures passed { Passed rows.now marks.now from to held.old held.new (length marks.now) }
    ensures more { result ≡ true → held_count held.old < held_count held.new }
    ensures same { result ≡ false → held.new ≡ held.old }
{
    let mut grown = false;
    for i in 0..marks.len() {
        if pass_one(rows, marks, held, from, to, i) {
            grown = true;
        }
    }
    grown
}

/// Passes all marks on from a row to its next ones, and lets those wait that hold more now.
#[tactic(auto, using(crate::proofs::Spreading::spread_start))]
pub fn spread(
    rows: &[ReachRow],
    marks: &[u32],
    held: &mut Grid,
    worklist: &mut Worklist,
    from: usize,
    next: &[u32],
) -> Result<(), NoMemory>
    requires from { from < length rows.now }
    requires next { next.now ≡ next_of (slice_get rows.now from) }
    requires in_range { (row to : ℕ) → IsEdge rows.now row to → to < length rows.now }
    requires height { held.old.height ≡ length rows.now }
    requires width { held.old.width ≡ length marks.now }
    requires worklist { worklist.old.rows ≡ length rows.now }
    ensures spread { OnOk result (Spread rows.now marks.now from held.old worklist.old.queue held.new worklist.new.queue (length next.now)) }
    ensures rows { OnOk result (worklist.new.rows ≡ worklist.old.rows) }
{
    for to in next {
        if pass_all(rows, marks, held, from, *to as usize) {
            worklist.put(*to)?;
        }
    }
    Ok(())
}
