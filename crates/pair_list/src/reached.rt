//! The rows that are reached.

ghost use Rattle.std.specs.Prelude.{◌≡◌, ◌↔◌, ◌<◌, ◌^◌, ◌++◌, ◌∷◌, ◌⊎◌, [], ℕ, true, length, IfOk, OnOk};
ghost use Rattle.std.specs.Int.{bit_at};
ghost use Rattle.std.proofs.Math.ListN.{get_or};
ghost use Rattle.flow_marks.specs.Paths.{IsStep};
ghost use Rattle.pair_list.specs.Masks.{AreReached, IsEntry};

use c_base::place::NoMemory;
use flow_marks::flow::FlowRow;
use flow_marks::words::arrivals;
use std::alloc::Global;

/// Words without a bit.
pub fn zeros(alloc: Global, rows: usize) -> Result<Vec<u64>, NoMemory>
    ensures size { IfOk result (λ words. length words.items ≡ rows) }
    ensures none { IfOk result (λ words. (row : ℕ) → get_or words.items row 0 ≡ 0) }
{
    match vec![in alloc; 0u64; rows] {
        Err(_) => Err(NoMemory),
        Ok(words) => Ok(words),
    }
}

// Row 0 gives the mark 0.
fn entry(alloc: Global, rows: usize) -> Result<Vec<u64>, NoMemory>
    requires { 0 < rows }
    ensures size { IfOk result (λ words. length words.items ≡ rows) }
    ensures entry { IfOk result (λ words. IsEntry words.items) }
{
    let mut words = zeros(alloc, rows)?;
    words[0] = 1;
    Ok(words)
}

fn push_flag(flags: &mut Vec<bool>, flag: bool) -> Result<(), NoMemory>
    ensures { OnOk result (flags.new.items ≡ flags.old.items ++ flag ∷ []) }
{
    flags.push(flag)?;
    Ok(())
}

fn has_come(row: usize, word: u64) -> bool
    ensures { (result ≡ true) ↔ ((row ≡ 0) ⊎ (bit_at word 0 ≡ 1)) }
{
    row == 0 || word & 1 == 1
}

/// Which rows are reached: row 0, and those to which a path leads from it.
pub fn reached_rows(alloc: Global, flow: &[FlowRow]) -> Result<Vec<bool>, NoMemory>
    requires some { 0 < length flow.now }
    requires few { length flow.now < 2 ^ 32 }
    requires in_range { (row to : ℕ) → IsStep flow.now row to → to < length flow.now }
    ensures { IfOk result (λ flags. AreReached flow.now flags.items) }
{
    let gives = entry(alloc, flow.len())?;
    let stops = zeros(alloc, flow.len())?;
    let come = arrivals(alloc, flow, &gives, &stops)?;
    let mut flags = Vec::new(alloc);
    for row in 0..flow.len() {
        push_flag(&mut flags, has_come(row, come[row]))?;
    }
    Ok(flags)
}
