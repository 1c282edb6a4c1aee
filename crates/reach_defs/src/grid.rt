//! Grids of bits: rows, and the marks that they hold.

ghost use Rattle.std.specs.Prelude.{◌≡◌, ◌+◌, ◌<◌, ◌⊎◌, ◌↔◌, ℕ, IsTrue, true, false, IfOk};
ghost use Rattle.reach_defs.specs.Held.{Holds, held_count};

use crate::table::Grid;
use c_base::place::NoMemory;
use std::alloc::Global;

/// A grid that holds nothing.
pub fn empty(alloc: Global, height: usize, width: usize) -> Result<Grid, NoMemory>
    ensures height { IfOk result (λ g. g.height ≡ height) }
    ensures width { IfOk result (λ g. g.width ≡ width) }
    ensures none { IfOk result (λ g. (row i : ℕ) → Holds g row i → ⊥) }
    ensures count { IfOk result (λ g. held_count g ≡ 0) }
{
    let stride = width.div_ceil(64);
    match height.checked_mul(stride) {
        None => Err(NoMemory),
        Some(size) => match vec![in alloc; 0u64; size] {
            Err(_) => Err(NoMemory),
            Ok(words) => Ok(Grid {
                height,
                width,
                stride,
                words,
            }),
        },
    }
}

impl Grid {
    /// Whether the row holds the mark.
    #[tactic(auto, using(crate::proofs::Cells::word_within))]
    pub fn has(&self, row: usize, mark: usize) -> bool
        requires row { row < self.now.height }
        requires mark { mark < self.now.width }
        ensures { IsTrue result ↔ Holds self.now row mark }
    {
        (self.words[row * self.stride + mark / 64] >> (mark % 64)) & 1 == 1
    }

    /// Lets the row hold the mark, and says whether it didn't yet.
    #[tactic(auto, using(crate::proofs::Cells::word_within))]
    pub fn set(&mut self, row: usize, mark: usize) -> bool
        requires row { row < self.old.height }
        requires mark { mark < self.old.width }
        ensures height { self.new.height ≡ self.old.height }
        ensures width { self.new.width ≡ self.old.width }
        ensures here { Holds self.new row mark }
        ensures kept { (other i : ℕ) → Holds self.old other i → Holds self.new other i }
        ensures only { (other i : ℕ) → i < self.new.width → Holds self.new other i → Holds self.old other i ⊎ ((other ≡ row) × (i ≡ mark)) }
        ensures more { result ≡ true → held_count self.new ≡ held_count self.old + 1 }
        ensures same { result ≡ false → self.new ≡ self.old }
    {
        if self.has(row, mark) {
            return false;
        }
        let at = row * self.stride + mark / 64;
        self.words[at] |= 1u64 << (mark % 64);
        true
    }
}
