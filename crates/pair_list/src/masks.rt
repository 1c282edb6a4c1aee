//! Words with a bit for each of 64 marks.

ghost use Rattle.std.specs.Prelude.{◌≡◌, ◌↔◌, ◌<◌, ◌≤◌, ◌+◌, ◌^◌, ◌⊎◌, ℕ, List, true, Some, slice_get};
ghost use Rattle.std.specs.Int.{bit_at};
ghost use Rattle.flow_walks.specs.declared.action.Action.TheVariants.{Define};
ghost use Rattle.pair_list.specs.declared.marks.Mark.{Mark as MarkOf};
ghost use Rattle.pair_list.specs.Marks.{EndsMark};
ghost use Rattle.pair_list.specs.Masks.{MarkAt, IsMask};
ghost use Rattle.pair_list.specs.Tables.{AreTables};

use crate::lookup::{ended, of_variable};
use crate::marks::Mark;
use crate::tables::Tables;
use c_sites::numbered::Sites;
use flow_walks::action::Action;

/// The word, with that bit too if it is set.
pub fn with_bit(word: u64, i: u32, set: bool) -> u64
    requires { i < 64 }
    ensures { (j : ℕ) → (bit_at result j ≡ 1) ↔ ((bit_at word j ≡ 1) ⊎ ((j ≡ i) × (set ≡ true))) }
{
    if set { word | (1u64 << i) } else { word }
}

fn is_of(marks: &[Mark], at: usize, d: u16) -> bool
    ensures { (result ≡ true) ↔ MarkAt marks.now at (λ m. d ≡ m.def) }
{
    at < marks.len() && marks[at].def == d
}

fn is_strong_at(marks: &[Mark], at: usize) -> bool
    ensures { (result ≡ true) ↔ MarkAt marks.now at (λ m. m.strong ≡ true) }
{
    at < marks.len() && marks[at].strong
}

// The marks of a definition.
#[tactic(auto, using(crate::proofs::Masking::mask_start))]
fn marks_of_def(marks: &[Mark], start: usize, d: u16) -> u64
    requires { start < 2 ^ 63 }
    ensures { IsMask marks.now start (λ m. d ≡ m.def) result }
{
    let mut word = 0;
    for i in 0..64u32 {
        word = with_bit(word, i, is_of(marks, start + i as usize, d));
    }
    word
}

/// The marks that name one cell.
#[tactic(auto, using(crate::proofs::Masking::mask_start))]
pub fn strong_marks(marks: &[Mark], start: usize) -> u64
    requires { start < 2 ^ 63 }
    ensures { IsMask marks.now start (λ m. m.strong ≡ true) result }
{
    let mut word = 0;
    for i in 0..64u32 {
        word = with_bit(word, i, is_strong_at(marks, start + i as usize));
    }
    word
}

// Whether the definition is none of 64 from the first on.
fn is_far(first: u16, d: u16) -> bool
    ensures { (result ≡ true) ↔ ((d < first) ⊎ (first + 64 ≤ d)) }
{
    d < first || d - first >= 64
}

// The marks of a definition, where all marks are of 64 definitions from the first on.
fn marks_near(marks: &[Mark], start: usize, first: u16, d: u16) -> u64
    requires start { start < 2 ^ 63 }
    requires within { (i : ℕ) (m : MarkOf) → slice_get marks.now i ≡ Some m → (first ≤ m.def) × (m.def < first + 64) }
    ensures { IsMask marks.now start (λ m. d ≡ m.def) result }
{
    let far = is_far(first, d);
    if far {
        return 0;
    }
    let word = marks_of_def(marks, start, d);
    word
}

/// The marks that a row gives, where all marks are of 64 definitions from the first on.
pub fn given(marks: &[Mark], start: usize, first: u16, action: Action, reached: bool) -> u64
    requires start { start < 2 ^ 63 }
    requires within { (i : ℕ) (m : MarkOf) → slice_get marks.now i ≡ Some m → (first ≤ m.def) × (m.def < first + 64) }
    ensures { IsMask marks.now start (λ m. (reached ≡ true) × (action ≡ Define m.def)) result }
{
    if !reached {
        return 0;
    }
    match action {
        Action::Define(d) => marks_near(marks, start, first, d),
        _ => 0,
    }
}

// The marks that the definition of that number ends.
fn ended_by(tables: &Tables, sites: &Sites, d: u16) -> u64
    ensures { (marks : List MarkOf) (start : ℕ) → AreTables marks start tables.now → IsMask marks start (λ m. EndsMark sites.now m (Define d)) result }
{
    if d == 0 {
        return 0;
    }
    if d > sites.defs() {
        return 0;
    }
    let word = ended(tables, sites.def(d));
    word
}

/// The marks that a row stops.
pub fn stopped(tables: &Tables, sites: &Sites, action: Action) -> u64
    ensures { (marks : List MarkOf) (start : ℕ) → AreTables marks start tables.now → IsMask marks start (λ m. EndsMark sites.now m action) result }
{
    match action {
        Action::Define(d) => ended_by(tables, sites, d),
        Action::Kill(variable) => of_variable(tables, variable),
        _ => 0,
    }
}
