//! The words of all rows.

ghost use Rattle.std.specs.Prelude.{◌≡◌, ◌↔◌, ◌<◌, ◌≤◌, ◌+◌, ◌^◌, ◌++◌, ◌∷◌, ◌⊎◌, [], ℕ, List, true, length, IfOk, OnOk, Some, slice_get};
ghost use Rattle.std.proofs.Math.ListN.{get_or};
ghost use Rattle.pair_list.specs.declared.marks.Mark.{Mark as MarkOf};
ghost use Rattle.flow_marks.specs.Paths.{IsStep, IsReached};
ghost use Rattle.flow_marks.specs.Words.{HasBit, Arrives};
ghost use Rattle.pair_list.specs.Masks.{AreReached, AreGiven, AreStopped};
ghost use Rattle.pair_list.specs.Tables.{AreTables};

use crate::marks::Mark;
use crate::masks::{given, stopped};
use crate::tables::Tables;
use c_base::place::NoMemory;
use c_sites::numbered::Sites;
use flow_marks::flow::FlowRow;
use flow_marks::words::arrivals;
use std::alloc::Global;

fn push_word(words: &mut Vec<u64>, word: u64) -> Result<(), NoMemory>
    ensures { OnOk result (words.new.items ≡ words.old.items ++ word ∷ []) }
{
    words.push(word)?;
    Ok(())
}

/// The marks that each row gives, where all are of 64 definitions from the first on.
pub fn all_given(
    alloc: Global,
    flow: &[FlowRow],
    reached: &[bool],
    marks: &[Mark],
    start: usize,
    first: u16,
) -> Result<Vec<u64>, NoMemory>
    requires start { start < 2 ^ 63 }
    requires reached { AreReached flow.now reached.now }
    requires within { (i : ℕ) (m : MarkOf) → slice_get marks.now i ≡ Some m → (first ≤ m.def) × (m.def < first + 64) }
    ensures size { IfOk result (λ words. length words.items ≡ length flow.now) }
    ensures given { IfOk result (λ words. AreGiven flow.now marks.now start words.items) }
{
    let mut words = Vec::new(alloc);
    for row in 0..flow.len() {
        let action = flow[row].action;
        push_word(&mut words, given(marks, start, first, action, reached[row]))?;
    }
    Ok(words)
}

/// The marks that each row stops.
pub fn all_stopped(
    alloc: Global,
    flow: &[FlowRow],
    sites: &Sites,
    tables: &Tables,
) -> Result<Vec<u64>, NoMemory>
    ensures size { IfOk result (λ words. length words.items ≡ length flow.now) }
    ensures stopped { IfOk result (λ words. (marks : List MarkOf) (start : ℕ) → AreTables marks start tables.now → AreStopped flow.now sites.now marks start words.items) }
{
    let mut words = Vec::new(alloc);
    for row in 0..flow.len() {
        let action = flow[row].action;
        push_word(&mut words, stopped(tables, sites, action))?;
    }
    Ok(words)
}
