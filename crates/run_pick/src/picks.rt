//! The runs that are kept.

ghost use Rattle.std.specs.Prelude.{◌≡◌, ◌++◌, ◌<◌, ◌≤◌, length, map, slice_get, slice_index_or, Some, OnOk, IfOk};
ghost use Rattle.cover_report.specs.ItemTexts.{of_kind, all_items};
ghost use Rattle.run_pick.specs.Kept.{facts_of, AreKept, AreEnough};

use crate::marking::mark;
use atac_base::items::Items;
use atac_facts::fact::Fact;
use atac_facts::facts::Facts;
use c_base::place::NoMemory;
use cover_report::kinds::{Kind, count, fact};
use std::alloc::Global;
use std::marker::Model;

/// Which of some runs are kept. Contracts see it as a mark for each run, in the runs' order.
#[derive(Drop)]
pub struct Picks {
    // the last run's mark first
    marks: Vec<bool>,
}

impl Model for Picks {
    ghost use Rattle.std.specs.Prelude.{List, Bool, reverse};

    ghost Value = { List Bool };

    ghost view = { λ p. reverse p.marks.items };
}

impl Picks {
    /// How many runs there are.
    pub fn len(&self) -> usize
        ensures { result ≡ length self.now }
    {
        self.marks.len()
    }

    /// Whether run `i`, counted from 0, is kept.
    pub fn kept(&self, i: u32) -> bool
        requires { i < length self.now }
        ensures { slice_get self.now i ≡ Some result }
    {
        self.at(i as usize)
    }

    pub(crate) fn at(&self, i: usize) -> bool
        requires { i < length self.now }
        ensures mark { slice_get self.now i ≡ Some result }
        ensures value { result ≡ slice_index_or self.now i result }
    {
        self.marks[self.marks.len() - 1 - i]
    }
}

// Appends the facts of the items of a kind.
fn put_facts(facts: &mut Vec<Fact>, items: &Items, kind: Kind) -> Result<(), NoMemory>
    ensures { OnOk result (facts.new.items ≡ facts.old.items ++ map (λ item. item.fact) (of_kind items.now kind)) }
{
    for i in 0..count(items, kind) {
        facts.push(fact(items, kind, i))?;
    }
    Ok(())
}

// The facts of all items.
fn facts_of(alloc: Global, items: &Items) -> Result<Vec<Fact>, NoMemory>
    ensures { IfOk result (λ facts. facts.items ≡ facts_of items.now) }
{
    let mut facts = Vec::new(alloc);
    put_facts(&mut facts, items, Kind::Block)?;
    put_facts(&mut facts, items, Kind::Outcome)?;
    put_facts(&mut facts, items, Kind::CUse)?;
    put_facts(&mut facts, items, Kind::PUse)?;
    Ok(facts)
}

/// Picks the runs to keep: a run is kept exactly where some item that any run covers is covered neither by a run before it
/// nor by a kept run after it. The only error is the want of memory.
pub fn pick(alloc: Global, items: &Items, runs: &[Facts]) -> Result<Picks, NoMemory>
    ensures kept { IfOk result (λ picks. AreKept (facts_of items.now) runs.now picks) }
    ensures enough { IfOk result (λ picks. AreEnough (facts_of items.now) runs.now picks) }
{
    let fresh = facts_of(alloc, items)?;
    let mut taken = Facts::new(alloc);
    let mut marks = Vec::new(alloc);
    mark(alloc, runs, fresh, &mut taken, &mut marks)?;
    Ok(Picks { marks })
}
