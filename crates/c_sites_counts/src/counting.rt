//! The numbers of a program's blocks, decisions and sites.

ghost use Rattle.std.specs.Prelude.{◌≡◌, map, MatchResult};
ghost use Rattle.c_walk.specs.ItemView.{item_shape};
ghost use Rattle.c_sites.specs.Refused.{IsRefused};
ghost use Rattle.c_sites_counts.specs.Counts.{no_counts, with_one, with_all, AreCounts};

use c_base::place::NoMemory;
use c_sites::SiteRefusal;
use c_sites::limits::excess;
use c_sites_probes::marked::unit_mark;
use c_tree::program::Program;
use c_walk::items::Item;
use c_walk::units::items_of;
use std::alloc::Global;

/// How many blocks, decisions, definitions and uses there are.
#[derive(Clone, Copy, Debug, PartialEq, Eq)]
pub struct SiteCounts {
    pub blocks: u32,
    pub decisions: u32,
    pub defs: u32,
    pub uses: u32,
}

/// How many there are in a program, or why they are refused: both as `c_sites::sites` has it. It takes one walk over the
/// tree; the leaf names of a site are counted, and none is made.
pub fn count(alloc: Global, program: &Program) -> Result<SiteCounts, SiteRefusal>
    ensures { MatchResult result (AreCounts program.now) (IsRefused program.now) }
{
    let unit = program.unit();
    let tables = program.tables();
    if let Some(pos) = unit_mark(unit) {
        return Err(SiteRefusal::At(52, pos));
    }
    let items = match items_of(alloc, tables, unit) {
        Ok(items) => items,
        Err(NoMemory) => return Err(SiteRefusal::NoMemory),
    };
    if let Some(pos) = excess(tables, &items) {
        return Err(SiteRefusal::At(50, pos));
    }
    Ok(counted(&items))
}

// How many of each kind are among the items, up to the greatest number of 32 bits.
fn counted(items: &[Item]) -> SiteCounts
    ensures { result ≡ with_all (map item_shape items.now) no_counts }
{
    let mut counts = SiteCounts {
        blocks: 0,
        decisions: 0,
        defs: 0,
        uses: 0,
    };
    for item in items {
        counts = with_one(item, counts);
    }
    counts
}

fn with_one(item: &Item, counts: SiteCounts) -> SiteCounts
    ensures { result ≡ with_one (item_shape item.now) counts }
{
    let mut counts = counts;
    match item {
        Item::Block(_) => counts.blocks = counts.blocks.saturating_add(1),
        Item::Decision(_, _) => counts.decisions = counts.decisions.saturating_add(1),
        Item::Def(_, _, _) => counts.defs = counts.defs.saturating_add(1),
        Item::Used(_, _, _, _) => counts.uses = counts.uses.saturating_add(1),
    }
    counts
}
