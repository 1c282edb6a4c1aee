// The blocks, decisions and sites of a program.

ghost use Rattle.std.specs.Prelude.{◌≡◌, map, length, All, None, IfOk, MatchResult};
ghost use Rattle.c_tables.specs.Tables.{tables_shape};
ghost use Rattle.c_walk.specs.ItemView.{item_shape};
ghost use Rattle.c_walk.specs.Sound.{AreSound};
ghost use Rattle.c_sites.specs.Limits.{no_counts, excess};
ghost use Rattle.c_sites.specs.Refused.{IsRead, AreNumbered, AreSites, IsRefused};

use crate::limits::excess;
use crate::lists::lists_of;
use crate::numbered::Sites;
use c_base::place::{NoMemory, Pos};
use c_sites_probes::marked::unit_mark;
use c_tables::tables::Tables;
use c_tree::program::Program;
use c_walk::items::Item;
use c_walk::units::items_of;
use std::alloc::Global;

/// Why a program's sites are not numbered: 52 with the place of the first probe or program line in it; else 50 with the
/// place of the first item that is too much; or there is no memory.
#[derive(Clone, Copy, Debug, PartialEq, Eq)]
pub enum SiteRefusal {
    At(u8, Pos),
    NoMemory,
}

/// The blocks, decisions, definitions and uses of a program. It takes one walk over its tree, and time in its leaf names,
/// each site's counted by itself and as long as it is: each is made and looked up once.
pub fn sites(alloc: Global, program: &Program) -> Result<Sites, SiteRefusal>
    ensures { MatchResult result (AreSites program.now) (IsRefused program.now) }
{
    let unit = program.unit();
    let tables = program.tables();
    if let Some(pos) = unit_mark(unit) {
        return Err(SiteRefusal::At(52, pos));
    }
    let items = match items_of(alloc, tables, unit) {
        Ok(items) => items,
        Err(_) => return Err(SiteRefusal::NoMemory),
    };
    if let Some(pos) = excess(tables, &items) {
        return Err(SiteRefusal::At(50, pos));
    }
    match numbered(alloc, tables, items) {
        Ok(sites) => Ok(sites),
        Err(_) => Err(SiteRefusal::NoMemory),
    }
}

// The items, of which there are not too many.
#[tactic(auto, using(crate::proofs::Made::all_made))]
fn numbered(alloc: Global, tables: &Tables, items: Vec<Item>) -> Result<Sites, NoMemory>
    requires few { excess (tables_shape tables.now).structures no_counts (map item_shape items.items) ≡ None }
    requires sound { AreSound (map item_shape items.items) }
    ensures numbered { IfOk result (AreNumbered (tables_shape tables.now).structures (map item_shape items.items)) }
    ensures reads { IfOk result (λ s. All (IsRead (length s.lists.decisions.items)) s.lists.uses.items) }
{
    let (lists, names) = lists_of(alloc, tables, items)?;
    let texts = names.into_texts(alloc)?;
    Ok(Sites::new(lists, texts))
}
