//! The text of items as JSON.

ghost use Rattle.std.specs.Prelude.{◌≡◌, Bool, IfOk};
ghost use Rattle.atac_facts.specs.declared.fact.Fact.{Fact};
ghost use Rattle.atac_facts.specs.Sets.{holds};
ghost use Rattle.atac_base.specs.Items.{ItemLists};
ghost use Rattle.serde_json.specs.Written.{compact_text};
ghost use Rattle.json_out.specs.Json.{json_of, item_lines};

use crate::rows::Covered;
use atac_base::items::Items;
use atac_facts::facts::Facts;
use c_base::place::NoMemory;
use std::alloc::Global;

/// The items as compact JSON, without a newline: an object with a list for each kind, in which each item has its place and
/// number, and whether the facts cover it. The only error is the want of memory.
///
/// From this object alone the item lines of a report, with their marks, are determined.
pub fn json_text(alloc: Global, items: &Items, facts: &Facts) -> Result<Vec<u8>, NoMemory>
    ensures text { IfOk result (λ text. text.items ≡ compact_text (json_of items.now (holds facts.now))) }
    ensures determines { (other : ItemLists) (covers : Fact → Bool) → json_of other covers ≡ json_of items.now (holds facts.now) → item_lines other covers ≡ item_lines items.now (holds facts.now) }
{
    let covered = Covered {
        alloc,
        items,
        facts,
    };
    match serde_json::to_vec(alloc, &covered) {
        Ok(text) => Ok(text),
        Err(_) => Err(NoMemory),
    }
}
