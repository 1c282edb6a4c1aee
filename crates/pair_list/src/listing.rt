//! The items of a program.

ghost use Rattle.std.specs.Prelude.{◌≡◌, IfOk, IfErr};
ghost use Rattle.c_syntax.specs.View.{unit_shape};
ghost use Rattle.c_tables.specs.Tables.{tables_shape};
ghost use Rattle.c_sites.specs.Refused.{AreSites};
ghost use Rattle.atac_base.specs.Items.{ItemLists};
ghost use Rattle.pair_list.specs.declared.pairs.ListRefusal.TheVariants.{TooManyPairs};
ghost use Rattle.c_meaning.specs.Sources.{source_of};
ghost use Rattle.pair_list.specs.Items.{AreItems, AreTooMany};
ghost use Rattle.pair_list.specs.Missing.{MissesNone};

use crate::externals::unit_pairs;
use crate::kinds::items_with;
use crate::pairs::ListRefusal;
use atac_base::items::Items;
use c_sites::numbered::Sites;
use c_tree::program::Program;
use std::alloc::Global;

/// The items of a program with these sites: its blocks, the outcomes of its decisions, and the c-uses and p-uses of its
/// pairs of a definition and a use, each kind in ascending order; TooManyPairs, which is refusal 51, where c-uses and p-uses
/// are more than 1,000,000. No program is both. The items have each pair and p-use that a run covers between sites of one
/// scalar local variable or parameter.
#[tactic(auto, using(crate::proofs::Placing::are_items))]
pub fn list(alloc: Global, program: &Program, sites: &Sites) -> Result<Items, ListRefusal>
    requires { AreSites program.now sites.now }
    ensures items { IfOk result (λ items. AreItems (tables_shape program.now.tables) (unit_shape program.now.unit) sites.now items) }
    ensures more { IfErr result (λ e. e ≡ TooManyPairs → AreTooMany (tables_shape program.now.tables) (unit_shape program.now.unit) sites.now) }
    ensures misses_none { IfOk result (λ items. MissesNone (source_of program.now) sites.now items) }
    ensures apart { AreTooMany (tables_shape program.now.tables) (unit_shape program.now.unit) sites.now → (items : ItemLists) → AreItems (tables_shape program.now.tables) (unit_shape program.now.unit) sites.now items → ⊥ }
{
    let pairs = match unit_pairs(alloc, program.tables(), program.unit(), sites) {
        Ok(pairs) => pairs,
        Err(e) => return Err(e),
    };
    match items_with(alloc, sites, &pairs) {
        Ok(items) => Ok(items),
        Err(_) => Err(ListRefusal::NoMemory),
    }
}
