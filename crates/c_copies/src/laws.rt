//! The laws, as contracts.

ghost use Rattle.std.specs.Prelude.{◌≡◌, OnErr, OnOk, IfErr};
ghost use Rattle.c_copies.specs.Laws.{AllInstancesStay, CopiesAreDetermined, CopiesAreMade, CopiesFail, IsCopied, MayNotCopy, OtherCellsStay, SelfCopiesChangeNothing, TargetsReadAsSources};

use c_store::store::Store;
use c_store::value::{Fault, Pointer};

/// After a copy each cell of the target reads as that of the source did before, also where both share cells: a value, or that it has none.
#[tactic(auto, using(crate::proofs::Left::targets))]
pub fn targets_read_as_sources()
    ensures { TargetsReadAsSources }
{}

/// Each other cell, of whichever instance, reads as it did.
#[tactic(auto, using(crate::proofs::Left::other_cells))]
pub fn other_cells_stay()
    ensures { OtherCellsStay }
{}

/// The instances stay as they were: which live, how long they are, and which may be written; and none is made.
#[tactic(auto, using(crate::proofs::Left::all_instances))]
pub fn all_instances_stay()
    ensures { AllInstancesStay }
{}

/// A structure that is copied onto itself, as by `g = g`, changes nothing.
#[tactic(auto, using(crate::proofs::Left::self_copies))]
pub fn self_copies_change_nothing()
    ensures { SelfCopiesChangeNothing }
{}

/// There is a copy exactly where both structures are there and the target may be written.
pub fn copies_are_made()
    ensures { CopiesAreMade }
{}

/// Elsewhere there is a fault: the source's, if it is missing, else the target's, else that it is a literal's.
#[tactic(auto, using(crate::proofs::Faults::copies_fail))]
pub fn copies_fail()
    ensures { CopiesFail }
{}

/// These laws leave nothing open: a store of which they hold is the one that the copy leaves.
#[tactic(auto, using(crate::proofs::Alone::determined))]
pub fn copies_are_determined()
    ensures { CopiesAreDetermined }
{}

/// The call copies so, or gives such a fault and leaves the store as it was.
#[tactic(auto, using(crate::proofs::Called::call_copies, crate::proofs::Called::call_fails))]
pub fn copy(store: &mut Store, from: Pointer, to: Pointer) -> Result<(), Fault>
    requires { from.size ≡ to.size }
    ensures copied { OnOk result (IsCopied store.old from to store.new) }
    ensures fault { IfErr result (λ f. MayNotCopy store.old from to f) }
    ensures kept { OnErr result (store.new ≡ store.old) }
{
    store.copy(from, to)
}
