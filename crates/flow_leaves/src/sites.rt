//! The laws on leaf names, as contracts: scalar elements and fields of local variables may be told of by them; structures and arrays stand as wholes.

ghost use Rattle.flow_leaves.specs.Leaves.{DirectPlacesAreFound, DirectSitesMayBeTold, DirectWholesAreFound};
ghost use Rattle.flow_leaves.specs.LeafNames.{CellNamesAreLeaves, LeavesAreCellNames};

/// A scalar that is a local variable, or an element or a field in one, is found at a cell of its leaf name, and so may be told of by that name,
/// where no structure lies in itself; and a structure or an array stands there as a whole, its cells by their names.
pub fn direct_sites_may_be_told()
    ensures places { DirectPlacesAreFound }
    ensures sites { DirectSitesMayBeTold }
    ensures wholes { DirectWholesAreFound }
{}

/// The names of the cells of a direct place are the leaf names that its site is listed with, and the other way round where each array has an element.
pub fn leaves_are_cell_names()
    ensures cells { CellNamesAreLeaves }
    ensures leaves { LeavesAreCellNames }
{}
