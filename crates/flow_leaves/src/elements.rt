//! The laws on the places of elements and fields, as contracts: they are at the parts of their variables that they are called by.

ghost use Rattle.flow_leaves.specs.CellNames.{PartsHaveNames};
ghost use Rattle.flow_leaves.specs.DirectPlaces.{DirectPlacesStand, DirectArraysBegin};

/// The place of a variable, an element or a field, and of elements and fields of these, is at that part of the instance for which the variable stands.
pub fn direct_places_stand()
    ensures places { DirectPlacesStand }
    ensures arrays { DirectArraysBegin }
{}

/// The cells of a part of a variable have the names that they have in the whole, where no structure in a variable lies in itself.
pub fn parts_have_names()
    ensures { PartsHaveNames }
{}
