//! The laws, as contracts.

ghost use Rattle.c_ordered.specs.Ordered.{BlocksAreParts, DecisionsAreParts, HoldersAreInnermost, ItemsAreInPreorder, PartsAreAll, PartsAreInOrder};
ghost use Rattle.c_ordered.specs.Texts.{BlocksStandAtTokens, PartsStandAlongTokens};

/// The items of a program are those of its unit's parts in preorder, each part's own behind those of the parts before it: by its role and
/// its form, at its own place, with the function, the decision and the variable that hold it.
#[tactic(auto, using(crate::proofs::Ordering::items_in_preorder))]
pub fn items_are_in_preorder()
    ensures { ItemsAreInPreorder }
{}

/// Each part of a unit is listed once, with the path that leads to it, and in preorder.
#[tactic(auto, using(crate::proofs::Ordering::parts_in_order, crate::proofs::Ordering::parts_all))]
pub fn parts_are_listed()
    ensures order { PartsAreInOrder }
    ensures all { PartsAreAll }
{}

/// The function, the decision and the variable that hold a part are the innermost ones that do.
pub fn holders_are_innermost()
    ensures { HoldersAreInnermost }
{}

/// No part is two blocks, or two decisions; and these stand in preorder.
pub fn items_are_parts()
    ensures blocks { BlocksAreParts }
    ensures decisions { DecisionsAreParts }
{}

/// The places of the parts in preorder are those of tokens, in the order of the text; and no two blocks begin at one token.
#[tactic(auto, using(crate::proofs::AlongUnits::parts_along, crate::proofs::Blocks::blocks_stand))]
pub fn parts_stand_in_the_text()
    ensures parts { PartsStandAlongTokens }
    ensures blocks { BlocksStandAtTokens }
{}
