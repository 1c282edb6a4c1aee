//! Lists of statements, with where they stand in the program.

ghost use Rattle.std.specs.Prelude.{◌≡◌, ◌+◌, ◌≤◌, drop};
ghost use Rattle.c_syntax.specs.View.{item_list};
ghost use Rattle.c_meaning.specs.Counts.{items_variables};
ghost use Rattle.c_plan.specs.Extents.{items_extents, Begins};

use crate::extent::Extent;
use crate::placed::Placed;
use c_syntax::tree::{Item, Label};

/// The statements in a list from an index on, the extents of the statements in them, and how many variables of the program
/// are declared before them.
#[derive(Clone, Copy, Drop)]
pub struct Sequence<'p> {
    pub items: &'p Vec<Item>,
    pub from: usize,
    pub extents: &'p [Extent],
    pub before: u32,
    ghost listed: { Begins (items_extents (item_list (drop from items.now.items))) extents.now },
    ghost fits: { before + items_variables (item_list (drop from items.now.items)) ≤ 4294967295 },
}

/// A list of statements at its end, or its first statement with the labels of it, and those behind it.
#[derive(Clone, Copy, Drop)]
pub enum Cut<'p> {
    Done,
    First(&'p [Label], Placed<'p>, Sequence<'p>),
}

impl<'p> Sequence<'p> {
    ghost use Rattle.c_plan.specs.Parts.{items_left, IsCut};

    /// All statements of a list, behind so many variables.
    #[inline(always)]
    pub fn of(items: &'p Vec<Item>, extents: &'p [Extent], before: u32) -> Sequence<'p>
        requires listed { Begins (items_extents (item_list items.now.items)) extents.now }
        requires fits { before + items_variables (item_list items.now.items) ≤ 4294967295 }
        ensures items { items_left result ≡ item_list items.now.items }
        ensures before { result.before ≡ before }
    {
        Sequence {
            items,
            from: 0,
            extents,
            before,
        }
    }

    /// The first statement, and those behind it.
    #[inline(always)]
    pub fn cut(self) -> Cut<'p>
        ensures { IsCut self.entry result }
    {
        match self.items.get(self.from) {
            None => Cut::Done,
            Some(item) => {
                let extent = self.extents[0];
                let first = Placed {
                    stmt: &item.stmt,
                    extents: self.extents,
                    before: self.before,
                };
                let rest = Sequence {
                    items: self.items,
                    from: self.from + 1,
                    extents: &self.extents[extent.statements as usize..],
                    before: self.before + extent.variables,
                };
                Cut::First(&item.labels, first, rest)
            }
        }
    }
}
