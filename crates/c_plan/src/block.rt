//! Compound statements: their declarators, and the statements behind them.

ghost use Rattle.std.specs.Prelude.{◌+◌, ◌≤◌};
ghost use Rattle.c_syntax.specs.View.{declarator_list, decl_list, item_list, compound_shape};
ghost use Rattle.c_meaning.specs.Counts.{variables_among, items_variables, compound_variables};
ghost use Rattle.c_plan.specs.Names.{joined, names_of};
ghost use Rattle.c_plan.specs.Extents.{items_extents, compound_extents, Begins};

use crate::counts::variables_of;
use crate::extent::Extent;
use crate::sequence::Sequence;
use c_syntax::tree::{Compound, Decl, Declarator, Item};

/// Declarators, the declarations behind them, and the statements behind these; with the extents of the statements, and how
/// many variables of the program are declared before the declarators.
#[derive(Clone, Copy, Drop)]
pub struct Block<'p> {
    pub names: &'p [Declarator],
    pub decls: &'p [Decl],
    pub items: &'p Vec<Item>,
    pub extents: &'p [Extent],
    pub before: u32,
    ghost listed: { Begins (items_extents (item_list items.now.items)) extents.now },
    ghost fits: { before + variables_among (joined (declarator_list names.now) (names_of (decl_list decls.now))) + items_variables (item_list items.now.items) ≤ 4294967295 },
}

/// The statements, where no declarator is left; or the next declarator, and what is behind it.
#[derive(Clone, Copy, Drop)]
pub enum Ahead<'p> {
    Done(Sequence<'p>),
    Name(&'p Declarator, Block<'p>),
}

impl<'p> Block<'p> {
    ghost use Rattle.c_plan.specs.Parts.{IsAhead, IsBlock};

    /// A compound statement behind so many variables.
    #[inline(always)]
    pub fn of(body: &'p Compound, extents: &'p [Extent], before: u32) -> Block<'p>
        requires listed { Begins (compound_extents (compound_shape body.now)) extents.now }
        requires fits { before + compound_variables (compound_shape body.now) ≤ 4294967295 }
        ensures { IsBlock (compound_shape body.now) before result }
    {
        Block {
            names: &[],
            decls: &body.decls,
            items: &body.items,
            extents,
            before,
        }
    }

    /// The next declarator, and what is behind it.
    #[inline(always)]
    pub fn next(self) -> Ahead<'p>
        ensures { IsAhead self.entry result }
    {
        let mut names = self.names;
        let mut decls = self.decls;
        loop {
            if let Some((name, others)) = names.split_first() {
                let rest = Block {
                    names: others,
                    decls,
                    items: self.items,
                    extents: self.extents,
                    before: self.before + variables_of(name),
                };
                return Ahead::Name(name, rest);
            }
            match decls.split_first() {
                None => {
                    return Ahead::Done(Sequence::of(self.items, self.extents, self.before));
                }
                Some((decl, others)) => {
                    names = &decl.names;
                    decls = others;
                }
            }
        }
    }
}
