//! Statements, with where they stand in the program.

ghost use Rattle.std.specs.Prelude.{◌≡◌, ◌+◌, ◌≤◌, ◌++◌};
ghost use Rattle.c_syntax.specs.View.{stmt_shape};
ghost use Rattle.c_meaning.specs.Counts.{stmt_variables};
ghost use Rattle.c_plan.specs.Extents.{stmt_extents, Begins};

use crate::extent::Extent;
use crate::sequence::Sequence;
use c_syntax::tree::{Stmt, StmtForm};

/// A statement, the extents of the statements in it, and how many variables of the program are declared before it.
#[derive(Clone, Copy, Drop)]
pub struct Placed<'p> {
    pub stmt: &'p Stmt,
    pub extents: &'p [Extent],
    pub before: u32,
    ghost listed: { Begins (stmt_extents (stmt_shape stmt.now)) extents.now },
    ghost fits: { before + stmt_variables (stmt_shape stmt.now) ≤ 4294967295 },
}

impl<'p> Placed<'p> {
    ghost use Rattle.c_syntax.specs.View.{form_shape};
    ghost use Rattle.c_plan.specs.Extents.{form_extents};
    ghost use Rattle.c_plan.specs.Parts.{IsFirst, IsOther, AreItems};

    /// The extents of the statements in it.
    #[inline(always)]
    pub fn inner(self) -> &'p [Extent]
        ensures { Begins (form_extents (form_shape self.entry.stmt.now.form)) result.now }
    {
        &self.extents[1..]
    }

    /// The statement of an `if` without its `else` (C89, 3.6.4.1), or the body of a loop (C89, 3.6.5); None of another one.
    #[inline(always)]
    pub fn first(self) -> Option<Placed<'p>>
        ensures { IsFirst (form_shape self.entry.stmt.now.form) self.entry.before result }
    {
        match &self.stmt.form {
            StmtForm::If(_, stmt, _) => Some(part(stmt, self.inner(), self.before)),
            StmtForm::While(_, body) => Some(part(body, self.inner(), self.before)),
            StmtForm::Do(body, _) => Some(part(body, self.inner(), self.before)),
            StmtForm::For(_, _, _, body) => Some(part(body, self.inner(), self.before)),
            StmtForm::Compound(_)
            | StmtForm::Plain(_)
            | StmtForm::Switch(_, _)
            | StmtForm::Break
            | StmtForm::Continue
            | StmtForm::Return(_) => None,
        }
    }

    /// The statement behind an `else`; None where there is none.
    #[inline(always)]
    pub fn other(self) -> Option<Placed<'p>>
        ensures { IsOther (form_shape self.entry.stmt.now.form) self.entry.before result }
    {
        match &self.stmt.form {
            StmtForm::If(_, first, other) => match other {
                None => None,
                Some(other) => {
                    let first = part(first, self.inner(), self.before);
                    Some(behind(first, other))
                }
            },
            _ => None,
        }
    }

    /// The statements of a `switch` (C89, 3.6.4.2); None of another one.
    #[inline(always)]
    pub fn items(self) -> Option<Sequence<'p>>
        ensures { AreItems (form_shape self.entry.stmt.now.form) self.entry.before result }
    {
        match &self.stmt.form {
            StmtForm::Switch(_, items) => Some(Sequence::of(items, self.inner(), self.before)),
            _ => None,
        }
    }
}

// A statement in another one.
#[inline(always)]
fn part<'p>(stmt: &'p Stmt, extents: &'p [Extent], before: u32) -> Placed<'p>
    requires listed { Begins (stmt_extents (stmt_shape stmt.now)) extents.now }
    requires fits { before + stmt_variables (stmt_shape stmt.now) ≤ 4294967295 }
    ensures stmt { result.stmt.now ≡ stmt.now }
    ensures extents { result.extents.now ≡ extents.now }
    ensures before { result.before ≡ before }
{
    Placed {
        stmt,
        extents,
        before,
    }
}

// The statement behind another one.
#[inline(always)]
fn behind<'p>(first: Placed<'p>, stmt: &'p Stmt) -> Placed<'p>
    requires listed { Begins (stmt_extents (stmt_shape first.stmt.now) ++ stmt_extents (stmt_shape stmt.now)) first.extents.now }
    requires fits { first.before + (stmt_variables (stmt_shape first.stmt.now) + stmt_variables (stmt_shape stmt.now)) ≤ 4294967295 }
    ensures stmt { result.stmt.now ≡ stmt.now }
    ensures before { result.before ≡ first.entry.before + stmt_variables (stmt_shape first.entry.stmt.now) }
{
    let extent = first.extents[0];
    Placed {
        stmt,
        extents: &first.extents[extent.statements as usize..],
        before: first.before + extent.variables,
    }
}
