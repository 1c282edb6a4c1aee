// Case constants, and the probe of a select.

ghost use Rattle.std.specs.Prelude.{◌≡◌, IsTrue, OnOk, IfOk};
ghost use Rattle.c_tree.specs.Parts.{judged_constant};
ghost use Rattle.c_tree.specs.Operators.{wrapped, differ, select_rule, typed_select};
ghost use Rattle.c_constants.specs.Constants as constants;
ghost use Rattle.c_checker.specs.CheckerView.{state_of};
ghost use Rattle.c_checker.specs.RulingView.{ruled_of};
ghost use Rattle.c_checker.specs.SortView.{sort_of, typing_of};
ghost use Rattle.c_checker.specs.Among.{is_fresh, with_seen};

use crate::checker::Checker;
use crate::ruling::{Ruling, settled_if};
use crate::sort::{Sort, Typing};
use c_arith::convert;
use c_base::place::{IntKind, NoMemory, Pos};
use c_constants::constants::{Constant, value};
use c_syntax::tree::CType;
use c_tree::complaints::{NOT_CONSTANT, WRONG_TYPE};
use c_type_rules::kinds::promoted;
use indexmap::IndexSet;
use std::alloc::Global;

impl Checker {
    /// An integer constant expression without fault (C89, 3.4), which begins at that token: its value.
    pub fn judged_constant(
        &mut self,
        token: u32,
        pos: Pos,
        a: Sort,
    ) -> Result<Option<i128>, NoMemory>
        ensures value { IfOk result (λ v. v ≡ constants.value (sort_of a).constant) }
        ensures state { OnOk result (state_of self.new ≡ judged_constant token pos (sort_of a) (state_of self.old)) }
    {
        let value = value(a.constant);
        self.rule(
            settled_if(value.is_some(), NOT_CONSTANT, a.kind),
            token,
            pos,
        )?;
        Ok(value)
    }

    /// A select probe round an integer, with the values of its constants, in all of which no complaint came if `clean` holds;
    /// behind it the closing parenthesis stands.
    pub fn typed_select(
        &mut self,
        token: u32,
        pos: Pos,
        clean: bool,
        values: &[Option<i128>],
        a: Sort,
    ) -> Result<Typing, NoMemory>
        ensures typing { IfOk result (λ t. typing_of t ≡ (typed_select token pos clean values.now (sort_of a) (state_of self.old)).typing) }
        ensures state { OnOk result (state_of self.new ≡ (typed_select token pos clean values.now (sort_of a) (state_of self.old)).state) }
    {
        let kind = self.rule(select_rule(clean, values, a, self.alloc)?, token, pos)?;
        self.step();
        Ok(Typing::plainly(Sort::value(kind, Constant::No)))
    }
}

// An integer, where the constants differ in its promoted type, if no complaint stands inside.
fn select_rule(
    clean: bool,
    values: &[Option<i128>],
    a: Sort,
    alloc: Global,
) -> Result<Ruling, NoMemory>
    ensures { IfOk result (λ r. ruled_of r ≡ select_rule clean values.now (sort_of a)) }
{
    if !clean {
        return Ok(Ruling::Unsettled);
    }
    match a.kind {
        None => Ok(Ruling::Unsettled),
        Some(CType::Int(kind)) => {
            if differ(promoted(kind), values, alloc)? {
                Ok(Ruling::Allowed(CType::Int(kind)))
            } else {
                Ok(Ruling::Refused(WRONG_TYPE))
            }
        }
        Some(_) => Ok(Ruling::Refused(WRONG_TYPE)),
    }
}

/// Whether the values that are there differ in that type.
pub fn differ(kind: IntKind, values: &[Option<i128>], alloc: Global) -> Result<bool, NoMemory>
    ensures { IfOk result (λ d. d ≡ differ kind values.now) }
{
    let mut seen = IndexSet::new(alloc);
    let mut left = values.len();
    while left > 0 {
        left -= 1;
        if !see(&mut seen, kind, values[left])? {
            return Ok(false);
        }
    }
    Ok(true)
}

// Whether the value is none of those that were seen; it is one from now on.
fn see(seen: &mut IndexSet<i128>, kind: IntKind, value: Option<i128>) -> Result<bool, NoMemory>
    ensures fresh { IfOk result (λ f. f ≡ is_fresh seen.old.keys (wrapped kind value)) }
    ensures seen { IfOk result (λ f. IsTrue f → seen.new.keys ≡ with_seen seen.old.keys (wrapped kind value)) }
{
    let Some(value) = value else {
        return Ok(true);
    };
    match seen.insert(convert(value, kind)) {
        Ok(fresh) => Ok(fresh),
        Err(_) => Err(NoMemory),
    }
}
