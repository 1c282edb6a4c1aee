// Enumeration constants (C89, 3.5.2.2).

ghost use Rattle.std.specs.Prelude.{◌≡◌, OnOk, IfOk};
ghost use Rattle.c_tree.specs.Rulings.{rule};
ghost use Rattle.c_tree.specs.Parts.{only_int, value_rule, next_value, entity_of, declare, after};
ghost use Rattle.c_constants.specs.Constants as constants;
ghost use Rattle.c_checker.specs.CheckerView.{state_of};
ghost use Rattle.c_checker.specs.SortView.{sort_of};

use c_base::place::{NoMemory, Pos};
use c_checker::checker::Checker;
use c_checker::ruling::settled_if;
use c_checker::sort::Sort;
use c_constants::constants::value;
use c_tree::complaints::{DECLARED_TWICE, NOT_CONSTANT};
use c_tree::meaning::Entity;

/// The value that an enumerator is given, which begins at that token: a constant that an int has.
pub fn given_value(
    checker: &mut Checker,
    token: u32,
    pos: Pos,
    a: Sort,
) -> Result<Option<i32>, NoMemory>
    ensures value { IfOk result (λ v. v ≡ only_int (constants.value (sort_of a).constant)) }
    ensures state { OnOk result (state_of checker.new ≡ rule (value_rule (sort_of a)) token pos (state_of checker.old)) }
{
    let value = only_int(value(a.constant));
    checker.rule(
        settled_if(value.is_some(), NOT_CONSTANT, a.kind),
        token,
        pos,
    )?;
    Ok(value)
}

/// The value of an enumerator that is given none, which is that token: the next one, if an int has it.
pub fn next_value(
    checker: &mut Checker,
    token: u32,
    pos: Pos,
    next: Option<i128>,
) -> Result<Option<i32>, NoMemory>
    ensures value { IfOk result (λ v. v ≡ (next_value token pos next (state_of checker.old)).value) }
    ensures state { OnOk result (state_of checker.new ≡ (next_value token pos next (state_of checker.old)).state) }
{
    let value = only_int(next);
    let fits = next.is_none() || value.is_some();
    checker.demand(fits, NOT_CONSTANT, token, pos)?;
    Ok(value)
}

// The value, if an int has it.
fn only_int(value: Option<i128>) -> Option<i32>
    ensures { result ≡ only_int value }
{
    match value {
        None => None,
        Some(value) => {
            if -2_147_483_648 <= value && value <= 2_147_483_647 {
                Some(value as i32)
            } else {
                None
            }
        }
    }
}

/// The value behind that one.
pub fn after(value: Option<i32>) -> Option<i128>
    ensures { result ≡ after value }
{
    match value {
        None => None,
        Some(value) => Some(i128::from(value) + 1),
    }
}

/// What an enumerator's name stands for.
pub fn entity_of(value: Option<i32>) -> Entity
    ensures { result ≡ entity_of value }
{
    match value {
        None => Entity::Unknown,
        Some(value) => Entity::Constant(value),
    }
}

/// Declares an ordinary name, at that token, which is new in its scope (C89, 3.1.2.1).
pub fn declare(
    checker: &mut Checker,
    token: u32,
    pos: Pos,
    name: &[u8],
    entity: Entity,
) -> Result<(), NoMemory>
    ensures { OnOk result (state_of checker.new ≡ declare token pos name.now entity (state_of checker.old)) }
{
    match checker.names.find_here(name) {
        None => checker.names.declare(name, entity),
        Some(_) => checker.complain(DECLARED_TWICE, token, pos),
    }
}
