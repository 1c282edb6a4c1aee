// Checking a unit (C89, 2.1.1.3): it is a program, or its first complaint is told.

ghost use Rattle.std.specs.Prelude.{◌≡◌, OnOk, IfOk, MatchResult, None, Some};
ghost use Rattle.c_syntax.specs.View.{unit_shape};
ghost use Rattle.c_tree.specs.Programs.{IsSound, HasFewTokens};
ghost use Rattle.c_tree.specs.Units.{type_unit, bodies, typed_unit};
ghost use Rattle.c_checker.specs.CheckerView.{state_of};
ghost use Rattle.c_types.specs.Checked.{IsChecked, IsRefused};

use crate::units::{bodies, type_unit};
use c_base::place::{NoMemory, Pos};
use c_checker::checker::Checker;
use c_syntax::tree::Unit;
use c_tree::complaints::first;
use c_tree::program::Program;
use std::alloc::Global;

/// Why a unit is no program: the number and the place of its first complaint; or there is no memory.
#[derive(Clone, Copy, Debug, PartialEq, Eq)]
pub enum TypeRefusal {
    At(u8, Pos),
    NoMemory,
}

// Types a unit in place, with each call allowed: which of its functions have bodies.
fn type_first(alloc: Global, unit: &mut Unit) -> Result<Vec<bool>, NoMemory>
    ensures tree { OnOk result (unit_shape unit.new ≡ (type_unit None (unit_shape unit.old)).unit) }
    ensures bodies { IfOk result (λ v. v.items ≡ bodies (unit_shape unit.old)) }
{
    let mut checker = Checker::new(alloc, None)?;
    type_unit(&mut checker, unit)?;
    let known = bodies(&checker.tables, alloc)?;
    Ok(known)
}

// The same, where a call is one of these functions.
fn type_known(alloc: Global, known: Vec<bool>, unit: &mut Unit) -> Result<Checker, NoMemory>
    ensures tree { OnOk result (unit_shape unit.new ≡ (type_unit (Some known.items) (unit_shape unit.old)).unit) }
    ensures state { IfOk result (λ c. state_of c ≡ (type_unit (Some known.items) (unit_shape unit.old)).state) }
{
    let mut checker = Checker::new(alloc, Some(known))?;
    type_unit(&mut checker, unit)?;
    Ok(checker)
}

// Types a unit in place, where a call is one of a function with a body: what is known behind its last token.
fn type_twice(alloc: Global, unit: &mut Unit) -> Result<Checker, NoMemory>
    ensures tree { OnOk result (unit_shape unit.new ≡ (typed_unit (unit_shape unit.old)).unit) }
    ensures state { IfOk result (λ c. state_of c ≡ (typed_unit (unit_shape unit.old)).state) }
{
    let known = type_first(alloc, unit)?;
    let checker = type_known(alloc, known, unit)?;
    Ok(checker)
}

/// The program that a unit is, which the grammar allows and which has at most 350,000 tokens, such as a text gives: the unit with
/// its notes, and its tables; or its first complaint, that of the least token and there of the least number.
pub fn check(alloc: Global, unit: Unit) -> Result<Program, TypeRefusal>
    requires sound { IsSound (unit_shape unit) }
    requires few { HasFewTokens (unit_shape unit) }
    ensures { MatchResult result (IsChecked (unit_shape unit)) (IsRefused (unit_shape unit)) }
{
    let mut unit = unit;
    match type_twice(alloc, &mut unit) {
        Err(_) => Err(TypeRefusal::NoMemory),
        Ok(checker) => match first(&checker.complaints) {
            Some(complaint) => Err(TypeRefusal::At(complaint.number, complaint.pos)),
            None => Ok(Program::from_typed(unit, checker.tables)),
        },
    }
}
