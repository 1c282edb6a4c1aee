// Translation units (C89, 3.7).

ghost use Rattle.std.specs.Prelude.{◌≡◌, is_some, map, OnOk, IfOk};
ghost use Rattle.c_syntax.specs.View.{unit_shape};
ghost use Rattle.c_tables.specs.Tables.{tables_shape, function_shape};
ghost use Rattle.c_tree.specs.Units.{type_line, is_main, any_main};
ghost use Rattle.c_checker.specs.CheckerView.{state_of};
ghost use Rattle.c_types.specs.Defined.{unit_from};

use crate::externals::type_externals;
use c_base::place::{IntKind, NoMemory};
use c_checker::checker::Checker;
use c_constants::probes::digest;
use c_syntax::tree::{CType, ProgramLine, Unit};
use c_tables::tables::{FunctionRow, Tables};
use c_tree::complaints::{NO_MAIN, STRAY};
use c_type_rules::kinds::same;
use std::alloc::Global;

// The program line, if there is one: word, parenthesis, string, parenthesis and semicolon.
fn type_line(checker: &mut Checker, line: &Option<ProgramLine>) -> Result<(), NoMemory>
    ensures { OnOk result (state_of checker.new ≡ type_line line.now (state_of checker.old)) }
{
    match line {
        None => Ok(()),
        Some(line) => {
            let spelled = digest(line.digest.bytes()).is_some();
            checker.demand(spelled, STRAY, checker.at, line.pos)?;
            checker.steps(5);
            Ok(())
        }
    }
}

// Whether it is `int main(void)` with a body.
fn is_main(row: &FunctionRow) -> bool
    ensures { result ≡ is_main (function_shape row.now) }
{
    b"main".as_slice() == row.name.bytes()
        && same(&CType::Int(IntKind::Int), &row.result)
        && row.params.is_empty()
        && row.defined.is_some()
}

// Whether one of the functions is.
fn any_main(tables: &Tables) -> bool
    ensures { result ≡ any_main (tables_shape tables.now).functions }
{
    for i in 0..tables.functions() {
        if is_main(tables.function(i + 1)) {
            return true;
        }
    }
    false
}

/// Which functions have bodies.
pub fn bodies(tables: &Tables, alloc: Global) -> Result<Vec<bool>, NoMemory>
    ensures { IfOk result (λ v. v.items ≡ map (λ f. is_some f.defined) (tables_shape tables.now).functions) }
{
    let mut bodies = Vec::new(alloc);
    for i in 0..tables.functions() {
        let has_body = tables.function(i + 1).defined.is_some();
        if bodies.push(has_body).is_err() {
            return Err(NoMemory);
        }
    }
    Ok(bodies)
}

/// Types a unit in place; it has a `main` (C89, 2.1.2.2.1).
pub fn type_unit(checker: &mut Checker, unit: &mut Unit) -> Result<(), NoMemory>
    ensures tree { OnOk result (unit_shape unit.new ≡ (unit_from (state_of checker.old) (unit_shape unit.old)).unit) }
    ensures state { OnOk result (state_of checker.new ≡ (unit_from (state_of checker.old) (unit_shape unit.old)).state) }
{
    type_line(checker, &unit.line)?;
    type_externals(checker, &mut unit.externals)?;
    let found = any_main(&checker.tables);
    let last = checker.at.saturating_sub(1);
    checker.demand(found, NO_MAIN, last, unit.last)?;
    Ok(())
}
