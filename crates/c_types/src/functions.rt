// Functions with bodies (C89, 3.7.1).

ghost use Rattle.std.specs.Prelude.{◌≡◌, ◌+◌, map, OnOk, IfOk};
ghost use Rattle.c_type_rules.specs.Kinds.{type_in};
ghost use Rattle.c_scopes.specs.Scoping.{find_here};
ghost use Rattle.c_syntax.specs.View.{compound_shape};
ghost use Rattle.c_tables.specs.Tables.{tables_shape, with_definition};
ghost use Rattle.c_tree.specs.Declaring.{declared_again, with_constants};
ghost use Rattle.c_tree.specs.Units.{variable_of, with_variables, numbers_from, ended_function};
ghost use Rattle.c_checker.specs.CheckerView.{state_of};
ghost use Rattle.c_types_decl.specs.GivenView.{parameter_of};
ghost use Rattle.c_types.specs.Defined.{begun, defined_body};

use crate::expressions::type_marks;
use crate::jumps::Jumps;
use crate::statements::type_compound;
use c_base::place::NoMemory;
use c_checker::checker::Checker;
use c_checker::sort::copied;
use c_scopes::names::Names;
use c_scopes::scopes::Scopes;
use c_syntax::tree::{CType, Compound, ProbeMark};
use c_tables::tables::{NumberList, Tables};
use c_tree::meaning::Entity;
use c_types_decl::functions::{Declared, Parameter};
use c_types_decl::scopes::close_scope;
use c_types_decl::variables::add_variable;
use std::alloc::Global;

// A parameter is a variable of the body, if its name is new there.
fn declare_given(checker: &mut Checker, given: &Parameter) -> Result<(), NoMemory>
    ensures { OnOk result (state_of checker.new ≡ variable_of given.now.name (type_in given.now.kind) (find_here given.now.name (state_of checker.old).names) (state_of checker.old)) }
{
    match checker.names.find_here(given.name.bytes()) {
        Some(_) => Ok(()),
        None => {
            let kind = copied(&given.kind, checker.alloc)?;
            add_variable(checker, &given.name, kind)
        }
    }
}

// The same of all parameters.
fn declare_all(checker: &mut Checker, given: &[Parameter]) -> Result<(), NoMemory>
    ensures { OnOk result (state_of checker.new ≡ with_variables (map parameter_of given.now) (state_of checker.old)) }
{
    for parameter in given {
        declare_given(checker, parameter)?;
    }
    Ok(())
}

// A name of the parameter list stands for the same in the body, if that is a constant and the name is new there.
fn declare_again(names: &mut Scopes<Entity>, name: &[u8], entity: Entity) -> Result<(), NoMemory>
    ensures { OnOk result (names.new ≡ declared_again name.now entity (find_here name.now names.old) names.old) }
{
    match (entity, names.find_here(name)) {
        (Entity::Constant(_), None) => names.declare(name, entity),
        _ => Ok(()),
    }
}

// The same of all names of the list.
fn declare_constants(names: &mut Scopes<Entity>, listed: &Names<Entity>) -> Result<(), NoMemory>
    ensures { OnOk result (names.new ≡ with_constants listed.now names.old) }
{
    for (name, entity) in listed.rows() {
        declare_again(names, name, *entity)?;
    }
    Ok(())
}

// The numbers of the parameters' variables, behind so many variables.
fn numbers_behind(alloc: Global, before: u32, given: &[Parameter]) -> Result<NumberList, NoMemory>
    ensures { IfOk result (λ n. n ≡ numbers_from (before + 1) (map parameter_of given.now)) }
{
    let mut numbers = NumberList::new(alloc);
    let mut last = before;
    for _parameter in given {
        if last == u32::MAX {
            return Err(NoMemory);
        }
        last += 1;
        numbers.push(last)?;
    }
    Ok(numbers)
}

// The row with that number is defined, with these variables as its parameters.
fn define(tables: &mut Tables, number: u32, params: NumberList)
    ensures { tables_shape tables.new ≡ with_definition number params (tables_shape tables.old) }
{
    let row = number.saturating_sub(1);
    if row < tables.functions() {
        tables.define(row + 1, params);
    }
}

// The function has a body from here on.
fn begin(checker: &mut Checker, declared: &Declared) -> Result<(), NoMemory>
    ensures { OnOk result (state_of checker.new ≡ begun declared.now.number (map parameter_of declared.now.given.items) (state_of checker.old)) }
{
    let before = checker.tables.variables();
    let numbers = numbers_behind(checker.alloc, before, &declared.given)?;
    checker.names.enter()?;
    declare_constants(&mut checker.names, &checker.listed)?;
    define(&mut checker.tables, declared.number, numbers);
    checker.function = declared.number;
    checker.file = false;
    declare_all(checker, &declared.given)
}

// Behind the body.
fn end(checker: &mut Checker)
    ensures { state_of checker.new ≡ ended_function (state_of checker.old) }
{
    close_scope(checker);
    checker.function = 0;
    checker.file = true;
}

/// Types the block probes and the body of a function in place, behind its parentheses; `gives` is what it gives, where that is
/// known.
pub fn type_definition(
    checker: &mut Checker,
    declared: &Declared,
    gives: &Option<CType>,
    marks: &[ProbeMark],
    body: &mut Compound,
) -> Result<(), NoMemory>
    ensures tree { OnOk result (compound_shape body.new ≡ (defined_body declared.now.number (map parameter_of declared.now.given.items) (type_in gives.now) marks.now (compound_shape body.old) (state_of checker.old)).compound) }
    ensures state { OnOk result (state_of checker.new ≡ ended_function (defined_body declared.now.number (map parameter_of declared.now.given.items) (type_in gives.now) marks.now (compound_shape body.old) (state_of checker.old)).state) }
{
    begin(checker, declared)?;
    type_marks(checker, marks)?;
    type_compound(checker, Jumps::new(), gives, body)?;
    end(checker);
    Ok(())
}
