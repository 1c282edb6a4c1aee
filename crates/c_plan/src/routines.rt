//! Functions with bodies, by their numbers.

ghost use Rattle.std.specs.Prelude.{◌≡◌, ◌<◌, ℕ, length, get_or, option_map, map, nat_eq, Some, None, OnOk, IfOk, if◌then◌else◌};
ghost use Rattle.c_syntax.specs.View.{external_shape};
ghost use Rattle.c_tables.specs.Tables.{tables_shape};
ghost use Rattle.c_meaning.specs.Calls.{routine};
ghost use Rattle.c_meaning.specs.Runs.{silent};
ghost use Rattle.c_plan.specs.Routines.{routine_of, external_routine, row_from, own_row, row_or, IsRouted};
ghost use Rattle.c_meaning.specs.Sources.{source_of};

use crate::counts::behind_external;
use crate::names::function_named;
use c_base::place::NoMemory;
use c_syntax::tree::{Compound, DeclForm, External, ProbeMark};
use c_tables::tables::Tables;
use c_tree::program::Program;
use std::alloc::Global;
use std::marker::Model;

/// A function with a body: what declares its parameters, the block probes before its body, the body, and how many variables
/// of the program are declared before its parameters (C89, 3.7.1).
#[derive(Clone, Copy, Drop)]
pub struct Routine<'p> {
    pub params: &'p DeclForm,
    pub marks: &'p [ProbeMark],
    pub body: &'p Compound,
    pub before: u32,
}

/// Where a function stands: the index of the external declaration with its body, and how many variables are declared before
/// that.
#[derive(Clone, Copy, Drop)]
pub struct Row {
    pub index: usize,
    pub before: u32,
}

/// Where the functions of a program stand, by their numbers.
#[derive(Drop)]
pub struct Routines {
    rows: Vec<Option<Row>>,
}

impl Model for Routines {
    ghost use Rattle.std.specs.Prelude.{List, Option};
    ghost use Rattle.c_plan.specs.declared.routines.Row.{Row};

    ghost Value = { List (Option Row) };

    ghost view = { λ s. s.rows.items };
}

impl Routines {
    /// Those of a program, in one pass through it. There is no memory for 4,294,967,295 variables or more.
    pub fn of(alloc: Global, program: &Program) -> Result<Routines, NoMemory>
        ensures { IfOk result (λ r. IsRouted (source_of program.now) r) }
    {
        let rows = rows_of(alloc, program.tables(), &program.unit().externals)?;
        Ok(Routines { rows })
    }

    /// The function of that number; None where none with a body has it. It is found at once.
    #[inline(always)]
    pub fn find<'p>(&self, program: &'p Program, function: u32) -> Option<Routine<'p>>
        requires { IsRouted (source_of program.now) self.now }
        ensures { option_map routine_of result ≡ routine (source_of program.now) silent function }
    {
        match row_at(&self.rows, function) {
            None => None,
            Some(row) => match program.unit().externals.get(row.index) {
                None => None,
                Some(external) => routine_in(external, row.before),
            },
        }
    }
}

fn rows_of(
    alloc: Global,
    tables: &Tables,
    externals: &[External],
) -> Result<Vec<Option<Row>>, NoMemory>
    ensures { IfOk result (λ v. (f : ℕ) → get_or v.items f None ≡ row_from (tables_shape tables.now) f 0 0 (map external_shape externals.now)) }
{
    let mut rows = Vec::new(alloc);
    let mut before: u32 = 0;
    for i in 0..externals.len() {
        let external = &externals[i];
        add_row(&mut rows, tables, external, Row { index: i, before })?;
        before = behind_external(external, before)?;
    }
    Ok(rows)
}

// The function of an external declaration stands there, if none before it has its number.
fn add_row(
    rows: &mut Vec<Option<Row>>,
    tables: &Tables,
    external: &External,
    row: Row,
) -> Result<(), NoMemory>
    ensures { OnOk result ((f : ℕ) → get_or rows.new.items f None ≡ row_or (get_or rows.old.items f None) (own_row (tables_shape tables.now) f (external_shape external.now) row)) }
{
    match external {
        External::Plain(_) => Ok(()),
        External::Function(_, name, _, _) => {
            keep_row(rows, function_named(tables, &name.name), row)
        }
    }
}

// The row is that of the number, if that has none.
fn keep_row(rows: &mut Vec<Option<Row>>, function: u32, row: Row) -> Result<(), NoMemory>
    ensures { OnOk result ((f : ℕ) → get_or rows.new.items f None ≡ row_or (get_or rows.old.items f None) (if nat_eq function f then Some row else None)) }
{
    reach(rows, function)?;
    if rows[function as usize].is_none() {
        rows[function as usize] = Some(row);
    }
    Ok(())
}

// The table has a row for that number.
fn reach(rows: &mut Vec<Option<Row>>, function: u32) -> Result<(), NoMemory>
    ensures reached { OnOk result (function < length rows.new.items) }
    ensures same { (f : ℕ) → get_or rows.new.items f None ≡ get_or rows.old.items f None }
{
    while rows.len() <= function as usize {
        match rows.push(None) {
            Ok(()) => {}
            Err(_) => return Err(NoMemory),
        }
    }
    Ok(())
}

#[inline(always)]
fn row_at(rows: &[Option<Row>], function: u32) -> Option<Row>
    ensures { result ≡ get_or rows.now function None }
{
    match rows.get(function as usize) {
        None => None,
        Some(row) => *row,
    }
}

// The function that an external declaration defines, behind so many variables.
#[inline(always)]
fn routine_in(external: &External, before: u32) -> Option<Routine<'_>>
    ensures { option_map routine_of result ≡ external_routine (external_shape external.now) before }
{
    match external {
        External::Plain(_) => None,
        External::Function(_, name, marks, body) => Some(Routine {
            params: &name.form,
            marks: marks.as_slice(),
            body,
            before,
        }),
    }
}
