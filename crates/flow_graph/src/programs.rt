//! The graph of one function of a program.

ghost use Rattle.std.specs.Prelude.{◌≡◌, None, true, false, IfOk};
ghost use Rattle.c_syntax.specs.View.{external_shape, unit_shape};
ghost use Rattle.c_tables.specs.Tables.{tables_shape, function_shape};
ghost use Rattle.c_tables.specs.Rows.{text_of};
ghost use Rattle.c_walk.specs.Units.{has_body, function_of};
ghost use Rattle.flow_walks.specs.Walks.{Goes};
ghost use Rattle.flow_graph.specs.Programs.{defines, IsFound};

use crate::graphs::Graph;
use crate::laying::lay_external;
use c_base::place::NoMemory;
use c_syntax::tree::{External, Named};
use c_tables::tables::{FunctionRow, Tables};
use c_tree::program::Program;
use flow_rows::numbers::Numbers;
use std::alloc::Global;

fn has_body(name: &[u8], row: &FunctionRow) -> bool
    ensures { result ≡ has_body name.now (function_shape row.now) }
{
    name == row.name.bytes() && row.defined.is_some()
}

// The number of the function of that name that has a body.
fn function_of(tables: &Tables, name: &[u8]) -> u32
    ensures { result ≡ function_of (tables_shape tables.now) name.now }
{
    for i in 0..tables.functions() {
        if has_body(name, tables.function(i + 1)) {
            return i + 1;
        }
    }
    0
}

fn function_named(tables: &Tables, name: &Option<Named>) -> u32
    ensures { result ≡ function_of (tables_shape tables.now) (text_of name.now) }
{
    match name {
        None => function_of(tables, b""),
        Some(name) => function_of(tables, name.text.bytes()),
    }
}

// Whether it is a definition of the function of that number.
fn defines(tables: &Tables, function: u32, external: &External) -> bool
    ensures { result ≡ defines (tables_shape tables.now) function (external_shape external.now) }
{
    match external {
        External::Function(_, name, _, _) => function_named(tables, &name.name) == function,
        External::Plain(_) => false,
    }
}

// The graph so far, or the next one, if that is the one. Two are none: it answers `Err`, of which nothing is said.
fn chosen(found: Option<Graph>, next: Option<Graph>, is_it: bool) -> Result<Option<Graph>, NoMemory>
    ensures kept { IfOk result (λ g. is_it ≡ false → g ≡ found) }
    ensures none { IfOk result (λ g. is_it ≡ true → found ≡ None) }
    ensures next { IfOk result (λ g. is_it ≡ true → g ≡ next) }
{
    if is_it {
        match found {
            None => Ok(next),
            Some(_) => Err(NoMemory),
        }
    } else {
        Ok(found)
    }
}

/// The graph of the function of that number, which is defined; None where none of that number is. It lays the program's
/// functions from the first on.
pub fn graph(alloc: Global, program: &Program, function: u32) -> Result<Option<Graph>, NoMemory>
    ensures { IfOk result (λ g. IsFound (Goes (tables_shape program.now.tables) (unit_shape program.now.unit) function) g) }
{
    let tables = program.tables();
    let unit = program.unit();
    let mut numbers = Numbers::none();
    let mut found = None;
    for external in &unit.externals {
        let it = lay_external(alloc, tables, external, &mut numbers)?;
        found = chosen(found, it, defines(tables, function, external))?;
    }
    Ok(found)
}
