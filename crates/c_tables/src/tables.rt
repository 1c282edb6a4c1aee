//! The tables of a program.

ghost use Rattle.std.specs.Prelude.{◌≡◌, ◌≤◌, ℕ, List, length};
ghost use Rattle.c_scopes.specs.Scoping.{named};
ghost use Rattle.c_tables.specs.Named.{named_from};

mod adding;
mod changing;
mod reading;

pub use c_base::numbers::NumberList;
use c_scopes::names::Names;
use c_syntax::text::Text;
use c_syntax::tree::CType;
use std::alloc::Global;

/// A member of a structure: its name and its type (C89, 3.5.2.1).
#[derive(Drop)]
pub struct FieldRow {
    pub name: Text,
    pub kind: CType,
}

/// A structure: its tag, where it has one, and its members in order; none where it is incomplete (C89, 3.5.2.1).
#[derive(Drop)]
pub struct StructRow {
    pub tag: Option<Text>,
    pub fields: Vec<FieldRow>,
}

/// A function: its name, its result's type and its parameters' types; and where it is defined, the numbers of its
/// parameters' variables (C89, 3.7.1).
#[derive(Drop)]
pub struct FunctionRow {
    pub name: Text,
    pub result: CType,
    pub params: Vec<CType>,
    pub defined: Option<NumberList>,
}

/// A variable: its name, its type, and the number of the function that declares it, or 0 (C89, 3.5).
#[derive(Drop)]
pub struct VariableRow {
    pub name: Text,
    pub kind: CType,
    pub function: u32,
}

/// A string literal: its bytes, without the null byte behind them (C89, 3.1.4).
#[derive(Drop)]
pub struct LiteralRow {
    pub bytes: Text,
}

/// The structures, functions, variables and string literals of a program, each numbered from 1 in its own list.
#[derive(Drop)]
pub struct Tables {
    structures: Vec<StructRow>,
    functions: Vec<FunctionRow>,
    variables: Vec<VariableRow>,
    literals: Vec<LiteralRow>,
    // the number of the first function of each name
    first: Names<u32>,
    ghost few_structures: { length structures.items ≤ 4294967295 },
    ghost few_functions: { length functions.items ≤ 4294967295 },
    ghost few_variables: { length variables.items ≤ 4294967295 },
    ghost few_literals: { length literals.items ≤ 4294967295 },
    ghost firsts: { (x : List ℕ) → named x first ≡ named_from x 1 functions.items },
}
