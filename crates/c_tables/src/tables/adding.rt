//! Rows, appended to the tables.

ghost use Rattle.std.specs.Prelude.{◌≡◌, ◌<◌, [], ◌∷◌, ◌++◌, length, OnOk, OnErr};
ghost use Rattle.c_tables.specs.Named.{kept_first};
ghost use Rattle.c_tables.specs.Tables.{tables_shape, struct_shape, function_shape, variable_shape};

use super::{FunctionRow, LiteralRow, StructRow, Tables, VariableRow};
use c_base::place::NoMemory;
use c_scopes::names::Names;
use std::alloc::Global;

impl Tables {
    /// No row.
    pub fn new(alloc: Global) -> Tables
        ensures { tables_shape result ≡ record { structures = []; functions = []; variables = []; literals = [] } }
    {
        Tables {
            structures: Vec::new(alloc),
            functions: Vec::new(alloc),
            variables: Vec::new(alloc),
            literals: Vec::new(alloc),
            first: Names::new(alloc),
        }
    }

    /// Appends a structure.
    pub fn push_structure(&mut self, row: StructRow) -> Result<(), NoMemory>
        requires { length (tables_shape self.old).structures < 4294967295 }
        ensures ok { OnOk result (tables_shape self.new ≡ record (tables_shape self.old) { structures = (tables_shape self.old).structures ++ struct_shape row ∷ [] }) }
        ensures err { OnErr result (tables_shape self.new ≡ tables_shape self.old) }
    {
        match self.structures.push(row) {
            Ok(()) => Ok(()),
            Err(_) => Err(NoMemory),
        }
    }

    /// Appends a function.
    #[tactic(auto, using(crate::proofs::Named::firsts_pushed))]
    pub fn push_function(&mut self, row: FunctionRow) -> Result<(), NoMemory>
        requires { length (tables_shape self.old).functions < 4294967295 }
        ensures ok { OnOk result (tables_shape self.new ≡ record (tables_shape self.old) { functions = (tables_shape self.old).functions ++ function_shape row ∷ [] }) }
        ensures err { OnErr result (tables_shape self.new ≡ tables_shape self.old) }
    {
        if self.functions.reserve(1).is_err() {
            return Err(NoMemory);
        }
        keep_first(
            &mut self.first,
            row.name.bytes(),
            self.functions.len() as u32 + 1,
        )?;
        match self.functions.push(row) {
            Ok(()) => Ok(()),
            Err(_) => Err(NoMemory),
        }
    }

    /// Appends a variable.
    pub fn push_variable(&mut self, row: VariableRow) -> Result<(), NoMemory>
        requires { length (tables_shape self.old).variables < 4294967295 }
        ensures ok { OnOk result (tables_shape self.new ≡ record (tables_shape self.old) { variables = (tables_shape self.old).variables ++ variable_shape row ∷ [] }) }
        ensures err { OnErr result (tables_shape self.new ≡ tables_shape self.old) }
    {
        match self.variables.push(row) {
            Ok(()) => Ok(()),
            Err(_) => Err(NoMemory),
        }
    }

    /// Appends a string literal.
    pub fn push_literal(&mut self, row: LiteralRow) -> Result<(), NoMemory>
        requires { length (tables_shape self.old).literals < 4294967295 }
        ensures ok { OnOk result (tables_shape self.new ≡ record (tables_shape self.old) { literals = (tables_shape self.old).literals ++ row.bytes ∷ [] }) }
        ensures err { OnErr result (tables_shape self.new ≡ tables_shape self.old) }
    {
        match self.literals.push(row) {
            Ok(()) => Ok(()),
            Err(_) => Err(NoMemory),
        }
    }
}

// The number stands for the name from now on, if none does.
fn keep_first(first: &mut Names<u32>, name: &[u8], number: u32) -> Result<(), NoMemory>
    ensures ok { OnOk result (first.new ≡ kept_first name.now number first.old) }
    ensures err { OnErr result (first.new ≡ first.old) }
{
    match first.find(name) {
        Some(_) => Ok(()),
        None => first.declare(name, number),
    }
}
