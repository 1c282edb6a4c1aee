//! Rows, read by their numbers.

ghost use Rattle.std.specs.Prelude.{◌≡◌, ◌-◌, ◌≤◌, length, slice_get, Some};
ghost use Rattle.c_tables.specs.Tables.{tables_shape, struct_shape, function_shape, variable_shape};
ghost use Rattle.c_tables.specs.Rows.{first_named};

use super::{FunctionRow, LiteralRow, StructRow, Tables, VariableRow};

impl Tables {
    /// How many structures there are.
    pub fn structures(&self) -> u32
        ensures { result ≡ length (tables_shape self.now).structures }
    {
        self.structures.len() as u32
    }

    /// How many functions there are.
    pub fn functions(&self) -> u32
        ensures { result ≡ length (tables_shape self.now).functions }
    {
        self.functions.len() as u32
    }

    /// How many variables there are.
    pub fn variables(&self) -> u32
        ensures { result ≡ length (tables_shape self.now).variables }
    {
        self.variables.len() as u32
    }

    /// How many string literals there are.
    pub fn literals(&self) -> u32
        ensures { result ≡ length (tables_shape self.now).literals }
    {
        self.literals.len() as u32
    }

    /// The structure with that number, the first of which is 1.
    pub fn structure(&self, i: u32) -> &StructRow
        requires { (1 ≤ i) × (i ≤ length (tables_shape self.now).structures) }
        ensures { slice_get (tables_shape self.now).structures (i - 1) ≡ Some (struct_shape result.now) }
    {
        &self.structures[i as usize - 1]
    }

    /// The number of the first function of that name.
    #[tactic(auto, using(crate::proofs::Named::found_first))]
    pub fn first_named(&self, name: &[u8]) -> Option<u32>
        ensures { result ≡ first_named name.now (tables_shape self.now).functions }
    {
        self.first.find(name)
    }

    /// The function with that number, the first of which is 1.
    pub fn function(&self, i: u32) -> &FunctionRow
        requires { (1 ≤ i) × (i ≤ length (tables_shape self.now).functions) }
        ensures { slice_get (tables_shape self.now).functions (i - 1) ≡ Some (function_shape result.now) }
    {
        &self.functions[i as usize - 1]
    }

    /// The variable with that number, the first of which is 1.
    pub fn variable(&self, i: u32) -> &VariableRow
        requires { (1 ≤ i) × (i ≤ length (tables_shape self.now).variables) }
        ensures { slice_get (tables_shape self.now).variables (i - 1) ≡ Some (variable_shape result.now) }
    {
        &self.variables[i as usize - 1]
    }

    /// The string literal with that number, the first of which is 1.
    pub fn literal(&self, i: u32) -> &LiteralRow
        requires { (1 ≤ i) × (i ≤ length (tables_shape self.now).literals) }
        ensures { slice_get (tables_shape self.now).literals (i - 1) ≡ Some result.now.bytes }
    {
        &self.literals[i as usize - 1]
    }
}
