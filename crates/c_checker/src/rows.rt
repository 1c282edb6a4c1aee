// The rows of the tables by their numbers, the first of which is 1; there is none with another number.

ghost use Rattle.std.specs.Prelude.{◌≡◌, map, option_map};
ghost use Rattle.c_type_rules.specs.Kinds.{type_in};
ghost use Rattle.c_syntax.specs.View.{type_of};
ghost use Rattle.c_tree.specs.State.{fields_of, field_type, counts, is_set};
ghost use Rattle.c_tables.specs.Rows.{row};
ghost use Rattle.c_tables.specs.Tables.{field_shape, function_shape, variable_shape};
ghost use Rattle.c_checker.specs.CheckerView.{state_of};

use crate::checker::Checker;
use c_syntax::tree::CType;
use c_tables::tables::{FieldRow, FunctionRow, VariableRow};

impl Checker {
    /// The variable with that number.
    pub fn variable(&self, n: u32) -> Option<&VariableRow>
        ensures { option_map (λ v. variable_shape v.now) result ≡ row (state_of self.now).tables.variables n }
    {
        if n == 0 || n > self.tables.variables() {
            None
        } else {
            Some(self.tables.variable(n))
        }
    }

    /// The function with that number.
    pub fn function(&self, n: u32) -> Option<&FunctionRow>
        ensures { option_map (λ f. function_shape f.now) result ≡ row (state_of self.now).tables.functions n }
    {
        if n == 0 || n > self.tables.functions() {
            None
        } else {
            Some(self.tables.function(n))
        }
    }

    /// The type of the parameter with that number, in the list that is read.
    pub fn parameter(&self, n: u32) -> Option<&CType>
        ensures { option_map (λ k. type_of k.now) result ≡ row (state_of self.now).params n }
    {
        if n == 0 {
            None
        } else {
            self.params.get(n as usize - 1)
        }
    }

    /// The type of the field with that name of the structure with that number.
    pub fn field(&self, n: u32, name: &[u8]) -> Option<&CType>
        ensures { option_map (λ k. type_of k.now) result ≡ field_type name.now (fields_of n (state_of self.now)) }
    {
        if n == 0 || n > self.tables.structures() {
            None
        } else {
            field_kind(&self.tables.structure(n).fields, name)
        }
    }

    /// Whether the member list of the structure with that number was begun.
    pub fn is_begun(&self, n: u32) -> bool
        ensures { result ≡ is_set (row (state_of self.now).begun n) }
    {
        set_at(&self.begun, n)
    }

    /// Whether the function with that number counts as defined.
    pub fn counts(&self, n: u32) -> bool
        ensures { result ≡ counts (state_of self.now).known n }
    {
        match &self.known {
            None => true,
            Some(known) => set_at(known, n),
        }
    }
}

// Whether the row with that number is set.
fn set_at(rows: &[bool], n: u32) -> bool
    ensures { result ≡ is_set (row rows.now n) }
{
    if n == 0 {
        return false;
    }
    match rows.get(n as usize - 1) {
        Some(set) => *set,
        None => false,
    }
}

/// The type of the first field with that name (C89, 3.5.2.1).
pub fn field_kind<'a>(fields: &'a [FieldRow], name: &[u8]) -> Option<&'a CType>
    ensures { option_map (λ k. type_of k.now) result ≡ field_type name.now (map field_shape fields.now) }
{
    for i in 0..fields.len() {
        if name == fields[i].name.bytes() {
            return Some(&fields[i].kind);
        }
    }
    None
}
