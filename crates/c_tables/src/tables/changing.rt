//! Rows, changed once more is known of them.

ghost use Rattle.std.specs.Prelude.{◌≡◌, ◌≤◌, length, map};
ghost use Rattle.c_tables.specs.Tables.{tables_shape, field_shape, with_fields, with_definition};

use super::{FieldRow, Tables};
use c_base::numbers::NumberList;

impl Tables {
    /// Gives the structure with that number these members; all else stays.
    #[tactic(auto, using(crate::proofs::Rows::fields_set, crate::proofs::Rows::length_changed, std::proofs::lemmas::Grind::common_steps))]
    pub fn set_fields(&mut self, i: u32, fields: Vec<FieldRow>)
        requires { (1 ≤ i) × (i ≤ length (tables_shape self.old).structures) }
        ensures rows { tables_shape self.new ≡ with_fields i (map field_shape fields.items) (tables_shape self.old) }
        ensures count { length (tables_shape self.new).structures ≡ length (tables_shape self.old).structures }
    {
        self.structures[i as usize - 1].fields = fields;
    }

    /// The function with that number is defined, with these variables as its parameters; all else stays.
    #[tactic(auto, using(crate::proofs::Rows::definition_set, crate::proofs::Named::firsts_changed, crate::proofs::Rows::length_changed, std::proofs::lemmas::Grind::common_steps))]
    pub fn define(&mut self, i: u32, params: NumberList)
        requires { (1 ≤ i) × (i ≤ length (tables_shape self.old).functions) }
        ensures rows { tables_shape self.new ≡ with_definition i params (tables_shape self.old) }
        ensures count { length (tables_shape self.new).functions ≡ length (tables_shape self.old).functions }
    {
        self.functions[i as usize - 1].defined = Some(params);
    }
}
