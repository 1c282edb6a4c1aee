//! Fields, added one by one.

ghost use Rattle.std.specs.Prelude.{◌≡◌, ◌++◌, [], ◌∷◌, true, map, OnOk, IfOk};
ghost use Rattle.c_type_rules.specs.Kinds.{type_in};
ghost use Rattle.c_tree.specs.State.{step, field_type};
ghost use Rattle.c_tree.specs.Parts.{is_free, with_field, field_state};
ghost use Rattle.c_tables.specs.Rows.{text_of, name_pos};
ghost use Rattle.c_tables.specs.Tables.{field_shape};
ghost use Rattle.c_checker.specs.CheckerView.{state_of};
ghost use Rattle.c_types_expr.specs.MembersView.{fields_of};

use super::Members;
use c_base::place::{NoMemory, Pos};
use c_checker::checker::Checker;
use c_checker_parts::fields::{field_state, name_pos, text_of};
use c_scopes::names::Names;
use c_syntax::text::Text;
use c_syntax::tree::{CType, Named};
use c_tables::tables::FieldRow;
use std::alloc::Global;

impl Members {
    /// No field.
    pub fn new(alloc: Global) -> Members
        ensures { fields_of result ≡ [] }
    {
        Members {
            rows: Vec::new(alloc),
            names: Names::new(alloc),
        }
    }

    /// The fields, in order.
    pub fn rows(self) -> Vec<FieldRow>
        ensures { map field_shape result.items ≡ fields_of self }
    {
        self.rows
    }

    // Whether no field has that name.
    #[tactic(auto, using(crate::proofs::Found::free_none, crate::proofs::Found::taken_some))]
    fn is_free(&self, name: &[u8]) -> bool
        ensures { result ≡ is_free (field_type name.now (fields_of self.now)) }
    {
        match self.names.find(name) {
            None => true,
            Some(_) => false,
        }
    }

    // The field stands behind the others, where its name is free and it has a type.
    fn add(
        &mut self,
        free: bool,
        name: &Option<Named>,
        kind: Option<CType>,
        alloc: Global,
    ) -> Result<(), NoMemory>
        requires { free ≡ is_free (field_type (text_of name.now) (fields_of self.old)) }
        ensures { OnOk result (fields_of self.new ≡ with_field free (text_of name.now) (type_in kind) (fields_of self.old)) }
    {
        match (free, kind) {
            (true, Some(kind)) => {
                let text = name_copy(name, alloc)?;
                self.append(text_of(name), FieldRow { name: text, kind })
            }
            _ => Ok(()),
        }
    }

    // A field of that name, which is free.
    #[tactic(auto, using(crate::proofs::Found::free_named, crate::proofs::Found::named_more))]
    fn append(&mut self, name: &[u8], row: FieldRow) -> Result<(), NoMemory>
        requires { (row.name ≡ name.now) × (is_free (field_type name.now (fields_of self.old)) ≡ true) }
        ensures { OnOk result (fields_of self.new ≡ fields_of self.old ++ field_shape row ∷ []) }
    {
        match self.rows.push(row) {
            Ok(()) => match self.names.declare(name, 0) {
                Ok(()) => Ok(()),
                Err(NoMemory) => {
                    self.rows.pop();
                    Err(NoMemory)
                }
            },
            Err(_) => Err(NoMemory),
        }
    }
}

/// A field of that type, which begins at that token; `pos` is its declaration's place.
pub fn place_field(
    checker: &mut Checker,
    token: u32,
    pos: Pos,
    name: &Option<Named>,
    kind: Option<CType>,
    fields: &mut Members,
) -> Result<(), NoMemory>
    ensures fields { OnOk result (fields_of fields.new ≡ with_field (is_free (field_type (text_of name.now) (fields_of fields.old))) (text_of name.now) (type_in kind) (fields_of fields.old)) }
    ensures state { OnOk result (state_of checker.new ≡ step (field_state token (name_pos pos name.now) (is_free (field_type (text_of name.now) (fields_of fields.old))) (type_in kind) (state_of checker.old))) }
{
    let free = fields.is_free(text_of(name));
    field_state(checker, token, name_pos(pos, name), free, &kind)?;
    checker.step();
    fields.add(free, name, kind, checker.alloc)
}

// The name once more; empty, where there is none.
fn name_copy(name: &Option<Named>, alloc: Global) -> Result<Text, NoMemory>
    ensures { IfOk result (λ t. t ≡ text_of name.now) }
{
    match name {
        None => Ok(Text::new(alloc)),
        Some(name) => name.text.copy(alloc),
    }
}
