// Constants and names (C89, 3.3.1).

ghost use Rattle.std.specs.Prelude.{◌≡◌, pos, OnOk, IfOk, Some, option_map};
ghost use Rattle.c_base.specs.declared.place.IntKind.TheVariants.{Char};
ghost use Rattle.c_arith.specs.Arith.{wrap};
ghost use Rattle.c_type_rules.specs.Layouts.{measures};
ghost use Rattle.c_syntax.specs.View.{type_of};
ghost use Rattle.c_tables.specs.Rows.{row};
ghost use Rattle.c_tree.specs.Rulings.{whole};
ghost use Rattle.c_tree.specs.Operators.{typed_number, typed_char, typed_string, string_type, with_literal, literal_number, typed_name, named_variable, named_parameter, named_entity, variable_constant};
ghost use Rattle.c_constants.specs.Numbers.{number_of};
ghost use Rattle.c_checker.specs.CheckerView.{state_of};
ghost use Rattle.c_checker.specs.RulingView.{ruled_of};
ghost use Rattle.c_checker.specs.SortView.{typing_of};

use crate::checker::Checker;
use crate::ruling::{Ruling, whole};
use crate::sort::{Sort, Typing};
use c_base::place::{IntKind, NoMemory, Pos};
use c_constants::constants::{Constant, character};
use c_constants::numbers::number_of;
use c_syntax::text::Text;
use c_syntax::tree::CType;
use c_tables::tables::LiteralRow;
use c_tree::complaints::{TOO_LARGE_TYPE, UNKNOWN_NAME, WRONG_TYPE};
use c_tree::meaning::Entity;
use c_type_rules::extent::Measured;
use c_type_rules::kinds::{boxed, copy};
use std::alloc::Global;

impl Checker {
    /// An integer constant of that spelling (C89, 3.1.3.2).
    pub fn typed_number(&mut self, pos: Pos, spelled: &[u8]) -> Result<Typing, NoMemory>
        ensures typing { IfOk result (λ t. typing_of t ≡ (typed_number pos spelled.now (state_of self.old)).typing) }
        ensures state { OnOk result (state_of self.new ≡ (typed_number pos spelled.now (state_of self.old)).state) }
    {
        match number_of(spelled) {
            Some(number) => {
                self.step();
                let kind = Some(CType::Int(number.kind));
                Ok(Typing::plainly(Sort::value(kind, number.constant())))
            }
            None => {
                self.complain(WRONG_TYPE, self.at, pos)?;
                self.step();
                Ok(Typing::plainly(Sort::none()))
            }
        }
    }

    /// A character constant (C89, 3.1.3.4).
    pub fn typed_char(&mut self, byte: u8) -> Typing
        ensures typing { typing_of result ≡ (typed_char byte (state_of self.old)).typing }
        ensures state { state_of self.new ≡ (typed_char byte (state_of self.old)).state }
    {
        self.step();
        let kind = Some(CType::Int(IntKind::Int));
        Typing::plainly(Sort::value(kind, character(byte)))
    }

    /// A string (C89, 3.1.4), which is an object outside of a `sizeof`.
    pub fn typed_string(&mut self, pos: Pos, text: &Text) -> Result<Typing, NoMemory>
        ensures typing { IfOk result (λ t. typing_of t ≡ (typed_string pos text.now (state_of self.old)).typing) }
        ensures state { OnOk result (state_of self.new ≡ (typed_string pos text.now (state_of self.old)).state) }
    {
        let ruling = string_ruling(text, &self.rooms, self.alloc)?;
        let number = self.literal(text)?;
        let kind = self.rule(ruling, self.at, pos)?;
        self.step();
        Ok(Typing::naming(Sort::value(kind, Constant::Literal), number))
    }

    // The number of the string, if it is an object.
    fn literal(&mut self, text: &Text) -> Result<Option<u32>, NoMemory>
        ensures number { IfOk result (λ n. n ≡ literal_number (state_of self.old)) }
        ensures state { OnOk result (state_of self.new ≡ with_literal text.now (state_of self.old)) }
        ensures rest { record self.new { tables = self.old.tables } ≡ self.old }
    {
        if self.quiet {
            return Ok(None);
        }
        let before = self.tables.literals();
        if before == u32::MAX {
            return Err(NoMemory);
        }
        let bytes = text.copy(self.alloc)?;
        self.tables.push_literal(LiteralRow { bytes })?;
        Ok(Some(before + 1))
    }

    /// A name (C89, 3.3.1).
    pub fn typed_name(&mut self, pos: Pos, name: &[u8]) -> Result<Typing, NoMemory>
        ensures typing { IfOk result (λ t. typing_of t ≡ (typed_name pos name.now (state_of self.old)).typing) }
        ensures state { OnOk result (state_of self.new ≡ (typed_name pos name.now (state_of self.old)).state) }
    {
        match self.names.find(name) {
            Some(Entity::Variable(n)) => self.named_variable(pos, n),
            Some(Entity::Parameter(n)) => self.named_parameter(pos, n),
            Some(Entity::Constant(value)) => {
                self.step();
                let kind = Some(CType::Int(IntKind::Int));
                let constant = Constant::Known(IntKind::Int, i128::from(value));
                Ok(Typing::valuing(Sort::value(kind, constant)))
            }
            Some(Entity::Unknown) => {
                self.step();
                Ok(Typing::plainly(Sort::none()))
            }
            _ => self.undeclared(pos),
        }
    }

    // A name that stands for no object.
    fn undeclared(&mut self, pos: Pos) -> Result<Typing, NoMemory>
        ensures typing { IfOk result (λ t. typing_of t ≡ (named_parameter pos None (state_of self.old)).typing) }
        ensures state { OnOk result (state_of self.new ≡ (named_parameter pos None (state_of self.old)).state) }
    {
        self.complain(UNKNOWN_NAME, self.at, pos)?;
        self.step();
        Ok(Typing::plainly(Sort::none()))
    }

    // A name of the variable with that number.
    fn named_variable(&mut self, pos: Pos, n: u32) -> Result<Typing, NoMemory>
        ensures typing { IfOk result (λ t. typing_of t ≡ (named_variable pos n (row (state_of self.old).tables.variables n) (state_of self.old)).typing) }
        ensures state { OnOk result (state_of self.new ≡ (named_variable pos n (row (state_of self.old).tables.variables n) (state_of self.old)).state) }
    {
        match self.variable(n) {
            Some(row) => {
                let kind = copy(&row.kind, self.alloc)?;
                let constant = variable_constant(row.function);
                self.step();
                Ok(Typing::naming(Sort::place(Some(kind), constant), Some(n)))
            }
            None => self.undeclared(pos),
        }
    }

    // A name of the parameter with that number, while the list is read.
    fn named_parameter(&mut self, pos: Pos, n: u32) -> Result<Typing, NoMemory>
        ensures typing { IfOk result (λ t. typing_of t ≡ (named_parameter pos (row (state_of self.old).params n) (state_of self.old)).typing) }
        ensures state { OnOk result (state_of self.new ≡ (named_parameter pos (row (state_of self.old).params n) (state_of self.old)).state) }
    {
        match self.parameter(n) {
            Some(kind) => {
                let kind = copy(kind, self.alloc)?;
                self.step();
                Ok(Typing::plainly(Sort::place(Some(kind), Constant::No)))
            }
            None => self.undeclared(pos),
        }
    }
}

// What is known of a variable of that function, or of none.
fn variable_constant(function: u32) -> Constant
    ensures { result ≡ variable_constant function }
{
    if function == 0 {
        Constant::Variable
    } else {
        Constant::No
    }
}

// A string is an array of its characters and a null character.
fn string_ruling(text: &Text, rooms: &[Measured], alloc: Global) -> Result<Ruling, NoMemory>
    ensures { IfOk result (λ r. ruled_of r ≡ whole (measures rooms.now) (string_type text.now)) }
{
    let length = text.len();
    if length >= 1_048_576 {
        return Ok(Ruling::Refused(TOO_LARGE_TYPE));
    }
    let of = boxed(CType::Int(IntKind::Char), alloc)?;
    Ok(whole(CType::Array(of, length + 1), rooms))
}
