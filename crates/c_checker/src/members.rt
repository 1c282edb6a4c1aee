// The fields of structures (C89, 3.3.2.3).

ghost use Rattle.std.specs.Prelude.{◌≡◌, OnOk, IfOk};
ghost use Rattle.c_type_rules.specs.Kinds.{type_in};
ghost use Rattle.c_syntax.specs.Shape.{dot, arrow};
ghost use Rattle.c_tree.specs.Rulings.{of_kind};
ghost use Rattle.c_tree.specs.Operators.{typed_field, held_field, field_rule};
ghost use Rattle.c_checker.specs.CheckerView.{state_of};
ghost use Rattle.c_checker.specs.RulingView.{ruled_of};
ghost use Rattle.c_checker.specs.SortView.{sort_of, typing_of};

use crate::checker::Checker;
use crate::ruling::{Ruling, by, complete};
use crate::sort::{Sort, Typing};
use c_base::place::{NoMemory, Pos};
use c_constants::constants::Constant;
use c_constants::places;
use c_syntax::tree::CType;
use c_tree::complaints::{UNKNOWN_FIELD, WRONG_TYPE};
use c_type_rules::kinds::copy;
use c_type_rules::single;

impl Checker {
    /// `.` and the field with that name, which stands at that place.
    pub fn typed_member(
        &mut self,
        token: u32,
        op_pos: Pos,
        name: &[u8],
        pos: Pos,
        a: Sort,
    ) -> Result<Typing, NoMemory>
        ensures typing { IfOk result (λ t. typing_of t ≡ (typed_field token op_pos dot name.now pos (sort_of a) (state_of self.old)).typing) }
        ensures state { OnOk result (state_of self.new ≡ (typed_field token op_pos dot name.now pos (sort_of a) (state_of self.old)).state) }
    {
        let constant = places::field(a.constant);
        let held = self.rule(by(WRONG_TYPE, single::structure(a.kind)), token, op_pos)?;
        let ruling = self.field_rule(name, held)?;
        self.step();
        self.held_field(pos, ruling, constant)
    }

    /// `->` and the field with that name, which stands at that place.
    pub fn typed_arrow(
        &mut self,
        token: u32,
        op_pos: Pos,
        name: &[u8],
        pos: Pos,
        a: Sort,
    ) -> Result<Typing, NoMemory>
        ensures typing { IfOk result (λ t. typing_of t ≡ (typed_field token op_pos arrow name.now pos (sort_of a) (state_of self.old)).typing) }
        ensures state { OnOk result (state_of self.new ≡ (typed_field token op_pos arrow name.now pos (sort_of a) (state_of self.old)).state) }
    {
        let ruling = complete(
            by(WRONG_TYPE, single::pointed_structure(a.kind)),
            &self.rooms,
        );
        let held = self.rule(ruling, token, op_pos)?;
        let ruling = self.field_rule(name, held)?;
        self.step();
        self.held_field(pos, ruling, Constant::No)
    }

    // The field with that name, of a structure.
    fn field_rule(&self, name: &[u8], held: Option<CType>) -> Result<Ruling, NoMemory>
        ensures { IfOk result (λ r. ruled_of r ≡ of_kind (type_in held) (field_rule name.now (state_of self.now))) }
    {
        match held {
            Some(CType::Struct(n)) => match self.field(n, name) {
                Some(kind) => Ok(Ruling::Allowed(copy(kind, self.alloc)?)),
                None => Ok(Ruling::Refused(UNKNOWN_FIELD)),
            },
            _ => Ok(Ruling::Unsettled),
        }
    }

    // The field's name.
    fn held_field(
        &mut self,
        pos: Pos,
        ruling: Ruling,
        constant: Constant,
    ) -> Result<Typing, NoMemory>
        ensures typing { IfOk result (λ t. typing_of t ≡ (held_field pos (ruled_of ruling) constant (state_of self.old)).typing) }
        ensures state { OnOk result (state_of self.new ≡ (held_field pos (ruled_of ruling) constant (state_of self.old)).state) }
    {
        let kind = self.rule(ruling, self.at, pos)?;
        self.step();
        Ok(Typing::plainly(Sort::place(kind, constant)))
    }
}
