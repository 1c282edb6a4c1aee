// Calls (C89, 3.3.2.2).

ghost use Rattle.std.specs.Prelude.{◌≡◌, map, OnOk, IfOk};
ghost use Rattle.c_type_rules.specs.Kinds.{type_in};
ghost use Rattle.c_syntax.specs.View.{type_of};
ghost use Rattle.c_tree.specs.Operators.{called, fit_all, judged, call_of, typed_call, given_at};
ghost use Rattle.c_type_rules.specs.Verdicts.{fits_type};
ghost use Rattle.c_tree.specs.Rulings.{by, rule};
ghost use Rattle.c_tables.specs.Rows.{row};
ghost use Rattle.c_checker.specs.CheckerView.{state_of};
ghost use Rattle.c_checker.specs.SortView.{sort_of, typing_of};
ghost use Rattle.c_checker.specs.CallView.{given_of};
ghost use Rattle.c_tree.specs.Complaints.{wrong_type};

use crate::checker::Checker;
use crate::functions::copies;
use crate::ruling::by;
use crate::sort::{Sort, Typing, copied};
use c_base::place::{NoMemory, Pos};
use c_constants::constants::Constant;
use c_syntax::tree::CType;
use c_tree::complaints::{UNDEFINED, UNKNOWN_NAME, WRONG_ARG_COUNT, WRONG_TYPE};
use c_tree::meaning::Entity;
use c_type_rules::judged::Operand;
use c_type_rules::kinds::copy;
use c_type_rules::storing::fits;

/// An argument: the number and the place of its first token, its type, where no complaint stands inside, and whether it is a
/// null constant (C89, 3.2.2.3).
#[derive(Drop)]
pub struct Given {
    pub token: u32,
    pub pos: Pos,
    pub kind: Option<CType>,
    pub null: bool,
}

impl Given {
    /// The argument that begins at that token.
    pub fn new(token: u32, pos: Pos, a: Sort) -> Given
        ensures { given_of result ≡ given_at token pos (sort_of a) }
    {
        let null = a.is_null();
        Given {
            token,
            pos,
            kind: a.kind,
            null,
        }
    }
}

impl Checker {
    /// The function that a call names, if it names one; a built-in one is mentioned.
    pub fn called(&mut self, pos: Pos, name: &[u8]) -> Result<Option<u32>, NoMemory>
        ensures function { IfOk result (λ n. n ≡ (called pos name.now (state_of self.old)).function) }
        ensures state { OnOk result (state_of self.new ≡ (called pos name.now (state_of self.old)).state) }
    {
        match self.names.find(name) {
            Some(Entity::Function(n)) => {
                let counts = self.counts(n);
                self.demand(counts, UNDEFINED, self.at, pos)?;
                Ok(Some(n))
            }
            Some(Entity::Builtin(builtin)) => {
                let n = self.mention_builtin(builtin)?;
                Ok(Some(n))
            }
            Some(Entity::Unknown) => Ok(None),
            _ => {
                self.complain(UNKNOWN_NAME, self.at, pos)?;
                Ok(None)
            }
        }
    }

    /// A call of that function, behind its arguments, in which no complaint came if `clean` holds; behind them the closing
    /// parenthesis stands.
    pub fn typed_call(
        &mut self,
        pos: Pos,
        token: u32,
        clean: bool,
        function: Option<u32>,
        given: &[Given],
    ) -> Result<Typing, NoMemory>
        ensures typing { IfOk result (λ t. typing_of t ≡ (typed_call pos token clean function (map given_of given.now) (state_of self.old)).typing) }
        ensures state { OnOk result (state_of self.new ≡ (typed_call pos token clean function (map given_of given.now) (state_of self.old)).state) }
    {
        match function {
            Some(n) => self.call_of(pos, token, clean, n, given),
            None => {
                self.step();
                Ok(Typing::plainly(Sort::none()))
            }
        }
    }

    // A call of the function with that number.
    fn call_of(
        &mut self,
        pos: Pos,
        token: u32,
        clean: bool,
        n: u32,
        given: &[Given],
    ) -> Result<Typing, NoMemory>
        ensures typing { IfOk result (λ t. typing_of t ≡ (call_of pos token clean n (row (state_of self.old).tables.functions n) (map given_of given.now) (state_of self.old)).typing) }
        ensures state { OnOk result (state_of self.new ≡ (call_of pos token clean n (row (state_of self.old).tables.functions n) (map given_of given.now) (state_of self.old)).state) }
    {
        match self.function(n) {
            Some(row) => {
                let kind = copy(&row.result, self.alloc)?;
                let params = copies(&row.params, self.alloc)?;
                self.judge_given(token, pos, clean, &params, given)?;
                self.step();
                Ok(Typing::naming(Sort::value(Some(kind), Constant::No), Some(n)))
            }
            None => {
                self.step();
                Ok(Typing::plainly(Sort::none()))
            }
        }
    }

    // The number of arguments, where no complaint stands inside, and then each of them.
    fn judge_given(
        &mut self,
        token: u32,
        pos: Pos,
        clean: bool,
        params: &[CType],
        given: &[Given],
    ) -> Result<(), NoMemory>
        ensures { OnOk result (state_of self.new ≡ judged token pos clean (map type_of params.now) (map given_of given.now) (state_of self.old)) }
    {
        if clean && params.len() != given.len() {
            self.complain(WRONG_ARG_COUNT, token, pos)
        } else {
            self.fit_all(params, given)
        }
    }

    /// Each argument fits into its parameter.
    pub fn fit_all(&mut self, params: &[CType], given: &[Given]) -> Result<(), NoMemory>
        ensures { OnOk result (state_of self.new ≡ fit_all (map type_of params.now) (map given_of given.now) (state_of self.old)) }
    {
        for i in 0..params.len() {
            if i >= given.len() {
                return Ok(());
            }
            self.fit(&params[i], &given[i])?;
        }
        Ok(())
    }

    // The argument fits into the parameter.
    fn fit(&mut self, param: &CType, given: &Given) -> Result<(), NoMemory>
        ensures { OnOk result (state_of self.new ≡ rule (by wrong_type (fits_type (Some (type_of param.now)) (type_in given.now.kind) given.now.null)) given.now.token given.now.pos (state_of self.old)) }
    {
        let to = copy(param, self.alloc)?;
        let kind = copied(&given.kind, self.alloc)?;
        let value = Operand {
            kind,
            null: given.null,
        };
        self.rule(
            by(WRONG_TYPE, fits(Some(to), value)),
            given.token,
            given.pos,
        )?;
        Ok(())
    }
}
