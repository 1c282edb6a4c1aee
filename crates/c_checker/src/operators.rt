// What operators come to, by what is known of their operands (C89, 3.3).

ghost use Rattle.std.specs.Prelude.{◌≡◌, OnOk, IfOk};
ghost use Rattle.c_type_rules.specs.Kinds.{type_in};
ghost use Rattle.c_tree.specs.Rulings.{kind_at, rule};
ghost use Rattle.c_tree.specs.Sorts.{a_value, a_place, plainly, valuing};
ghost use Rattle.c_tree.specs.Operators.{typed_paren, typed_unary, typed_step, typed_cast, typed_plain, typed_and, typed_or, typed_assign, typed_comma, typed_choice, typed_index, size_outcome, typed_size, typed_type_size, logical};
ghost use Rattle.c_checker.specs.CheckerView.{state_of};
ghost use Rattle.c_checker.specs.RulingView.{ruled_of};
ghost use Rattle.c_checker.specs.SortView.{sort_of, typing_of};
ghost use Rattle.c_syntax.specs.declared.tree.UnaryOp.TheVariants.{AddressOf};

use crate::checker::Checker;
use crate::ruling::{
    Ruling, as_size, by, cast_constant, comma_kind, element_constant, moved, object, settled_sized,
    settled_whole, size_constant,
};
use crate::sort::{Sort, Typing};
use c_base::place::{NoMemory, Pos};
use c_constants::constants::Constant;
use c_constants::operators as constants;
use c_syntax::tree::{BinaryOp, CType, UnaryOp};
use c_tree::complaints::WRONG_TYPE;
use c_type_rules::{choosing, operators as kinds, single, storing};

impl Checker {
    // A value with the ruling's type.
    fn to_value(
        &mut self,
        ruling: Ruling,
        token: u32,
        pos: Pos,
        constant: Constant,
    ) -> Result<Typing, NoMemory>
        ensures typing { IfOk result (λ t. typing_of t ≡ plainly (a_value (kind_at (ruled_of ruling)) constant)) }
        ensures state { OnOk result (state_of self.new ≡ rule (ruled_of ruling) token pos (state_of self.old)) }
    {
        let kind = self.rule(ruling, token, pos)?;
        Ok(Typing::plainly(Sort::value(kind, constant)))
    }

    // A place with the ruling's type.
    fn to_place(
        &mut self,
        ruling: Ruling,
        token: u32,
        pos: Pos,
        constant: Constant,
    ) -> Result<Typing, NoMemory>
        ensures typing { IfOk result (λ t. typing_of t ≡ plainly (a_place (kind_at (ruled_of ruling)) constant)) }
        ensures state { OnOk result (state_of self.new ≡ rule (ruled_of ruling) token pos (state_of self.old)) }
    {
        let kind = self.rule(ruling, token, pos)?;
        Ok(Typing::plainly(Sort::place(kind, constant)))
    }

    /// An expression in parentheses, behind which the closing one stands (C89, 3.3.1).
    pub fn typed_paren(&mut self, a: Sort) -> Typing
        ensures typing { typing_of result ≡ (typed_paren (sort_of a) (state_of self.old)).typing }
        ensures state { state_of self.new ≡ (typed_paren (sort_of a) (state_of self.old)).state }
    {
        self.step();
        Typing::plainly(a)
    }

    /// The operator at the first of the two tokens, in front of an operand that begins at the other one (C89, 3.3.3.2 and
    /// 3.3.3.3).
    pub fn typed_unary(
        &mut self,
        token: u32,
        op_pos: Pos,
        first: u32,
        pos: Pos,
        op: UnaryOp,
        a: Sort,
    ) -> Result<Typing, NoMemory>
        ensures typing { IfOk result (λ t. typing_of t ≡ (typed_unary token op_pos first pos op (sort_of a) (state_of self.old)).typing) }
        ensures state { OnOk result (state_of self.new ≡ (typed_unary token op_pos first pos op (sort_of a) (state_of self.old)).state) }
    {
        let constant = constants::unary(op, a.constant);
        match op {
            UnaryOp::AddressOf => self.typed_address(token, op_pos, first, pos, a),
            UnaryOp::Deref => {
                let ruling = object(by(WRONG_TYPE, single::target(a.kind)), &self.rooms);
                self.to_place(ruling, token, op_pos, Constant::No)
            }
            UnaryOp::Not => self.to_value(
                by(WRONG_TYPE, choosing::truth(a.kind)),
                token,
                op_pos,
                constant,
            ),
            UnaryOp::Plus | UnaryOp::Minus | UnaryOp::Flip => {
                self.to_value(
                    by(WRONG_TYPE, single::promoted_value(a.kind)),
                    token,
                    op_pos,
                    constant,
                )
            }
        }
    }

    // The address of a place.
    fn typed_address(
        &mut self,
        token: u32,
        op_pos: Pos,
        first: u32,
        pos: Pos,
        a: Sort,
    ) -> Result<Typing, NoMemory>
        ensures typing { IfOk result (λ t. typing_of t ≡ (typed_unary token op_pos first pos AddressOf (sort_of a) (state_of self.old)).typing) }
        ensures state { OnOk result (state_of self.new ≡ (typed_unary token op_pos first pos AddressOf (sort_of a) (state_of self.old)).state) }
    {
        let constant = constants::unary(UnaryOp::AddressOf, a.constant);
        let kind = self.rule(a.changeable(), first, pos)?;
        let judged = single::address(kind, self.alloc)?;
        self.to_value(by(WRONG_TYPE, judged), token, op_pos, constant)
    }

    /// `++` or `--` at the first of the two tokens, before or behind an operand that begins at the other one (C89, 3.3.2.4
    /// and 3.3.3.1).
    pub fn typed_step(
        &mut self,
        token: u32,
        op_pos: Pos,
        first: u32,
        pos: Pos,
        a: Sort,
    ) -> Result<Typing, NoMemory>
        ensures typing { IfOk result (λ t. typing_of t ≡ (typed_step token op_pos first pos (sort_of a) (state_of self.old)).typing) }
        ensures state { OnOk result (state_of self.new ≡ (typed_step token op_pos first pos (sort_of a) (state_of self.old)).state) }
    {
        let kind = self.rule(a.changeable(), first, pos)?;
        let ruling = moved(by(WRONG_TYPE, storing::stepped(kind)), &self.rooms);
        self.to_value(ruling, token, op_pos, Constant::No)
    }

    // A size, of that value.
    fn to_size(
        &mut self,
        token: u32,
        op_pos: Pos,
        ruling: Ruling,
        constant: Constant,
    ) -> Result<Typing, NoMemory>
        ensures typing { IfOk result (λ t. typing_of t ≡ (size_outcome token op_pos (ruled_of ruling) constant (state_of self.old)).typing) }
        ensures state { OnOk result (state_of self.new ≡ (size_outcome token op_pos (ruled_of ruling) constant (state_of self.old)).state) }
    {
        let kind = self.rule(as_size(ruling), token, op_pos)?;
        Ok(Typing::valuing(Sort::value(kind, constant)))
    }

    /// `sizeof` of an expression of that type (C89, 3.3.3.4).
    pub fn typed_size(
        &mut self,
        token: u32,
        op_pos: Pos,
        kind: Option<CType>,
    ) -> Result<Typing, NoMemory>
        ensures typing { IfOk result (λ t. typing_of t ≡ (typed_size token op_pos (type_in kind) (state_of self.old)).typing) }
        ensures state { OnOk result (state_of self.new ≡ (typed_size token op_pos (type_in kind) (state_of self.old)).state) }
    {
        let constant = size_constant(&self.rooms, &kind);
        let ruling = settled_sized(kind, &self.rooms);
        self.to_size(token, op_pos, ruling, constant)
    }

    /// `sizeof` of a type name, behind which the closing parenthesis stands (C89, 3.3.3.4).
    pub fn typed_type_size(
        &mut self,
        token: u32,
        op_pos: Pos,
        kind: Option<CType>,
    ) -> Result<Typing, NoMemory>
        ensures typing { IfOk result (λ t. typing_of t ≡ (typed_type_size token op_pos (type_in kind) (state_of self.old)).typing) }
        ensures state { OnOk result (state_of self.new ≡ (typed_type_size token op_pos (type_in kind) (state_of self.old)).state) }
    {
        let constant = size_constant(&self.rooms, &kind);
        let ruling = settled_whole(kind, &self.rooms);
        self.step();
        self.to_size(token, op_pos, ruling, constant)
    }

    /// A cast to that type (C89, 3.3.4).
    pub fn typed_cast(
        &mut self,
        token: u32,
        op_pos: Pos,
        kind: Option<CType>,
        a: Sort,
    ) -> Result<Typing, NoMemory>
        ensures typing { IfOk result (λ t. typing_of t ≡ (typed_cast token op_pos (type_in kind) (sort_of a) (state_of self.old)).typing) }
        ensures state { OnOk result (state_of self.new ≡ (typed_cast token op_pos (type_in kind) (sort_of a) (state_of self.old)).state) }
    {
        let constant = cast_constant(&kind, a.constant);
        self.to_value(
            by(WRONG_TYPE, single::cast(kind, a.kind)),
            token,
            op_pos,
            constant,
        )
    }

    /// An operator between two operands that are both evaluated (C89, 3.3.5 to 3.3.12).
    pub fn typed_plain(
        &mut self,
        token: u32,
        op_pos: Pos,
        op: BinaryOp,
        left: Sort,
        right: Sort,
    ) -> Result<Typing, NoMemory>
        ensures typing { IfOk result (λ t. typing_of t ≡ (typed_plain token op_pos op (sort_of left) (sort_of right) (state_of self.old)).typing) }
        ensures state { OnOk result (state_of self.new ≡ (typed_plain token op_pos op (sort_of left) (sort_of right) (state_of self.old)).state) }
    {
        let constant = constants::binary(op, left.constant, right.constant);
        let judged = kinds::binary(op, left.operand(), right.operand());
        let ruling = moved(by(WRONG_TYPE, judged), &self.rooms);
        self.to_value(ruling, token, op_pos, constant)
    }

    /// `&&` (C89, 3.3.13).
    pub fn typed_and(
        &mut self,
        token: u32,
        op_pos: Pos,
        left: Sort,
        right: Sort,
    ) -> Result<Typing, NoMemory>
        ensures typing { IfOk result (λ t. typing_of t ≡ (typed_and token op_pos (sort_of left) (sort_of right) (state_of self.old)).typing) }
        ensures state { OnOk result (state_of self.new ≡ (typed_and token op_pos (sort_of left) (sort_of right) (state_of self.old)).state) }
    {
        let constant = constants::both(left.constant, right.constant);
        self.to_value(
            by(WRONG_TYPE, choosing::logical(left.kind, right.kind)),
            token,
            op_pos,
            constant,
        )
    }

    /// `||` (C89, 3.3.14).
    pub fn typed_or(
        &mut self,
        token: u32,
        op_pos: Pos,
        left: Sort,
        right: Sort,
    ) -> Result<Typing, NoMemory>
        ensures typing { IfOk result (λ t. typing_of t ≡ (typed_or token op_pos (sort_of left) (sort_of right) (state_of self.old)).typing) }
        ensures state { OnOk result (state_of self.new ≡ (typed_or token op_pos (sort_of left) (sort_of right) (state_of self.old)).state) }
    {
        let constant = constants::either(left.constant, right.constant);
        self.to_value(
            by(WRONG_TYPE, choosing::logical(left.kind, right.kind)),
            token,
            op_pos,
            constant,
        )
    }

    /// `=`, or another assignment, at the first of the two tokens; the left side begins at the other one (C89, 3.3.16).
    pub fn typed_assign(
        &mut self,
        token: u32,
        op_pos: Pos,
        first: u32,
        pos: Pos,
        op: Option<BinaryOp>,
        left: Sort,
        right: Sort,
    ) -> Result<Typing, NoMemory>
        ensures typing { IfOk result (λ t. typing_of t ≡ (typed_assign token op_pos first pos op (sort_of left) (sort_of right) (state_of self.old)).typing) }
        ensures state { OnOk result (state_of self.new ≡ (typed_assign token op_pos first pos op (sort_of left) (sort_of right) (state_of self.old)).state) }
    {
        let kind = self.rule(left.left_side(&right), first, pos)?;
        match op {
            None => {
                let place = right.place;
                let judged = storing::assigned(kind, right.operand(), place);
                self.to_value(by(WRONG_TYPE, judged), token, op_pos, Constant::No)
            }
            Some(op) => {
                let judged = storing::compound(op, kind, right.kind);
                let ruling = moved(by(WRONG_TYPE, judged), &self.rooms);
                self.to_value(ruling, token, op_pos, Constant::No)
            }
        }
    }

    /// A comma between two expressions (C89, 3.3.17).
    pub fn typed_comma(&mut self, left: Sort, right: Sort) -> Typing
        ensures typing { typing_of result ≡ (typed_comma (sort_of left) (sort_of right) (state_of self.old)).typing }
        ensures state { state_of self.new ≡ (typed_comma (sort_of left) (sort_of right) (state_of self.old)).state }
    {
        let kind = comma_kind(left.kind, right.kind).kind();
        Typing::plainly(Sort::value(kind, Constant::No))
    }

    /// `?:` (C89, 3.3.15).
    pub fn typed_choice(
        &mut self,
        token: u32,
        op_pos: Pos,
        test: Sort,
        second: Sort,
        third: Sort,
    ) -> Result<Typing, NoMemory>
        ensures typing { IfOk result (λ t. typing_of t ≡ (typed_choice token op_pos (sort_of test) (sort_of second) (sort_of third) (state_of self.old)).typing) }
        ensures state { OnOk result (state_of self.new ≡ (typed_choice token op_pos (sort_of test) (sort_of second) (sort_of third) (state_of self.old)).state) }
    {
        let constant = constants::choice(test.constant, second.constant, third.constant);
        let judged = choosing::conditional(test.kind, second.operand(), third.operand());
        self.to_value(by(WRONG_TYPE, judged), token, op_pos, constant)
    }

    /// `a[b]`, behind which the closing bracket stands (C89, 3.3.2.1).
    pub fn typed_index(
        &mut self,
        token: u32,
        op_pos: Pos,
        left: Sort,
        right: Sort,
    ) -> Result<Typing, NoMemory>
        ensures typing { IfOk result (λ t. typing_of t ≡ (typed_index token op_pos (sort_of left) (sort_of right) (state_of self.old)).typing) }
        ensures state { OnOk result (state_of self.new ≡ (typed_index token op_pos (sort_of left) (sort_of right) (state_of self.old)).state) }
    {
        let constant = element_constant(&left.kind, left.constant, &right.kind, right.constant);
        let judged = single::element(left.kind, right.kind);
        let ruling = object(by(WRONG_TYPE, judged), &self.rooms);
        let typing = self.to_place(ruling, token, op_pos, constant)?;
        self.step();
        Ok(typing)
    }
}
