// Where expressions stand in assignments.

ghost use Rattle.std.specs.Prelude.{◌≡◌};
ghost use Rattle.c_syntax.specs.View.{expr_shape};
ghost use Rattle.c_type_rules.specs.Kinds.{type_in};
ghost use Rattle.c_tree.specs.Operators.{may_copy, kept_side, sided, entering};
ghost use Rattle.c_checker.specs.CheckerView.{state_of};

use crate::checker::Checker;
use c_syntax::tree::{CType, Expr, ExprProbe};
use c_tree::meaning::Side;
use c_type_rules::kinds::is_structure;

impl Checker {
    /// An expression of that form begins: the side is its own where it stands in parentheses or in a probe round a place.
    pub fn enter(&mut self, form: &Expr)
        ensures { state_of self.new ≡ entering (expr_shape form.now) (state_of self.old) }
    {
        self.side = kept_side(form, self.side);
    }

    /// An operand that stands there comes next.
    pub fn side_with(&mut self, side: Side)
        ensures { state_of self.new ≡ sided side (state_of self.old) }
    {
        self.side = side;
    }
}

// Parentheses are looked through, and so are the probes of places.
#[tactic(auto, using(crate::proofs::Steps::step_kept))]
fn kept_side(form: &Expr, side: Side) -> Side
    ensures { result ≡ kept_side (expr_shape form.now) side }
{
    match form {
        Expr::Paren(_) => side,
        Expr::Probe(ExprProbe::Use(_) | ExprProbe::Def(_), _) => side,
        _ => Side::Neither,
    }
}

/// Where the right side of `=` stands, whose left one has that type: a structure is copied, and it may be unknown.
pub fn may_copy(left: &Option<CType>) -> Side
    ensures { result ≡ may_copy (type_in left.now) }
{
    match left {
        None => Side::Right,
        Some(kind) => {
            if is_structure(kind) {
                Side::Right
            } else {
                Side::Neither
            }
        }
    }
}
