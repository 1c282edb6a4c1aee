// The specifiers of a declaration or a parameter (C89, 3.5).

ghost use Rattle.std.specs.Prelude.{◌≡◌, OnOk, IfOk};
ghost use Rattle.c_type_rules.specs.Kinds.{type_in};
ghost use Rattle.c_syntax.specs.View.{spec_list};
ghost use Rattle.c_tree.specs.Rulings.{kind_at, rule};
ghost use Rattle.c_tree.specs.Parts.{unspelled, spelled_rule};
ghost use Rattle.c_tree.specs.Typing.{type_specs};
ghost use Rattle.c_checker.specs.CheckerView.{state_of};

use c_base::place::{NoMemory, Pos};
use c_checker::checker::Checker;
use c_syntax::tree::{CType, Spec};
use c_types_expr::specifiers::type_specs;

/// Types the expressions in specifiers in place, and answers the type that they mean; a complaint stands at the first of
/// their tokens. `alone` says that no declarator follows.
pub fn type_specifiers(
    checker: &mut Checker,
    alone: bool,
    pos: Pos,
    specs: &mut Vec<Spec>,
) -> Result<Option<CType>, NoMemory>
    ensures tree { OnOk result (spec_list specs.new.items ≡ (type_specs alone (spec_list specs.old.items) unspelled (state_of checker.old)).specs) }
    ensures kind { IfOk result (λ k. type_in k ≡ kind_at (spelled_rule (type_specs alone (spec_list specs.old.items) unspelled (state_of checker.old)).spelled)) }
    ensures state { OnOk result (state_of checker.new ≡ rule (spelled_rule (type_specs alone (spec_list specs.old.items) unspelled (state_of checker.old)).spelled) (state_of checker.old).at pos (type_specs alone (spec_list specs.old.items) unspelled (state_of checker.old)).state) }
{
    let token = checker.at;
    let spelled = type_specs(checker, alone, specs)?;
    let kind = checker.rule(spelled.ruling(), token, pos)?;
    Ok(kind)
}
