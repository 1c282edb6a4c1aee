// The fields of a member list (C89, 3.5.2.1).

ghost use Rattle.std.specs.Prelude.{◌≡◌, OnOk};
ghost use Rattle.c_type_rules.specs.Kinds.{type_in};
ghost use Rattle.c_tree.specs.Parts.{field_state};
ghost use Rattle.c_tables.specs.Rows.{text_of, name_pos};
ghost use Rattle.c_checker.specs.CheckerView.{state_of};

use c_base::place::{NoMemory, Pos};
use c_checker::checker::Checker;
use c_syntax::tree::{CType, Named};
use c_tree::complaints::{DECLARED_TWICE, INCOMPLETE_TYPE, TOO_LARGE_TYPE};
use c_type_rules::extent::Measured;
use c_type_rules::layout::measured;

/// The name of a declarator, which is empty where there is none.
pub fn text_of(name: &Option<Named>) -> &[u8]
    ensures { result.now ≡ text_of name.now }
{
    match name {
        None => &[],
        Some(name) => name.text.bytes(),
    }
}

/// The name's place, or that of the declaration where there is none.
pub fn name_pos(pos: Pos, name: &Option<Named>) -> Pos
    ensures { result ≡ name_pos pos name.now }
{
    match name {
        None => pos,
        Some(name) => name.pos,
    }
}

/// A field, which begins at that token: its name is free, and its type complete.
pub fn field_state(
    checker: &mut Checker,
    token: u32,
    pos: Pos,
    free: bool,
    kind: &Option<CType>,
) -> Result<(), NoMemory>
    ensures { OnOk result (state_of checker.new ≡ field_state token pos free (type_in kind.now) (state_of checker.old)) }
{
    checker.demand(free, DECLARED_TWICE, token, pos)?;
    match kind {
        None => Ok(()),
        Some(kind) => match measured(kind, &checker.rooms) {
            Measured::Known(_) => Ok(()),
            Measured::Incomplete => checker.complain(INCOMPLETE_TYPE, token, pos),
            Measured::TooLarge => checker.complain(TOO_LARGE_TYPE, token, pos),
        },
    }
}
