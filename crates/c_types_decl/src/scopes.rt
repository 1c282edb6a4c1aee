// The scopes of names and tags (C89, 3.1.2.1).

ghost use Rattle.std.specs.Prelude.{◌≡◌, OnOk};
ghost use Rattle.c_tree.specs.Declaring.{opened_scope, closed_scope, closed_params};
ghost use Rattle.c_checker.specs.CheckerView.{state_of};

use c_base::place::NoMemory;
use c_checker::checker::Checker;

/// Opens a scope of names and one of tags.
pub fn open_scope(checker: &mut Checker) -> Result<(), NoMemory>
    ensures { OnOk result (state_of checker.new ≡ opened_scope (state_of checker.old)) }
{
    checker.names.enter()?;
    checker.tags.enter()?;
    Ok(())
}

/// Closes the innermost scope of names and that of tags.
pub fn close_scope(checker: &mut Checker)
    ensures { state_of checker.new ≡ closed_scope (state_of checker.old) }
{
    drop(checker.names.leave());
    drop(checker.tags.leave());
}

/// Closes the scope of a parameter list; where a body follows, its tags stay, and its names are kept.
pub fn close_params(checker: &mut Checker, defining: bool)
    ensures { state_of checker.new ≡ closed_params defining (state_of checker.old) }
{
    let names = checker.names.leave();
    if defining {
        checker.listed = names;
    } else {
        drop(checker.tags.leave());
    }
}
