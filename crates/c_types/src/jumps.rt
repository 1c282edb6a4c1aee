// Where `break`, `continue` and `return` may stand (C89, 3.6.6).

ghost use Rattle.std.specs.Prelude.{◌≡◌, true, false, OnOk};
ghost use Rattle.c_type_rules.specs.Kinds.{type_in};
ghost use Rattle.c_syntax.specs.View.{maybe_node};
ghost use Rattle.c_tree.specs.State.{demand, step, steps};
ghost use Rattle.c_tree.specs.Stating.{type_result};
ghost use Rattle.c_checker.specs.CheckerView.{state_of};
ghost use Rattle.c_tree.specs.Complaints.{stray};

use crate::expressions::type_result;
use c_base::place::{NoMemory, Pos};
use c_checker::checker::Checker;
use c_syntax::tree::{CType, Node};
use c_tree::complaints::STRAY;

/// Whether a statement stands in a loop, and whether in a loop or a `switch`.
#[derive(Clone, Copy, Debug, PartialEq, Eq)]
pub struct Jumps {
    pub looped: bool,
    pub breakable: bool,
}

impl Jumps {
    /// In the body of a function.
    pub fn new() -> Jumps
        ensures { result ≡ record { looped = false; breakable = false } }
    {
        Jumps {
            looped: false,
            breakable: false,
        }
    }

    /// In a loop.
    pub fn in_loop(self) -> Jumps
        ensures { result ≡ record { looped = true; breakable = true } }
    {
        Jumps {
            looped: true,
            breakable: true,
        }
    }

    /// In a `switch`.
    pub fn in_switch(self) -> Jumps
        ensures { result ≡ record self { breakable = true } }
    {
        Jumps {
            looped: self.looped,
            breakable: true,
        }
    }
}

/// A `break` at that place, with its semicolon.
pub fn type_break(checker: &mut Checker, jumps: Jumps, pos: Pos) -> Result<(), NoMemory>
    ensures { OnOk result (state_of checker.new ≡ steps 2 (demand jumps.breakable stray (state_of checker.old).at pos (state_of checker.old))) }
{
    checker.demand(jumps.breakable, STRAY, checker.at, pos)?;
    checker.steps(2);
    Ok(())
}

/// A `continue` at that place, with its semicolon.
pub fn type_continue(checker: &mut Checker, jumps: Jumps, pos: Pos) -> Result<(), NoMemory>
    ensures { OnOk result (state_of checker.new ≡ steps 2 (demand jumps.looped stray (state_of checker.old).at pos (state_of checker.old))) }
{
    checker.demand(jumps.looped, STRAY, checker.at, pos)?;
    checker.steps(2);
    Ok(())
}

/// A `return` at that place, with its value, if it has one, and its semicolon, in a function that gives that, where that is
/// known.
pub fn type_return(
    checker: &mut Checker,
    pos: Pos,
    gives: &Option<CType>,
    node: &mut Option<Node>,
) -> Result<(), NoMemory>
    ensures tree { OnOk result (maybe_node node.new ≡ (type_result (state_of checker.old).at pos (type_in gives.now) (maybe_node node.old) (step (state_of checker.old))).node) }
    ensures state { OnOk result (state_of checker.new ≡ step (type_result (state_of checker.old).at pos (type_in gives.now) (maybe_node node.old) (step (state_of checker.old))).state) }
{
    let token = checker.at;
    checker.step();
    type_result(checker, token, pos, gives, node)?;
    checker.step();
    Ok(())
}
