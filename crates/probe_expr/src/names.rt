//! The probes in front of a statement or a body, and round a declared name.

ghost use Rattle.std.specs.Prelude.{◌≡◌, IfOk};
ghost use Rattle.c_walk.specs.Walked.{Walked};
ghost use Rattle.probe_rules.specs.Marks.{mark_at, block_marks, defined_name};
ghost use Rattle.c_walk.specs.Counted.{next_block};
ghost use Rattle.probe_expr.specs.Numbers.{counts};

use crate::numbers::Numbers;
use c_base::place::{NoMemory, Pos};
use c_copy::parts::put;
use c_syntax::tree::{Named, ProbeMark};
use std::alloc::Global;

/// The probe in front of what is a block.
pub fn block_mark(alloc: Global, numbers: Numbers, pos: Pos) -> Result<ProbeMark, NoMemory>
    ensures { IfOk result (λ m. (w : Walked) → counts w ≡ numbers → m ≡ mark_at pos (next_block w)) }
{
    let number = numbers.block_text(alloc)?;
    Ok(ProbeMark { pos, number })
}

/// The probes in front of a statement that is a block, or isn't.
pub fn block_marks(
    alloc: Global,
    numbers: Numbers,
    block: bool,
    pos: Pos,
) -> Result<Vec<ProbeMark>, NoMemory>
    ensures { IfOk result (λ v. (w : Walked) → counts w ≡ numbers → v.items ≡ block_marks block pos w) }
{
    let mut marks = Vec::new(alloc);
    if block {
        let mark = block_mark(alloc, numbers, pos)?;
        put(&mut marks, mark)?;
    }
    Ok(marks)
}

/// A declared name that is defined there, if there is one.
pub fn defined_name(
    alloc: Global,
    numbers: Numbers,
    name: &Option<Named>,
) -> Result<Option<Named>, NoMemory>
    ensures { IfOk result (λ n. (w : Walked) → counts w ≡ numbers → n ≡ defined_name name.now w) }
{
    match name {
        None => Ok(None),
        Some(name) => {
            let text = name.text.copy(alloc)?;
            let number = numbers.def_text(alloc)?;
            let pos = name.pos;
            let probe = Some(ProbeMark { pos, number });
            Ok(Some(Named { pos, text, probe }))
        }
    }
}
