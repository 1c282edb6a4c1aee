//! The marks of definitions.

ghost use Rattle.std.specs.Prelude.{◌≡◌, ◌<◌, ◌≤◌, ◌+◌, ◌++◌, ◌∷◌, [], length, IfOk, OnOk, Contains};
ghost use Rattle.pair_list.specs.Marks.{AddsNames, AddsMarks, AreMarks};

use crate::marks::Mark;
use crate::strength::is_strong;
use c_base::numbers::NumberList;
use c_base::place::NoMemory;
use c_sites::numbered::Sites;
use std::alloc::Global;

fn push_mark(marks: &mut Vec<Mark>, mark: Mark) -> Result<(), NoMemory>
    ensures { OnOk result (marks.new.items ≡ marks.old.items ++ mark ∷ []) }
{
    marks.push(mark)?;
    Ok(())
}

// A mark for each of these names.
#[tactic(auto, using(crate::proofs::Making::names_start))]
fn mark_names(
    marks: &mut Vec<Mark>,
    sites: &Sites,
    def: u16,
    variable: u32,
    names: &NumberList,
) -> Result<(), NoMemory>
    ensures { OnOk result (AddsNames sites.now def variable names.now marks.old.items marks.new.items (length names.now)) }
{
    for i in 0..names.len() {
        let name = names.get(i);
        let strong = is_strong(sites, name);
        push_mark(
            marks,
            Mark {
                def,
                variable,
                name,
                strong,
            },
        )?;
    }
    Ok(())
}

// The marks of a definition, if it stands in the function.
fn mark_def(marks: &mut Vec<Mark>, sites: &Sites, function: u32, d: u16) -> Result<(), NoMemory>
    requires { (1 ≤ d) × (d ≤ length sites.now.lists.defs.items) }
    ensures { OnOk result (AddsMarks sites.now function d marks.old.items marks.new.items) }
{
    let def = sites.def(d);
    if def.function != function {
        return Ok(());
    }
    match def.variable {
        None => Ok(()),
        Some(variable) => {
            mark_names(marks, sites, d, variable, &def.names)?;
            Ok(())
        }
    }
}

/// The marks of that many definitions from the first on, those of the function.
pub fn marks_of(
    alloc: Global,
    sites: &Sites,
    function: u32,
    first: u16,
    count: u16,
) -> Result<Vec<Mark>, NoMemory>
    requires first { 1 ≤ first }
    requires last { first + count ≤ length sites.now.lists.defs.items + 1 }
    requires few { length sites.now.lists.defs.items ≤ 16383 }
    ensures { IfOk result (λ marks. AreMarks sites.now function first count marks.items) }
{
    let mut marks = Vec::new(alloc);
    for i in 0..count {
        mark_def(&mut marks, sites, function, first + i)?;
    }
    Ok(marks)
}
