//! The extents of all statements of a program.

ghost use Rattle.std.specs.Prelude.{◌≡◌, ◌+◌, ◌<◌, ℕ, length, Some, IfOk, OnOk};
ghost use Rattle.c_syntax.specs.View.{decl_form_shape, compound_shape};
ghost use Rattle.c_meaning.specs.Counts.{signature_variables};
ghost use Rattle.c_meaning.specs.Calls.{Routine, routine};
ghost use Rattle.c_meaning.specs.Runs.{silent};
ghost use Rattle.c_plan.specs.Routines.{routine_of, IsRouted};
ghost use Rattle.c_meaning.specs.Sources.{source_of};
ghost use Rattle.c_plan.specs.Extents.{Begins};
ghost use Rattle.c_plan.specs.Starts.{IsStart, AreStarts, IsPlanned};

use crate::block::Block;
use crate::counts::signature_variables;
use crate::extent::Extent;
use crate::listing::{put_body, sum};
use crate::routines::{Routine, Routines};
use crate::start::Start;
use c_base::place::NoMemory;
use c_tree::program::Program;
use std::alloc::Global;

/// The extents of the statements of a program, function by function, and where each function's body begins.
#[derive(Drop)]
pub struct Plan<'p> {
    program: &'p Program,
    extents: Vec<Extent>,
    starts: Vec<Start>,
    ghost planned: { IsPlanned (source_of program.now) starts.items extents.items },
}

impl<'p> Plan<'p> {
    ghost use Rattle.c_plan.specs.Parts.{IsBlock};

    /// That of a program, in one pass through it. There is no memory for 4,294,967,295 variables or more.
    pub fn of(alloc: Global, program: &'p Program) -> Result<Plan<'p>, NoMemory>
        ensures { IfOk result (λ p. p.program.now ≡ program.now) }
    {
        let routines = Routines::of(alloc, program)?;
        let mut extents = Vec::new(alloc);
        let mut starts = Vec::new(alloc);
        add_function(&mut extents, &mut starts, &routines, program, 0)?;
        for i in 0..program.tables().functions() {
            add_function(&mut extents, &mut starts, &routines, program, i + 1)?;
        }
        Ok(Plan {
            program,
            extents,
            starts,
        })
    }

    /// The body of a function of the program, which is found at once by the function's number.
    #[inline(always)]
    pub fn body(&'p self, function: u32, called: &Routine<'p>) -> Block<'p>
        requires { routine (source_of self.now.program.now) silent function ≡ Some (routine_of called.now) }
        ensures { IsBlock (compound_shape called.now.body.now) (called.now.before + signature_variables (decl_form_shape called.now.params.now)) result }
    {
        let start = self.start_of(function, called);
        let at = start.at as usize + 1;
        Block::of(called.body, &self.extents[at..], start.before)
    }

    #[inline(always)]
    fn start_of(&self, function: u32, called: &Routine<'_>) -> Start
        requires { routine (source_of self.now.program.now) silent function ≡ Some (routine_of called.now) }
        ensures start { IsStart (routine_of called.now) result self.now.extents.items }
        ensures within { result.at < length self.now.extents.items }
    {
        self.starts[function as usize]
    }
}

// Adds the function of that number, of which the body begins behind those of the functions before it.
fn add_function(
    extents: &mut Vec<Extent>,
    starts: &mut Vec<Start>,
    routines: &Routines,
    program: &Program,
    function: u32,
) -> Result<(), NoMemory>
    requires routed { IsRouted (source_of program.now) routines.now }
    requires next { length starts.old.items ≡ function }
    ensures count { OnOk result (length starts.new.items ≡ function + 1) }
    ensures starts { OnOk result (AreStarts (source_of program.now) function starts.old.items extents.old.items → AreStarts (source_of program.now) (function + 1) starts.new.items extents.new.items) }
{
    let start = match routines.find(program, function) {
        None => Start { at: 0, before: 0 },
        Some(routine) => put_function(extents, &routine)?,
    };
    match starts.push(start) {
        Ok(()) => Ok(()),
        Err(_) => Err(NoMemory),
    }
}

// Adds the extents of a function's body, and gives where it begins.
fn put_function(extents: &mut Vec<Extent>, called: &Routine<'_>) -> Result<Start, NoMemory>
    ensures start { IfOk result (λ s. IsStart (routine_of called.now) s extents.new.items) }
    ensures grown { OnOk result (Begins extents.old.items extents.new.items) }
{
    let at = extents.len();
    if at > u32::MAX as usize {
        return Err(NoMemory);
    }
    let before = sum(called.before, signature_variables(called.params))?;
    let variables = put_body(extents, called.body)?;
    let _last = sum(before, variables)?;
    Ok(Start {
        at: at as u32,
        before,
    })
}
