//! A run of a program, from its first object to its end.

ghost use Rattle.std.specs.Prelude.{◌≡◌, ◌≤◌, ◌++◌, List, [], IfOk, OnOk, OnErr};
ghost use Rattle.c_events.specs.declared.events.Event.{Event};
ghost use Rattle.c_tables.specs.Tables.{tables_shape};
ghost use Rattle.c_meaning.specs.Lasting.{IsFront};
ghost use Rattle.c_meaning.specs.Runs.{run, all_made, main_called, silent};
ghost use Rattle.c_meaning.specs.Sources.{source_of};
ghost use Rattle.c_world.specs.World.{state_of, answered, Same};
ghost use Rattle.c_world.specs.Names.{scope_counts};
ghost use Rattle.c_eval.specs.Advance.{Grown};
ghost use Rattle.c_machine.specs.Todo.{left_in, knot_of, Tied};
ghost use Rattle.c_machine.specs.Run.{ended_as, outcome_of, end_as};

use crate::first::main_number;
use crate::machine::{Begun, Machine};
use crate::parts::Step;
use atac_base::probes::Probes;
use c_arith::convert;
use c_base::place::{IntKind, NoMemory};
use c_eval::advance::stopped_end;
use c_meaning::end::{End, RunEnd, Stop};
use c_plan::plan::Plan;
use c_store::value::{Fault, Value};
use c_syntax::text::Text;
use c_tree::program::Program;
use c_world::world::World;
use std::alloc::Global;

/// How a run has ended: `main` returned, with a value or without; or it was stopped.
#[derive(Clone, Copy, Drop)]
pub enum Ended {
    Returned(Option<Value>),
    Stopped(Stop),
}

/// A run of a program over an input, with at most so many turns (C89, 2.1.2.2.1). The probes are told of each instance before
/// its first event and behind its end, and in their order of the events that it logs; after an `Err` they were told a front of
/// these.
pub fn run<P: Probes>(
    alloc: Global,
    program: &Program,
    input: &[u8],
    limit: u64,
    probes: &mut P,
) -> Result<RunEnd, NoMemory>
    requires { limit ≤ 1000000000 }
    ensures run { IfOk result (λ r. (l : List Event) × ((h : List Event) → P.stands_for probes.old h → P.stands_for probes.new (h ++ l)) × (run (source_of program.now) input.now limit ≡ outcome_of r l)) }
    ensures front { OnErr result ((l : List Event) × ((h : List Event) → P.stands_for probes.old h → P.stands_for probes.new (h ++ l)) × IsFront l (run (source_of program.now) input.now limit).log) }
    ensures goes_by { P.owners probes.new ≡ P.owners probes.old }
{
    let plan = Plan::of(alloc, program)?;
    let mut world = World::new(alloc, program, input, limit)?;
    let ended = run_main(alloc, &plan, &mut world, probes)?;
    let end = end_of(alloc, &world, ended)?;
    let output = text_of(alloc, world.output())?;
    Ok(RunEnd {
        output,
        turns: world.turns(),
        end,
    })
}

// The bytes as a text; there is no memory for 4,294,967,296 of them or more.
fn text_of(alloc: Global, bytes: &[u8]) -> Result<Text, NoMemory>
    ensures { IfOk result (λ t. t ≡ bytes.now) }
{
    if bytes.len() > u32::MAX as usize {
        return Err(NoMemory);
    }
    Text::from_bytes(alloc, bytes)
}

// The end of a run.
fn end_of(alloc: Global, world: &World<'_>, ended: Ended) -> Result<End, NoMemory>
    ensures { IfOk result (λ e. (h : List Event) → e ≡ end_as (tables_shape world.now.program.now.tables) ended (state_of world.now h)) }
{
    match ended {
        Ended::Returned(Some(Value::Int(status))) => {
            Ok(End::Returned(convert(status, IntKind::Int) as i32))
        }
        Ended::Returned(_) => Ok(End::Returned(0)),
        Ended::Stopped(why) => {
            let end = stopped_end(alloc, world, why)?;
            Ok(end)
        }
    }
}

// The objects of file scope are made, and `main` is called.
fn run_main<'p, P: Probes>(
    alloc: Global,
    plan: &'p Plan<'p>,
    world: &mut World<'p>,
    probes: &mut P,
) -> Result<Ended, NoMemory>
    requires program { world.old.program.now ≡ plan.now.program.now }
    requires none { scope_counts world.old.names.calls ≡ [] }
    ensures done { IfOk result (λ e. (l : List Event) → (l' : List Event) × ((h : List Event) → P.stands_for probes.old (h ++ l) → P.stands_for probes.new (h ++ l')) × (main_called (source_of plan.now.program.now) silent (knot_of plan.now.program.now) (state_of world.old l) ≡ ended_as e (state_of world.new l'))) }
    ensures front { OnErr result ((l : List Event) → (l' : List Event) × ((h : List Event) → P.stands_for probes.old (h ++ l) → P.stands_for probes.new (h ++ l')) × Grown l' (main_called (source_of plan.now.program.now) silent (knot_of plan.now.program.now) (state_of world.old l))) }
    ensures told { OnOk result (world.new.pending.items ≡ []) }
    ensures same { OnOk result (Same world.old world.new) }
    ensures goes_by { P.owners probes.new ≡ P.owners probes.old }
{
    if let Some(why) = make_all(world, probes)? {
        return Ok(Ended::Stopped(why));
    }
    let Some(function) = main_number(world.tables()) else {
        return Ok(Ended::Stopped(Stop::Fault(Fault::NoResult)));
    };
    let ended = call(alloc, plan, world, function, probes)?;
    Ok(ended)
}

// The string literals and the objects of file scope (C89, 3.5.7).
fn make_all<P: Probes>(world: &mut World<'_>, probes: &mut P) -> Result<Option<Stop>, NoMemory>
    ensures done { IfOk result (λ r. (l : List Event) → (l' : List Event) × ((h : List Event) → P.stands_for probes.old (h ++ l) → P.stands_for probes.new (h ++ l')) × (all_made (source_of world.old.program.now) silent (state_of world.old l) ≡ answered r (state_of world.new l'))) }
    ensures front { OnErr result ((l : List Event) → (l' : List Event) × ((h : List Event) → P.stands_for probes.old (h ++ l) → P.stands_for probes.new (h ++ l')) × Grown l' (all_made (source_of world.old.program.now) silent (state_of world.old l))) }
    ensures told { OnOk result (world.new.pending.items ≡ []) }
    ensures same { OnOk result (Same world.old world.new) }
    ensures calls { OnOk result (world.new.names.calls ≡ world.old.names.calls) }
    ensures goes_by { P.owners probes.new ≡ P.owners probes.old }
{
    let made = world.begin()?;
    tell(world, probes)?;
    Ok(made)
}

// A call of the function of that number, up to its return.
fn call<'p, P: Probes>(
    alloc: Global,
    plan: &'p Plan<'p>,
    world: &mut World<'p>,
    function: u32,
    probes: &mut P,
) -> Result<Ended, NoMemory>
    requires program { world.old.program.now ≡ plan.now.program.now }
    requires none { scope_counts world.old.names.calls ≡ [] }
    ensures done { IfOk result (λ e. (l : List Event) → (l' : List Event) × ((h : List Event) → P.stands_for probes.old (h ++ l) → P.stands_for probes.new (h ++ l')) × ((knot_of plan.now.program.now).call function [] (state_of world.old l) ≡ ended_as e (state_of world.new l'))) }
    ensures front { OnErr result ((l : List Event) → (l' : List Event) × ((h : List Event) → P.stands_for probes.old (h ++ l) → P.stands_for probes.new (h ++ l')) × Grown l' ((knot_of plan.now.program.now).call function [] (state_of world.old l))) }
    ensures told { OnOk result (world.new.pending.items ≡ []) }
    ensures same { OnOk result (Same world.old world.new) }
    ensures goes_by { P.owners probes.new ≡ P.owners probes.old }
{
    let begun = Machine::begin_run(alloc, plan, world, function)?;
    tell(world, probes)?;
    match begun {
        Begun::Stopped(why) => Ok(Ended::Stopped(why)),
        Begun::Running(machine) => {
            let mut machine = machine;
            let ended = follow(&mut machine, plan, world, probes)?;
            Ok(ended)
        }
    }
}

// Steps to the end, and tells the events of each step.
fn follow<'p, P: Probes>(
    machine: &mut Machine<'p>,
    plan: &'p Plan<'p>,
    world: &mut World<'p>,
    probes: &mut P,
) -> Result<Ended, NoMemory>
    requires program { world.old.program.now ≡ plan.now.program.now }
    requires tied { Tied machine.old world.old }
    ensures done { IfOk result (λ e. (l : List Event) → (l' : List Event) × ((h : List Event) → P.stands_for probes.old (h ++ l) → P.stands_for probes.new (h ++ l')) × (left_in (tables_shape plan.now.program.now.tables) (knot_of plan.now.program.now) machine.old (state_of world.old l) ≡ ended_as e (state_of world.new l'))) }
    ensures front { OnErr result ((l : List Event) → (l' : List Event) × ((h : List Event) → P.stands_for probes.old (h ++ l) → P.stands_for probes.new (h ++ l')) × Grown l' (left_in (tables_shape plan.now.program.now.tables) (knot_of plan.now.program.now) machine.old (state_of world.old l))) }
    ensures told { OnOk result (world.new.pending.items ≡ []) }
    ensures same { OnOk result (Same world.old world.new) }
    ensures goes_by { P.owners probes.new ≡ P.owners probes.old }
{
    loop {
        let step = machine.step(plan, world)?;
        tell(world, probes)?;
        match step {
            Step::More => {}
            Step::Ended => return Ok(machine.ended),
        }
    }
}

// Tells what is pending.
#[inline(always)]
fn tell<P: Probes>(world: &mut World<'_>, probes: &mut P) -> Result<(), NoMemory>
    ensures told { OnOk result ((l : List Event) → (l' : List Event) × ((h : List Event) → P.stands_for probes.old (h ++ l) → P.stands_for probes.new (h ++ l')) × (state_of world.new l' ≡ state_of world.old l)) }
    ensures front { OnErr result ((l : List Event) → (l' : List Event) × ((h : List Event) → P.stands_for probes.old (h ++ l) → P.stands_for probes.new (h ++ l')) × IsFront l' (state_of world.old l).log) }
    ensures empty { OnOk result (world.new.pending.items ≡ []) }
    ensures same { OnOk result (Same world.old world.new) }
    ensures names { OnOk result (world.new.names ≡ world.old.names) }
    ensures turns { OnOk result (world.new.turns ≡ world.old.turns) }
    ensures goes_by { P.owners probes.new ≡ P.owners probes.old }
{
    world.tell(probes)?;
    Ok(())
}
