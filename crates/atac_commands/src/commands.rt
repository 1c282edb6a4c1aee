//! What each command fetches, does and puts.

ghost use Rattle.std.specs.Prelude.{◌≤◌, Some};
ghost use Rattle.atac_words.specs.Words.{Check, ListItems, Instrument, Run};
ghost use Rattle.atac_words.specs.Stops.{command_of, IsFew};
ghost use Rattle.atac_steps.specs.Stops.{ended};
ghost use Rattle.atac_commands.specs.Runs.{Goes, GoesWith, handed};

use crate::covering::cover;
use crate::picking::pick;
use crate::recording::{merge, run_into};
use crate::telling::tell;
use crate::watching::{self_cover, watch};
use atac_base::outside::{Shelf, Sink};
use atac_programs::counting::{self, Counting};
use atac_programs::listing::{self, Listing};
use atac_programs::probing::{Probing, probe};
use atac_programs::program::{Runnable, read_to_run, section_of};
use atac_steps::{Stop, fetch, keep, put};
use atac_words::Asked;
use probe_watch::Watcher;
use std::alloc::Global;

/// The most bytes of a program.
const PROGRAM_MOST: u64 = 1_048_576;

/// The most bytes of a program that may have probes.
const PROBED_MOST: u64 = 67_108_864;

/// The most bytes of an input.
const INPUT_MOST: u64 = 16_777_216;

// Checks the program and puts the line of its counts.
fn check<'a, S: Shelf, W: Sink>(
    alloc: Global,
    program: &'a str,
    shelf: &mut S,
    out: &mut W,
) -> Result<(), Stop<'a>>
    ensures { Goes (Some (Check program.now)) (S.state shelf.old) (S.state shelf.new)
        (W.state out.old) (W.state out.new) (ended result) }
{
    let source = fetch(alloc, shelf, program, PROGRAM_MOST)?;
    let line = match counting::count(alloc, source.as_slice())? {
        Counting::Refuses(said) => return Err(Stop::NotAccepted(program, said)),
        Counting::Counts(line) => line,
    };
    put(out, line.as_bytes())
}

// Puts the list of the program's items.
fn list<'a, S: Shelf, W: Sink>(
    alloc: Global,
    program: &'a str,
    shelf: &mut S,
    out: &mut W,
) -> Result<(), Stop<'a>>
    ensures { Goes (Some (ListItems program.now)) (S.state shelf.old) (S.state shelf.new)
        (W.state out.old) (W.state out.new) (ended result) }
{
    let source = fetch(alloc, shelf, program, PROGRAM_MOST)?;
    let text = match listing::list(alloc, source.as_slice())? {
        Listing::Refuses(said) => return Err(Stop::NotAccepted(program, said)),
        Listing::Lists(text) => text,
    };
    put(out, text.as_slice())
}

// Keeps the text of the program with its probes.
fn instrument<'a, S: Shelf, W: Sink>(
    alloc: Global,
    program: &'a str,
    kept: &'a str,
    shelf: &mut S,
    out: &mut W,
) -> Result<(), Stop<'a>>
    ensures { Goes (Some (Instrument program.now kept.now)) (S.state shelf.old) (S.state shelf.new)
        (W.state out.old) (W.state out.new) (ended result) }
{
    let source = fetch(alloc, shelf, program, PROGRAM_MOST)?;
    let text = match probe(alloc, source.as_slice())? {
        Probing::Refuses(said) => return Err(Stop::NotAccepted(program, said)),
        Probing::Probes(text) => text,
    };
    keep(shelf, kept, text.as_slice())
}

// Runs the program, plain or with probes, on the input and puts the section.
fn run<'a, S: Shelf, W: Sink>(
    alloc: Global,
    limit: u64,
    program: &'a str,
    input: &'a str,
    shelf: &mut S,
    out: &mut W,
) -> Result<(), Stop<'a>>
    requires { limit ≤ 100000000 }
    ensures { Goes (Some (Run limit program.now input.now)) (S.state shelf.old) (S.state shelf.new)
        (W.state out.old) (W.state out.new) (ended result) }
{
    let source = fetch(alloc, shelf, program, PROBED_MOST)?;
    let runnable = match read_to_run(alloc, source.as_slice())? {
        Runnable::Refuses(said) => return Err(Stop::NotAccepted(program, said)),
        Runnable::Runs(runnable) => runnable,
    };
    let bytes = fetch(alloc, shelf, input, INPUT_MOST)?;
    let section = section_of(alloc, &runnable, limit, input, bytes.as_slice())?;
    put(out, section.as_slice())
}

/// Does what the words ask for.
pub fn carry_out<'a, S: Shelf, W: Sink>(
    alloc: Global,
    asked: Asked<'a>,
    watchers: Vec<Box<dyn Watcher>>,
    shelf: &mut S,
    out: &mut W,
) -> Result<(), Stop<'a>>
    requires { IsFew asked }
    ensures { GoesWith (handed (λ w. called w) (λ w. stands_for w) (λ w. text_of w) watchers.items) (Some (command_of asked.entry)) (S.state shelf.old) (S.state shelf.new)
        (W.state out.old) (W.state out.new) (ended result) }
{
    match asked {
        Asked::Check(program) => check(alloc, program, shelf, out),
        Asked::List(program) => list(alloc, program, shelf, out),
        Asked::Cover(limit, program, inputs) => cover(alloc, limit, program, inputs, shelf, out),
        Asked::Run(limit, program, input) => run(alloc, limit, program, input, shelf, out),
        Asked::Instrument(program, kept) => instrument(alloc, program, kept, shelf, out),
        Asked::RunInto(limit, program, input, trace) => {
            run_into(alloc, limit, program, input, trace, shelf, out)
        }
        Asked::Merge(kept, traces) => merge(alloc, kept, traces, shelf, out),
        Asked::Tell(view, program, traces) => tell(alloc, view, program, traces, shelf, out),
        Asked::Pick(limit, program, inputs) => pick(alloc, limit, program, inputs, shelf, out),
        Asked::Watch(limit, program, input, name) => {
            watch(alloc, limit, program, input, name, watchers, shelf, out)
        }
        Asked::SelfCover(limit, seed) => self_cover(alloc, limit, seed, watchers, out),
    }
}
