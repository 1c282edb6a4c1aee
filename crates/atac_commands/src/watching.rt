//! Runs that a watcher is told of: of a program, and of one that is made from a number.

ghost use Rattle.std.specs.Prelude.{◌≡◌, ◌≤◌, ◌++◌, ◌∷◌, [], ℕ, List, Some, IfOk, length, map};
ghost use Rattle.c_meaning.specs.declared.end.RunEnd.{RunEnd};
ghost use Rattle.probe_watch.specs.Logs.{bytes_in};
ghost use Rattle.atac_programs.specs.Sections.{section_of};
ghost use Rattle.atac_programs.specs.Understanding.{Holds};
ghost use Rattle.atac_base.specs.Outside.{ShelfState};
ghost use Rattle.c_meaning.specs.Calls.{Source};
ghost use Rattle.c_meaning.specs.Sources.{source_of};
ghost use Rattle.probe_rules.specs.Simulation.{Simulates};
ghost use Rattle.atac_words.specs.Words.{Watch, SelfCover};
ghost use Rattle.atac_steps.specs.Stops.{ended};
ghost use Rattle.atac_commands.specs.Readings.{counter_name};
ghost use Rattle.atac_commands.specs.Runs.{handed, GoesWith};
ghost use Rattle.atac_commands.specs.Watching.{FeedEnds, IsFed, IsWatchText, IsSumText};

use crate::covering::Covering;
use atac_base::outside::{Shelf, Sink};
use atac_programs::program::{Reading, Understood, Watchable, read_to_watch, understand};
use atac_programs::sections::{end_lines, section_of_run};
use atac_self::{generated, summary};
use atac_steps::{Stop, fetch, put};
use c_base::place::NoMemory;
use c_meaning::end::RunEnd;
use c_tree::program::Program;
use probe_watch::{FeedRefusal, Watcher, feed};
use std::alloc::Global;

/// The most bytes of a program.
const PROGRAM_MOST: u64 = 1_048_576;

/// The most bytes of an input.
const INPUT_MOST: u64 = 16_777_216;

/// The name that a program goes by that is made from a number.
const MADE: &str = "generated";

/// The name of the watcher that is told of its runs.
const COUNTER: &str = "blocks";

// A list of one input.
fn one(alloc: Global, input: Vec<u8>) -> Result<Vec<Vec<u8>>, NoMemory>
    ensures { IfOk result (λ inputs. inputs.items ≡ input ∷ []) }
{
    let mut inputs = Vec::new(alloc);
    inputs.push(input)?;
    Ok(inputs)
}

/// How the runs ended that a watcher was told of, and what it says.
#[derive(Drop)]
pub struct Fed {
    ends: Vec<RunEnd>,
    said: Vec<u8>,
}

// Runs the program on each input, tells the first watcher of that name, and asks it.
fn ask<'a>(
    alloc: Global,
    limit: u64,
    program: &Program,
    inputs: &[Vec<u8>],
    name: &'a str,
    watchers: Vec<Box<dyn Watcher>>,
) -> Result<Fed, Stop<'a>>
    requires { limit ≤ 100000000 }
    ensures fed { IfOk result (IsFed (handed (λ w. called w) (λ w. stands_for w) (λ w. text_of w) watchers.items) (source_of program.now) limit (map bytes_in inputs.now) name.now) }
    ensures stops { FeedEnds (handed (λ w. called w) (λ w. stands_for w) (λ w. text_of w) watchers.items) name.now result }
{
    let mut said = Vec::new(alloc);
    match feed(alloc, watchers, name, program, inputs, limit, &mut said) {
        Ok(ends) => Ok(Fed { ends, said }),
        Err(FeedRefusal::NoWatcher) => Err(Stop::NotWatched(name)),
        Err(FeedRefusal::NoMemory) => Err(Stop::NoMemory),
    }
}

// The section of the one run, and what was said, behind it.
fn told_text(alloc: Global, input: &str, fed: &Fed) -> Result<Vec<u8>, NoMemory>
    requires { length fed.now.ends.items ≡ 1 }
    ensures { IfOk result (λ text. (end : RunEnd) → fed.now.ends.items ≡ end ∷ [] → text.items ≡ section_of input.now end.output end.turns end.end ++ fed.now.said.items) }
{
    let mut text = section_of_run(alloc, input, &fed.ends[0])?;
    text.extend_from_slice(fed.said.as_slice())?;
    Ok(text)
}

// The section of the run on the input, and what the watcher of that name says of it.
fn watched<'a>(
    alloc: Global,
    limit: u64,
    program: &Program,
    input: &str,
    bytes: Vec<u8>,
    name: &'a str,
    watchers: Vec<Box<dyn Watcher>>,
) -> Result<Vec<u8>, Stop<'a>>
    requires { limit ≤ 100000000 }
    ensures text { IfOk result (λ text. (P : Source) → Simulates (source_of program.now) P → IsWatchText (handed (λ w. called w) (λ w. stands_for w) (λ w. text_of w) watchers.items) P limit input.now bytes.items name.now text.items) }
    ensures stops { FeedEnds (handed (λ w. called w) (λ w. stands_for w) (λ w. text_of w) watchers.items) name.now result }
{
    let inputs = one(alloc, bytes)?;
    let fed = ask(alloc, limit, program, inputs.as_slice(), name, watchers)?;
    let text = told_text(alloc, input, &fed)?;
    Ok(text)
}

/// Runs the program on the input, and puts the section and what the watcher of that name says of the run.
pub fn watch<'a, S: Shelf, W: Sink>(
    alloc: Global,
    limit: u64,
    program: &'a str,
    input: &'a str,
    name: &'a str,
    watchers: Vec<Box<dyn Watcher>>,
    shelf: &mut S,
    out: &mut W,
) -> Result<(), Stop<'a>>
    requires { limit ≤ 2000000 }
    ensures { GoesWith (handed (λ w. called w) (λ w. stands_for w) (λ w. text_of w) watchers.items) (Some (Watch limit program.now input.now name.now)) (S.state shelf.old) (S.state shelf.new)
        (W.state out.old) (W.state out.new) (ended result) }
{
    let source = fetch(alloc, shelf, program, PROGRAM_MOST)?;
    let probed = match read_to_watch(alloc, source.as_slice())? {
        Watchable::Refuses(said) => return Err(Stop::NotAccepted(program, said)),
        Watchable::Watches(probed) => probed,
    };
    let bytes = fetch(alloc, shelf, input, INPUT_MOST)?;
    let text = watched(alloc, limit, &probed, input, bytes, name, watchers)?;
    put(out, text.as_slice())
}

// Covers the program on the inputs, tells the watcher of blocks of these runs, and sums that up.
fn summed<'a>(
    alloc: Global,
    limit: u64,
    length: u64,
    understood: Understood,
    inputs: &[Vec<u8>],
    watchers: Vec<Box<dyn Watcher>>,
) -> Result<Vec<u8>, Stop<'a>>
    requires { limit ≤ 100000000 }
    ensures text { IfOk result (λ text. (P : Source) → Holds P understood → IsSumText (handed (λ w. called w) (λ w. stands_for w) (λ w. text_of w) watchers.items) P understood.items limit length (map bytes_in inputs.now) text.items) }
    ensures stops { FeedEnds (handed (λ w. called w) (λ w. stands_for w) (λ w. text_of w) watchers.items) counter_name result }
{
    let mut covering = Covering::new(alloc, understood);
    covering.run_on_all(limit, inputs)?;
    let totals = covering.totals()?;
    let fed = ask(alloc, limit, covering.probed(), inputs, COUNTER, watchers)?;
    let ends = end_lines(alloc, fed.ends.as_slice())?;
    let text = summary(
        alloc,
        length,
        ends.as_slice(),
        totals.as_slice(),
        fed.said.as_slice(),
    )?;
    Ok(text)
}

/// Makes a program and three inputs from the number, covers them, tells the watcher of blocks of these runs, and puts the summary.
pub fn self_cover<'a, W: Sink>(
    alloc: Global,
    limit: u64,
    seed: u64,
    watchers: Vec<Box<dyn Watcher>>,
    out: &mut W,
) -> Result<(), Stop<'a>>
    requires { limit ≤ 100000000 }
    ensures { (shelf : ShelfState) → GoesWith (handed (λ w. called w) (λ w. stands_for w) (λ w. text_of w) watchers.items) (Some (SelfCover limit seed)) shelf shelf
        (W.state out.old) (W.state out.new) (ended result) }
{
    let made = generated(alloc, seed)?;
    let source = made.program.as_slice();
    let length = source.len() as u64;
    if length > PROGRAM_MOST {
        return Err(Stop::NoMemory);
    }
    let understood = match understand(alloc, source)? {
        Reading::Refuses(said) => return Err(Stop::NotAccepted(MADE, said)),
        Reading::Covers(understood) => understood,
    };
    let text = summed(
        alloc,
        limit,
        length,
        understood,
        made.inputs.as_slice(),
        watchers,
    )?;
    put(out, text.as_slice())
}
