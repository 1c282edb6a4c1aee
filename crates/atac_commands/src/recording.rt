//! Traces: a run that is added to one, and several that are merged.

ghost use Rattle.std.specs.Prelude.{◌≡◌, ◌≤◌, ◌<◌, length, map, string_bytes, Some, IfOk};
ghost use Rattle.c_meaning.specs.Sources.{source_of};
ghost use Rattle.atac_words.specs.Words.{RunInto, Merge};
ghost use Rattle.atac_steps.specs.Stops.{ended};
ghost use Rattle.atac_programs.specs.Programs.{section, met_by};
ghost use Rattle.atac_commands.specs.Readings.{runs_text, IsRunMore, begun};
ghost use Rattle.atac_commands.specs.Runs.{Goes};
ghost use Rattle.atac_programs.specs.Understanding.{HasOwners};

use atac_base::outside::{Shelf, Sink};
use atac_programs::recordable::{Recordable, Recording, read_to_record};
use atac_programs::sections::section_of_run;
use atac_steps::{Stop, fetch, keep, put};
use atac_traces::{fetch_any, fetch_old, join, no_runs, spelled};
use c_base::place::NoMemory;
use c_machine::run;
use cover_core::collector::Collector;
use std::alloc::Global;
use trace_file::{Trace, add_run};

/// The most bytes of a program that may have probes.
const PROBED_MOST: u64 = 67_108_864;

/// The most bytes of an input.
const INPUT_MOST: u64 = 16_777_216;

// Runs the program on the input, adds the run to the trace, and makes its section.
fn record(
    alloc: Global,
    recordable: Recordable,
    limit: u64,
    name: &str,
    input: &[u8],
    trace: &mut Trace,
) -> Result<Vec<u8>, NoMemory>
    requires { limit ≤ 100000000 }
    ensures section { IfOk result (λ text. text.items ≡ section name.now (source_of recordable.program) input.now limit) }
    ensures more { IfOk result (λ text. HasOwners recordable → IsRunMore trace.old trace.new (met_by (source_of recordable.program) limit input.now)) }
{
    let mut collector = Collector::new(alloc, recordable.owners);
    let ended = run(alloc, &recordable.program, input, limit, &mut collector)?;
    let section = section_of_run(alloc, name, &ended)?;
    add_run(alloc, trace, collector.facts())?;
    Ok(section)
}

// The trace that a run is added to: the old one, or one of no run.
fn begun(alloc: Global, old: Option<Trace>, digest: [u8; 32]) -> Trace
    ensures { result ≡ begun old digest }
{
    match old {
        Some(old) => old,
        None => no_runs(alloc, digest),
    }
}

/// Runs the program on the input, adds the run to the trace, puts the section, and keeps the trace.
pub fn run_into<'a, S: Shelf, W: Sink>(
    alloc: Global,
    limit: u64,
    program: &'a str,
    input: &'a str,
    trace: &'a str,
    shelf: &mut S,
    out: &mut W,
) -> Result<(), Stop<'a>>
    requires { limit ≤ 100000000 }
    ensures { Goes (Some (RunInto limit program.now input.now trace.now)) (S.state shelf.old) (S.state shelf.new)
        (W.state out.old) (W.state out.new) (ended result) }
{
    let source = fetch(alloc, shelf, program, PROBED_MOST)?;
    let recordable = match read_to_record(alloc, source.as_slice())? {
        Recording::Refuses(said) => return Err(Stop::NotAccepted(program, said)),
        Recording::Records(recordable) => recordable,
    };
    let bytes = fetch(alloc, shelf, input, INPUT_MOST)?;
    let old = fetch_old(alloc, shelf, trace, &recordable.digest)?;
    let mut sum = begun(alloc, old, recordable.digest);
    let section = record(alloc, recordable, limit, input, bytes.as_slice(), &mut sum)?;
    let spelling = spelled(alloc, trace, &sum)?;
    put(out, section.as_slice())?;
    keep(shelf, trace, spelling.as_slice())
}

// The line of how many runs there are.
fn runs_line(alloc: Global, sum: &Trace) -> Result<String, NoMemory>
    ensures { IfOk result (λ s. string_bytes s ≡ runs_text sum.now) }
{
    match format!(in alloc; "runs {}\n", sum.runs) {
        Ok(line) => Ok(line),
        Err(_) => Err(NoMemory),
    }
}

/// Adds up the traces, which have to be of one program, puts how many runs there are, and keeps the sum.
pub fn merge<'a, S: Shelf, W: Sink>(
    alloc: Global,
    kept: &'a str,
    traces: &'a [String],
    shelf: &mut S,
    out: &mut W,
) -> Result<(), Stop<'a>>
    requires { 0 < length traces.now }
    ensures { Goes (Some (Merge kept.now (map string_bytes traces.now))) (S.state shelf.old) (S.state shelf.new)
        (W.state out.old) (W.state out.new) (ended result) }
{
    let Some((first, rest)) = traces.split_first() else {
        unreachable!();
    };
    let mut sum = fetch_any(alloc, shelf, first.as_str())?;
    join(alloc, shelf, rest, &mut sum)?;
    let line = runs_line(alloc, &sum)?;
    let spelling = spelled(alloc, kept, &sum)?;
    put(out, line.as_bytes())?;
    keep(shelf, kept, spelling.as_slice())
}
