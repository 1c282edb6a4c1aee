//! What is told of traces: the report, the source with what is uncovered, the numbers of runs, and the report as JSON.

ghost use Rattle.serde_json.specs.Written.{compact_text};
ghost use Rattle.atac_facts.specs.Sets.{holds};
ghost use Rattle.json_out.specs.Json.{json_of};
ghost use Rattle.std.specs.Prelude.{◌≡◌, ◌++◌, ◌∷◌, [], ℕ, List, map, string_bytes, Some, IfOk};
ghost use Rattle.trace_file.specs.declared.trace.Trace.{Trace};
ghost use Rattle.atac_words.specs.Words.{Tell};
ghost use Rattle.atac_steps.specs.Stops.{ended};
ghost use Rattle.atac_traces.specs.Totals.{IsSum};
ghost use Rattle.atac_commands.specs.Readings.{view_text};
ghost use Rattle.atac_commands.specs.Runs.{Goes};

use atac_base::facts::Facts;
use atac_base::items::Items;
use atac_base::outside::{Shelf, Sink};
use atac_programs::listing::{Itemising, itemise};
use atac_programs::probing::digest_of;
use atac_steps::{Stop, fetch, put};
use atac_traces::{join, no_runs};
use atac_words::View;
use c_base::place::NoMemory;
use cover_hits::hits;
use cover_report::report;
use cover_show::show;
use json_out::json_text;
use std::alloc::Global;
use trace_file::Trace;

/// The most bytes of a program.
const PROGRAM_MOST: u64 = 1_048_576;

// A line of JSON.
fn json_line(alloc: Global, items: &Items, facts: &Facts) -> Result<Vec<u8>, NoMemory>
    ensures { IfOk result (λ text. text.items ≡ compact_text (json_of items.now (holds facts.now)) ++ 10 ∷ []) }
{
    let mut text = json_text(alloc, items, facts)?;
    text.push(b'\n')?;
    Ok(text)
}

// What is told of the sum of traces of a program with this text and these items.
fn view_of(
    alloc: Global,
    view: View,
    text: &[u8],
    items: &Items,
    sum: Trace,
) -> Result<Vec<u8>, NoMemory>
    ensures { IfOk result (λ told. (digest : List ℕ) (ts : List Trace) → IsSum digest ts sum → told.items ≡ view_text view text.now items.now ts) }
{
    match view {
        View::Report => {
            let facts = sum.tally.facts(alloc)?;
            report(alloc, items, &facts)
        }
        View::Show => {
            let facts = sum.tally.facts(alloc)?;
            show(alloc, text, items, &facts)
        }
        View::Hits => {
            let exact = sum.old_runs == 0;
            let tally = sum.tally.tally(alloc)?;
            hits(alloc, items, &tally, exact)
        }
        View::Json => {
            let facts = sum.tally.facts(alloc)?;
            json_line(alloc, items, &facts)
        }
    }
}

/// Adds up the traces, which have to be of the program, and puts what is told of them.
pub fn tell<'a, S: Shelf, W: Sink>(
    alloc: Global,
    view: View,
    program: &'a str,
    traces: &'a [String],
    shelf: &mut S,
    out: &mut W,
) -> Result<(), Stop<'a>>
    ensures { Goes (Some (Tell view program.now (map string_bytes traces.now))) (S.state shelf.old) (S.state shelf.new)
        (W.state out.old) (W.state out.new) (ended result) }
{
    let source = fetch(alloc, shelf, program, PROGRAM_MOST)?;
    let items = match itemise(alloc, source.as_slice())? {
        Itemising::Refuses(said) => return Err(Stop::NotAccepted(program, said)),
        Itemising::Has(_, _, items) => items,
    };
    let mut sum = no_runs(alloc, digest_of(source.as_slice()));
    join(alloc, shelf, traces, &mut sum)?;
    let told = view_of(alloc, view, source.as_slice(), &items, sum)?;
    put(out, told.as_slice())
}
