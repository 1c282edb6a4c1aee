//! Traces of one program, added up as they are fetched.

ghost use Rattle.std.specs.Prelude.{◌≡◌, ◌≤◌, [], map, string_bytes};
ghost use Rattle.atac_facts.specs.Sums.{most};
ghost use Rattle.atac_traces.specs.Totals.{NumbersFit};
ghost use Rattle.atac_traces.specs.Joins.{Joins};

use crate::fetching::fetch_trace;
use atac_base::outside::Shelf;
use atac_steps::Stop;
use std::alloc::Global;
use trace_file::{Rows, Trace, add_trace};

/// The trace of a program without runs.
pub fn no_runs(alloc: Global, digest: [u8; 32]) -> Trace
    ensures { result ≡ record { digest = digest; runs = 0; old_runs = 0; tally = [] } }
{
    Trace {
        digest,
        runs: 0,
        old_runs: 0,
        tally: Rows::new(alloc),
    }
}

// A number fits, by its type.
fn fits(number: u32)
    ensures { number ≤ most }
{}

// So do all of a trace.
fn numbers_fit(trace: &Trace)
    ensures { NumbersFit trace.now }
{
    fits(trace.runs);
    fits(trace.old_runs);
    trace.tally.are_small();
}

/// Fetches the traces one after the other and adds each to the sum, which says of which program they have to be. Beside
/// the sum no two of them stand in memory together.
pub fn join<'a, S: Shelf>(
    alloc: Global,
    shelf: &mut S,
    names: &'a [String],
    sum: &mut Trace,
) -> Result<(), Stop<'a>>
    ensures { Joins (S.state shelf.old) (S.state shelf.new) sum.old (map string_bytes names.now) sum.new result }
{
    numbers_fit(sum);
    for name in names {
        let trace = fetch_trace(alloc, shelf, name.as_str(), &sum.digest)?;
        add_trace(alloc, sum, trace)?;
    }
    Ok(())
}
