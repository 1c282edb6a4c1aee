//! One trace, from the name of its file on.

ghost use Rattle.std.specs.Prelude.{◌≡◌};
ghost use Rattle.atac_traces.specs.Files.{ReadsAs, OfProgram, FetchesBy, AnyGives, TraceGives, OldGives};

use atac_base::outside::Shelf;
use atac_steps::{Stop, TraceFault, fetch};
use std::alloc::Global;
use trace_file::{DecodeRefusal, Trace, decode};

/// The most bytes of a trace.
const TRACE_MOST: u64 = 67_108_864;

// The trace in the bytes of a file of this name.
fn read_in<'a>(alloc: Global, name: &'a str, bytes: Vec<u8>) -> Result<Trace, Stop<'a>>
    ensures { ReadsAs bytes.items name.now result }
{
    match decode(alloc, bytes) {
        Ok(trace) => Ok(trace),
        Err(DecodeRefusal::NotATrace) => Err(Stop::NoTrace(name, TraceFault::NotATrace)),
        Err(DecodeRefusal::Version) => Err(Stop::NoTrace(name, TraceFault::Version)),
        Err(DecodeRefusal::Length) => Err(Stop::NoTrace(name, TraceFault::Length)),
        Err(DecodeRefusal::Order) => Err(Stop::NoTrace(name, TraceFault::Order)),
        Err(DecodeRefusal::Damaged) => Err(Stop::NoTrace(name, TraceFault::Damaged)),
        Err(DecodeRefusal::NoMemory) => Err(Stop::NoMemory),
    }
}

/// Fetches a trace of any program. It stops where no trace is held under the name.
pub fn fetch_any<'a, S: Shelf>(
    alloc: Global,
    shelf: &mut S,
    name: &'a str,
) -> Result<Trace, Stop<'a>>
    ensures { FetchesBy (S.state shelf.old) (S.state shelf.new) name.now (λ found. AnyGives (S.state shelf.old) (S.state shelf.new) name.now found result) }
{
    let bytes = fetch(alloc, shelf, name, TRACE_MOST)?;
    read_in(alloc, name, bytes)
}

// The trace, where it is of the program with this digest.
fn of_program<'a>(trace: Trace, digest: &[u8; 32], name: &'a str) -> Result<Trace, Stop<'a>>
    ensures { OfProgram trace digest.now name.now result }
{
    if trace.digest.as_slice() == digest.as_slice() {
        return Ok(trace);
    }
    Err(Stop::NoTrace(name, TraceFault::OtherProgram))
}

/// Fetches a trace of the program with this digest. It stops where no such trace is held under the name.
pub fn fetch_trace<'a, S: Shelf>(
    alloc: Global,
    shelf: &mut S,
    name: &'a str,
    digest: &[u8; 32],
) -> Result<Trace, Stop<'a>>
    ensures { FetchesBy (S.state shelf.old) (S.state shelf.new) name.now (λ found. TraceGives (S.state shelf.old) (S.state shelf.new) digest.now name.now found result) }
{
    let trace = fetch_any(alloc, shelf, name)?;
    of_program(trace, digest, name)
}

/// The same, where nothing may be held under the name.
pub fn fetch_old<'a, S: Shelf>(
    alloc: Global,
    shelf: &mut S,
    name: &'a str,
    digest: &[u8; 32],
) -> Result<Option<Trace>, Stop<'a>>
    ensures { FetchesBy (S.state shelf.old) (S.state shelf.new) name.now (λ found. OldGives (S.state shelf.old) (S.state shelf.new) digest.now name.now found result) }
{
    match fetch_trace(alloc, shelf, name, digest) {
        Ok(trace) => Ok(Some(trace)),
        Err(Stop::NotHeld(_)) => Ok(None),
        Err(stop) => Err(stop),
    }
}
