//! A trace as bytes that may be kept.

ghost use Rattle.atac_traces.specs.Keeping.{SpelledAs};

use atac_steps::{Stop, TraceFault};
use std::alloc::Global;
use trace_file::{EncodeRefusal, Trace, encode};

/// The most bytes of a trace.
const TRACE_MOST: u64 = 67_108_864;

/// The bytes of a trace that is to be kept under a name. It stops where they are more than a trace may have.
pub fn spelled<'a>(alloc: Global, name: &'a str, trace: &Trace) -> Result<Vec<u8>, Stop<'a>>
    ensures { SpelledAs name.now trace.now result }
{
    match encode(alloc, trace, TRACE_MOST) {
        Ok(bytes) => Ok(bytes),
        Err(EncodeRefusal::TooMuch) => Err(Stop::NoTrace(name, TraceFault::TooMuch)),
        Err(EncodeRefusal::NoMemory) => Err(Stop::NoMemory),
    }
}
