//! Fetches, puts and keeps that stop a command where they fail.

ghost use Rattle.atac_steps.specs.Steps.{Fetches, Puts, KeepsAs};

use crate::stop::Stop;
use atac_base::outside::{FetchErr, Fetched, KeepErr, PutErr, Shelf, Sink};
use std::alloc::Global;

/// Fetches the bytes under a name. It stops where the name isn't held or holds more than `most` bytes.
pub fn fetch<'a, S: Shelf>(
    alloc: Global,
    shelf: &mut S,
    name: &'a str,
    most: u64,
) -> Result<Vec<u8>, Stop<'a>>
    ensures { Fetches (S.state shelf.old) (S.state shelf.new) name.now most result }
{
    let mut bytes = Vec::new(alloc);
    match shelf.fetch(name, most, &mut bytes) {
        Ok(Fetched::Whole) => Ok(bytes),
        Ok(Fetched::Absent) => Err(Stop::NotHeld(name)),
        Ok(Fetched::Long) => Err(Stop::TooLong(name)),
        Err(FetchErr::Failed) => Err(Stop::ReadFailed(name)),
        Err(FetchErr::NoMemory) => Err(Stop::NoMemory),
    }
}

/// Puts a piece to the sink. Where it stops, a front of the piece was put.
pub fn put<'a, W: Sink>(out: &mut W, piece: &[u8]) -> Result<(), Stop<'a>>
    ensures { Puts (W.state out.old) (W.state out.new) piece.now result }
{
    match out.put(piece) {
        Ok(()) => Ok(()),
        Err(PutErr::Failed) => Err(Stop::WriteFailed),
        Err(PutErr::NoMemory) => Err(Stop::NoMemory),
    }
}

/// Keeps the bytes under a name. Where it stops, nothing is said of what the shelf holds under that name.
pub fn keep<'a, S: Shelf>(shelf: &mut S, name: &'a str, bytes: &[u8]) -> Result<(), Stop<'a>>
    ensures { KeepsAs (S.state shelf.old) (S.state shelf.new) name.now bytes.now result }
{
    match shelf.keep(name, bytes) {
        Ok(()) => Ok(()),
        Err(KeepErr::Failed) => Err(Stop::KeepFailed(name)),
        Err(KeepErr::NoMemory) => Err(Stop::NoMemory),
    }
}
