//! Calls of the commands over shelves and sinks in memory.

use atac_base::memory::{MemoryShelf, MemorySink};
use atac_base::outside::Shelf;
use atac_steps::Status;
use atac_top::top::atac;
use probe_watch::Watcher;
use std::alloc::{AllocError, Global};

/// The whole call, of which nothing is known here: what a test asserts of it is seen, and not proved. So no test carries what
/// the call promises.
pub fn status_of<S: Shelf>(
    alloc: Global,
    words: &Vec<String>,
    shelf: &mut S,
    out: &mut MemorySink,
    err: &mut MemorySink,
    watchers: Vec<Box<dyn Watcher>>,
) -> Status {
    atac(alloc, words, shelf, out, err, watchers)
}

/// What a call left.
#[derive(Drop)]
pub struct Left {
    pub status: Status,
    pub out: MemorySink,
    pub err: MemorySink,
}

/// Which fetches and puts of a call fail, counted from 1.
#[derive(Clone, Copy)]
pub struct Fails {
    pub fetch: u64,
    pub put: u64,
    pub tell: u64,
}

/// No call fails.
pub const NONE: Fails = Fails {
    fetch: 0,
    put: 0,
    tell: 0,
};

fn only(alloc: Global, n: u64) -> Result<Vec<u64>, AllocError> {
    let mut which = Vec::new(alloc);
    which.push(n)?;
    Ok(which)
}

/// A call with these words, over a shelf that holds a program under `p` and an input under `e`.
pub fn call(
    alloc: Global,
    words: &[&str],
    program: &[u8],
    input: &[u8],
    fails: Fails,
) -> Result<Left, AllocError> {
    let mut given = Vec::new(alloc);
    for word in words.iter() {
        given.push(String::from_str(alloc, word)?)?;
    }
    let mut shelf = MemoryShelf::new(alloc, only(alloc, fails.fetch)?, Vec::new(alloc));
    let _ = shelf.keep("p", program);
    let _ = shelf.keep("e", input);
    let mut out = MemorySink::new(alloc, only(alloc, fails.put)?);
    let mut err = MemorySink::new(alloc, only(alloc, fails.tell)?);
    let status = status_of(
        alloc,
        &given,
        &mut shelf,
        &mut out,
        &mut err,
        Vec::new(alloc),
    );
    Ok(Left { status, out, err })
}

/// `cover p e` with that program and input.
pub fn cover(
    alloc: Global,
    program: &[u8],
    input: &[u8],
    fails: Fails,
) -> Result<Left, AllocError> {
    call(alloc, ["cover", "p", "e"].as_slice(), program, input, fails)
}

/// `check p` with that program.
pub fn check(alloc: Global, program: &[u8], fails: Fails) -> Result<Left, AllocError> {
    call(alloc, ["check", "p"].as_slice(), program, b"", fails)
}
