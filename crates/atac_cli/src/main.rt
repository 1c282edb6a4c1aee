//! The program: real files, the standard streams, and the exit code.
#![tactic(auto)]

mod keeping;
mod shelf;
mod streams;
mod words;

use atac_top::top::atac;
use probe_watch::{BlockCounter, EventLister, Watcher};
use shelf::FolderShelf;
use std::process::ExitCode;
use streams::StreamSink;
use words::{NoWords, given_words};

fn main(rt: HostRuntime) -> ExitCode {
    let words = match given_words(&rt) {
        Ok(words) => words,
        Err(NoWords::NoMemory) => return ExitCode::from(10),
        Err(NoWords::Failed) => return ExitCode::from(12),
    };
    let alloc = rt.alloc();
    let (Ok(lister), Ok(counter)) = (
        Box::new(alloc, EventLister::new(alloc)),
        Box::new(alloc, BlockCounter::new(alloc)),
    ) else {
        return ExitCode::from(10);
    };
    let mut watchers: Vec<Box<dyn Watcher>> = Vec::new(alloc);
    if watchers.push(lister).is_err() || watchers.push(counter).is_err() {
        return ExitCode::from(10);
    }
    let mut out = StreamSink::new(rt.stdout());
    let mut err = StreamSink::new(rt.stderr());
    let mut shelf = FolderShelf::new(rt);
    ExitCode::from(atac(alloc, &words, &mut shelf, &mut out, &mut err, watchers).code())
}
