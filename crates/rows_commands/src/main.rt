//! Rows of the commands: reads a call a line, its words, the input `e` and the program `p` between tabs, in which a backquote
//! stands for a line's end; prints the exit code, and what was put to the two sinks.
#![tactic(auto)]

use atac_base::memory::{MemoryShelf, MemorySink};
use atac_base::outside::Shelf;
use atac_top::top::atac;
use probe_watch::{BlockCounter, EventLister, Watcher};
use std::alloc::{AllocError, Global};
use std::io;

// The bytes of a field.
fn bytes_of(alloc: Global, field: &str) -> Result<Vec<u8>, AllocError> {
    let mut bytes = Vec::new(alloc);
    for byte in field.as_bytes().iter() {
        bytes.push(if *byte == b'`' { b'\n' } else { *byte })?;
    }
    Ok(bytes)
}

// The words of a call: a space stands between two.
fn words_of(alloc: Global, field: &str) -> Result<Vec<String>, AllocError> {
    let mut words = Vec::new(alloc);
    for word in field.split(' ') {
        words.push(String::from_str(alloc, word)?)?;
    }
    Ok(words)
}

// What was put, with a backquote for a line's end, and the number of a byte that has no sign of its own behind `\`.
fn shown(alloc: Global, bytes: &[u8]) -> Result<String, AllocError> {
    let mut text = String::new(alloc);
    for byte in bytes.iter() {
        match *byte {
            b'\n' => text.push('`')?,
            b' '..=b'~' => text.push(char::from(*byte))?,
            _ => {
                text.push('\\')?;
                text.push_str(byte.to_string(alloc)?.as_str())?;
            }
        }
    }
    Ok(text)
}

// What a row prints.
fn answer(alloc: Global, row: &str) -> Result<String, AllocError> {
    let (words, rest) = row.split_once('\t').unwrap_or((row, ""));
    let (input, program) = rest.split_once('\t').unwrap_or((rest, ""));
    let words = words_of(alloc, words)?;
    let mut shelf = MemoryShelf::new(alloc, Vec::new(alloc), Vec::new(alloc));
    let _ = shelf.keep("p", bytes_of(alloc, program)?.as_slice());
    let _ = shelf.keep("e", bytes_of(alloc, input)?.as_slice());
    let mut out = MemorySink::new(alloc, Vec::new(alloc));
    let mut err = MemorySink::new(alloc, Vec::new(alloc));
    let mut watchers: Vec<Box<dyn Watcher>> = Vec::new(alloc);
    watchers.push(Box::new(alloc, EventLister::new(alloc))?)?;
    watchers.push(Box::new(alloc, BlockCounter::new(alloc))?)?;
    let status = atac(alloc, &words, &mut shelf, &mut out, &mut err, watchers);
    let put = shown(alloc, out.bytes())?;
    let said = shown(alloc, err.bytes())?;
    format!(in alloc; "{}\t{}\t{}", status.code(), put, said)
}

fn main(rt: HostRuntime) -> io::Result<()> {
    for line in rt.lines(rt.alloc()) {
        let text = answer(rt.alloc(), line?.as_str())?;
        println!(rt; "{text}")?;
    }
    Ok(())
}
