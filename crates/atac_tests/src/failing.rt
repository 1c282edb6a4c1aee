//! Each fetch, put, keep and line that fails in turn, in each command that has it.

ghost use Rattle.std.specs.Prelude.{◌≡◌};

use crate::calls::status_of;
use atac_base::memory::{MemoryShelf, MemorySink};
use atac_base::outside::{FetchErr, Fetched, KeepErr, Shelf};
use atac_steps::Status;
use probe_watch::{BlockCounter, EventLister, Watcher};
use sha2::{Digest, Sha256};
use std::alloc::{AllocError, Global};
use std::test::Fail;

const RETURN: &[u8] = b"int main(void){return 0;}";

// The text of RETURN with its probes, by hand; behind the word stands the SHA-256 of RETURN.
const PROBED: &[u8] =
    b"__atac_program ( \"fb8b40ec02a97167bb21beb678bf459694a83050a770271e50879784c4992785\" ) ;\nint main ( void ) __atac_block ( 1 ) : {\nreturn 0 ;\n}\n";

const SECTION: &[u8] = b"== e\n\n== returned 0 turns 3 bytes 0\n";

// What each command puts of these, by hand.
const CHECKED: &[u8] = b"accepted: 1 blocks, 0 decisions, 0 definitions, 0 uses\n";

const LISTED: &[u8] = b"block 1 1:15\nblocks 1\ndecisions 0\nc-uses 0\np-uses 0\nall-uses 0\n";

const REPORT: &[u8] =
    b"block 1 1:15 covered\nblocks 1 of 1\ndecisions 0 of 0\nc-uses 0 of 0\np-uses 0 of 0\nall-uses 0 of 0\n";

const COVERED: &[u8] =
    b"== e\n\n== returned 0 turns 3 bytes 0\n== e\n\n== returned 0 turns 3 bytes 0\nblock 1 1:15 covered\nblocks 1 of 1\ndecisions 0 of 0\nc-uses 0 of 0\np-uses 0 of 0\nall-uses 0 of 0\n";

const SHOWN: &[u8] =
    b"     1   int main(void){return 0;}\nblocks 1 of 1\ndecisions 0 of 0\nc-uses 0 of 0\np-uses 0 of 0\nall-uses 0 of 0\n";

const HITS: &[u8] =
    b"block 1 1:15 in 4 runs\nblocks 1 of 1\ndecisions 0 of 0\nc-uses 0 of 0\np-uses 0 of 0\nall-uses 0 of 0\n";

const JSON: &[u8] =
    b"{\"blocks\":[{\"col\":15,\"covered\":true,\"line\":1,\"number\":1}],\"c-uses\":[],\"decisions\":[],\"p-uses\":[]}\n";

const PICKED: &[u8] =
    b"keep e\ndrop e\nkept 1 of 2\nblocks 1 of 1\ndecisions 0 of 0\nc-uses 0 of 0\np-uses 0 of 0\nall-uses 0 of 0\n";

const EVENTS: &[u8] = b"== e\n\n== returned 0 turns 3 bytes 0\nblock 1\n";

const BLOCKS: &[u8] = b"== e\n\n== returned 0 turns 3 bytes 0\nblock 1 1\n";

// The runs and old runs of a trace, its blocks, each with its number of runs, and no outcome, pair or p-use.
const TWO_RUNS: &[u8] =
    b"\x00\x00\x00\x02\x00\x00\x00\x00\x00\x00\x00\x01\x00\x01\x00\x00\x00\x02\x00\x00\x00\x00\x00\x00\x00\x00\x00\x00\x00\x00";

// A trace of two runs of RETURN, which met block 1: 100 bytes.
fn trace(alloc: Global) -> Result<Vec<u8>, AllocError> {
    let mut bytes = Vec::from_slice(alloc, b"ATAC\x00\x02")?;
    bytes.extend_from_slice(Sha256::digest(RETURN).as_slice())?;
    bytes.extend_from_slice(TWO_RUNS)?;
    let digest = Sha256::digest(&bytes);
    bytes.extend_from_slice(digest.as_slice())?;
    Ok(bytes)
}

/// Which call of a kind fails, counted from 1; 0 is none.
#[derive(Clone, Copy)]
struct Faults {
    fetch: u64,
    keep: u64,
    put: u64,
    tell: u64,
}

const NONE: Faults = Faults {
    fetch: 0,
    keep: 0,
    put: 0,
    tell: 0,
};

/// How many files the shelf is given before a call.
const HELD: u64 = 6;

/// What a call left.
#[derive(Drop)]
struct After {
    status: Status,
    shelf: MemoryShelf,
    out: MemorySink,
    err: MemorySink,
}

impl After {
    // The shelf holds these bytes under the name.
    fn holds(&mut self, alloc: Global, name: &str, bytes: &[u8]) -> bool {
        let mut found = Vec::new(alloc);
        let answer = self.shelf.fetch(name, 1_000, &mut found);
        matches!(answer, Ok(Fetched::Whole)) && found.as_slice() == bytes
    }

    fn has_not(&mut self, alloc: Global, name: &str) -> bool {
        let mut found = Vec::new(alloc);
        matches!(
            self.shelf.fetch(name, 1_000, &mut found),
            Ok(Fetched::Absent)
        )
    }

    // All files are as they were, but perhaps the one of this name.
    fn stands(&mut self, alloc: Global, but: &str) -> bool {
        let Ok(trace) = trace(alloc) else {
            return false;
        };
        self.holds(alloc, "p", RETURN)
            && self.holds(alloc, "q", PROBED)
            && self.holds(alloc, "e", b"")
            && self.holds(alloc, "u", &trace)
            && (but == "t" || self.holds(alloc, "t", &trace))
            && (but == "new" || self.has_not(alloc, "new"))
    }
}

fn only(alloc: Global, n: u64) -> Result<Vec<u64>, AllocError> {
    let mut which = Vec::new(alloc);
    which.push(n)?;
    Ok(which)
}

fn shelf(alloc: Global, faults: Faults) -> Result<MemoryShelf, AllocError> {
    let keep = if faults.keep == 0 {
        0
    } else {
        faults.keep.saturating_add(HELD)
    };
    let mut shelf = MemoryShelf::new(alloc, only(alloc, faults.fetch)?, only(alloc, keep)?);
    let _ = shelf.keep("p", RETURN);
    let _ = shelf.keep("q", PROBED);
    let _ = shelf.keep("e", b"");
    let _ = shelf.keep("t", trace(alloc)?.as_slice());
    let _ = shelf.keep("u", trace(alloc)?.as_slice());
    let _ = shelf.keep("bad", b"int main(void){return y;}");
    Ok(shelf)
}

fn words_of(alloc: Global, line: &str) -> Result<Vec<String>, AllocError> {
    let mut words = Vec::new(alloc);
    for word in line.split(' ') {
        words.push(String::from_str(alloc, word)?)?;
    }
    Ok(words)
}

fn watchers(alloc: Global) -> Result<Vec<Box<dyn Watcher>>, AllocError> {
    let mut watchers: Vec<Box<dyn Watcher>> = Vec::new(alloc);
    watchers.push(Box::new(alloc, EventLister::new(alloc))?)?;
    watchers.push(Box::new(alloc, BlockCounter::new(alloc))?)?;
    Ok(watchers)
}

// A call with these words; a space stands between two.
fn play(alloc: Global, line: &str, faults: Faults) -> Result<After, AllocError> {
    let words = words_of(alloc, line)?;
    let mut shelf = shelf(alloc, faults)?;
    let mut out = MemorySink::new(alloc, only(alloc, faults.put)?);
    let mut err = MemorySink::new(alloc, only(alloc, faults.tell)?);
    let status = status_of(
        alloc,
        &words,
        &mut shelf,
        &mut out,
        &mut err,
        watchers(alloc)?,
    );
    Ok(After {
        status,
        shelf,
        out,
        err,
    })
}

// Whether each fetch of a call fails in turn: 7, the line names its file, sections stand for `cover` alone, and no file changed.
fn fetches_fail(alloc: Global, line: &str, names: &str) -> Result<bool, AllocError> {
    let mut fetch = 0u64;
    for name in names.split(' ') {
        fetch = fetch.saturating_add(1);
        let sections = line == "cover p e e" && fetch == 3;
        let out = if sections { SECTION } else { b"".as_slice() };
        let err = format!(in alloc; "atac: {name}: read fault\n")?;
        let mut left = play(alloc, line, Faults { fetch, ..NONE })?;
        if left.status != Status::ReadFault
            || left.out.bytes() != out
            || left.err.bytes() != err.as_bytes()
            || !left.stands(alloc, "")
        {
            return Ok(false);
        }
    }
    Ok(true)
}

/// Each fetch of each command fails in turn.
#[test]
fn failing_fetches(rt: HostRuntime) -> Result<(), Fail> {
    let alloc = rt.alloc();
    // a call, and what it fetches
    let rows: [(&str, &str); 14] = [
        ("check p", "p"),
        ("list p", "p"),
        ("instrument p new", "p"),
        ("run p e", "p e"),
        ("run q e t", "q e t"),
        ("run q e new", "q e new"),
        ("cover p e e", "p e e"),
        ("merge new t u", "t u"),
        ("report p t u", "p t u"),
        ("show p t u", "p t u"),
        ("hits p t u", "p t u"),
        ("json p t u", "p t u"),
        ("pick p e e", "p e e"),
        ("watch p e blocks", "p e"),
    ];
    for (line, names) in rows {
        assert!(rt; fetches_fail(alloc, line, names)?, "at {line}");
    }
    Ok(())
}

// Whether each put of a call fails in turn, counted upwards until the call is done: 8, a front of the text, and no file changed.
fn puts_fail(alloc: Global, line: &str, text: &[u8]) -> Result<bool, AllocError> {
    for put in 1..20u64 {
        let mut left = play(alloc, line, Faults { put, ..NONE })?;
        if left.status == Status::Done {
            return Ok(put > 1 && left.out.bytes() == text && left.err.bytes().is_empty());
        }
        if left.status != Status::WriteFault
            || left.err.bytes() != b"atac: write fault\n".as_slice()
            || left.out.bytes().len() >= text.len()
            || !text.starts_with(left.out.bytes())
            || !left.stands(alloc, "")
        {
            return Ok(false);
        }
    }
    Ok(false)
}

/// Each put of each command fails in turn.
#[test]
fn failing_puts(rt: HostRuntime) -> Result<(), Fail> {
    let alloc = rt.alloc();
    let rows: [(&str, &[u8]); 13] = [
        ("check p", CHECKED),
        ("list p", LISTED),
        ("run p e", SECTION),
        ("run q e t", SECTION),
        ("cover p e e", COVERED),
        ("merge new t u", b"runs 4\n"),
        ("report p t u", REPORT),
        ("show p t", SHOWN),
        ("hits p t u", HITS),
        ("json p t", JSON),
        ("pick p e e", PICKED),
        ("watch p e events", EVENTS),
        ("watch p e blocks", BLOCKS),
    ];
    for (line, text) in rows {
        assert!(rt; puts_fail(alloc, line, text)?, "at {line}");
    }
    Ok(())
}

/// A keep fails: 9, the whole text stands in front of it, and so do all other names.
#[test]
fn failing_keeps(rt: HostRuntime) -> Result<(), Fail> {
    let alloc = rt.alloc();
    let rows: [(&str, &str, &[u8], &[u8]); 5] = [
        ("instrument p new", "new", b"", b"atac: new: keep fault\n"),
        ("run q e t", "t", SECTION, b"atac: t: keep fault\n"),
        ("run q e new", "new", SECTION, b"atac: new: keep fault\n"),
        (
            "merge new t u",
            "new",
            b"runs 4\n",
            b"atac: new: keep fault\n",
        ),
        ("merge t t u", "t", b"runs 4\n", b"atac: t: keep fault\n"),
    ];
    for (line, name, out, err) in rows {
        let mut left = play(alloc, line, Faults { keep: 1, ..NONE })?;
        assert!(rt; left.status == Status::KeepFault, "at {line}");
        assert!(rt; left.out.bytes() == out, "at {line}");
        assert!(rt; left.err.bytes() == err, "at {line}");
        assert!(rt; left.stands(alloc, name), "at {line}");
    }
    Ok(())
}

// Whether each put of a line fails in turn: the status stays, and a front of the line stands.
fn lines_fail(
    alloc: Global,
    line: &str,
    faults: Faults,
    code: u8,
    err: &[u8],
) -> Result<bool, AllocError> {
    for tell in 1..10u64 {
        let mut left = play(alloc, line, Faults { tell, ..faults })?;
        if left.status.code() != code || !left.stands(alloc, "") {
            return Ok(false);
        }
        if left.err.bytes() == err {
            return Ok(tell > 1);
        }
        if !err.starts_with(left.err.bytes()) {
            return Ok(false);
        }
    }
    Ok(false)
}

/// A fault of the sink of lines leaves each status as it is.
#[test]
fn failing_lines(rt: HostRuntime) -> Result<(), Fail> {
    let alloc = rt.alloc();
    let fetch = Faults { fetch: 2, ..NONE };
    let put = Faults { put: 1, ..NONE };
    let keep = Faults { keep: 1, ..NONE };
    let rows: [(&str, Faults, u8, &str); 11] = [
        ("frob", NONE, 2, "bad usage"),
        ("check bad", NONE, 3, "bad:1:23: 30 UnknownName"),
        ("run p e t", NONE, 3, "p:1:1: 53 NotProbed"),
        ("check no", NONE, 4, "no: absent"),
        ("cover p no", NONE, 4, "no: absent"),
        ("report p bad", NONE, 6, "bad: 60 NotATrace"),
        ("run p e", fetch, 7, "e: read fault"),
        ("check p", put, 8, "write fault"),
        ("merge new t", put, 8, "write fault"),
        ("instrument p new", keep, 9, "new: keep fault"),
        ("watch p e x", NONE, 11, "x: no watcher"),
    ];
    for (line, faults, code, said) in rows {
        let err = format!(in alloc; "atac: {said}\n")?;
        assert!(rt;
            lines_fail(alloc, line, faults, code, err.as_bytes())?,
            "at {line}"
        );
    }
    Ok(())
}

/// The summary of `self` fetches and keeps nothing; each of its puts fails in turn.
#[test]
fn failing_summary(rt: HostRuntime) -> Result<(), Fail> {
    let alloc = rt.alloc();
    let firm = play(
        alloc,
        "self -t 100 1",
        Faults {
            fetch: 1,
            keep: 1,
            ..NONE
        },
    )?;
    assert_eq!(rt; firm.status, Status::Done);
    assert!(rt; firm.out.bytes().starts_with(b"program "));
    assert!(rt; puts_fail(alloc, "self -t 100 1", firm.out.bytes())?);
    Ok(())
}

/// A shelf that wants memory at a fetch, or at each keep.
#[derive(Drop)]
struct Hungry {
    inner: MemoryShelf,
    fetches: u64,
    at: u64,
}

impl Shelf for Hungry {
    ghost state = { λ shelf. ⟦<MemoryShelf as Shelf>⟧.state shelf.inner };

    fn fetch(&mut self, name: &str, most: u64, into: &mut Vec<u8>) -> Result<Fetched, FetchErr> {
        self.fetches = self.fetches.saturating_add(1);
        if self.fetches == self.at {
            into.clear();
            return Err(FetchErr::NoMemory);
        }
        self.inner.fetch(name, most, into)
    }

    fn keep(&mut self, _name: &str, _bytes: &[u8]) -> Result<(), KeepErr> {
        Err(KeepErr::NoMemory)
    }
}

/// A keep that wants memory: 10, and the whole text stands. A fetch that does: 10, and sections stand for `cover` alone.
#[test]
fn wanting_shelves(rt: HostRuntime) -> Result<(), Fail> {
    let alloc = rt.alloc();
    let rows: [(&str, u64, &[u8]); 9] = [
        ("instrument p new", 0, b""),
        ("run q e t", 0, SECTION),
        ("merge new t u", 0, b"runs 4\n"),
        ("check p", 1, b""),
        ("run q e t", 3, b""),
        ("cover p e e", 2, b""),
        ("cover p e e", 3, SECTION),
        ("report p t u", 3, b""),
        ("pick p e e", 3, b""),
    ];
    for (line, at, out) in rows {
        let words = words_of(alloc, line)?;
        let mut shelf = Hungry {
            inner: shelf(alloc, NONE)?,
            fetches: 0,
            at,
        };
        let mut put = MemorySink::new(alloc, Vec::new(alloc));
        let mut said = MemorySink::new(alloc, Vec::new(alloc));
        let status = status_of(
            alloc,
            &words,
            &mut shelf,
            &mut put,
            &mut said,
            watchers(alloc)?,
        );
        assert!(rt; status == Status::NoMemory, "at {line}, {at}");
        assert!(rt; put.bytes() == out, "at {line}, {at}");
        assert!(rt;
            said.bytes() == b"atac: no memory\n".as_slice(),
            "at {line}, {at}"
        );
    }
    Ok(())
}
