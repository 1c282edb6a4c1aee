//! Traces of runs, from the program with its probes to what is told of them, over a shelf in memory.

use crate::calls::{Left, status_of};
use atac_base::memory::{MemoryShelf, MemorySink};
use atac_base::outside::Shelf;
use atac_steps::Status;
use std::alloc::{AllocError, Global};
use std::test::Fail;

const PROGRAM: &[u8] = b"int main(void){int c=getchar();if(c==97)putchar(c);return 0;}";

const OTHER: &[u8] = b"int main(void){return 1;}";

// A shelf with the program `p`, the inputs `a` and `b`, and another program `o`, whose keep of this number fails; 0 is none.
fn shelf_of(alloc: Global, fails: u64) -> Result<MemoryShelf, AllocError> {
    let mut keeps = Vec::new(alloc);
    keeps.push(fails)?;
    let mut shelf = MemoryShelf::new(alloc, Vec::new(alloc), keeps);
    let _ = shelf.keep("p", PROGRAM);
    let _ = shelf.keep("a", b"a");
    let _ = shelf.keep("b", b"b");
    let _ = shelf.keep("o", OTHER);
    Ok(shelf)
}

// A call with the words between spaces.
fn call(alloc: Global, shelf: &mut MemoryShelf, line: &str) -> Result<Left, AllocError> {
    let mut words = Vec::new(alloc);
    for word in line.split(' ') {
        words.push(String::from_str(alloc, word)?)?;
    }
    let mut out = MemorySink::new(alloc, Vec::new(alloc));
    let mut err = MemorySink::new(alloc, Vec::new(alloc));
    let status = status_of(alloc, &words, shelf, &mut out, &mut err, Vec::new(alloc));
    Ok(Left { status, out, err })
}

/// Two runs into a trace, their sum with itself, and the counts of runs.
#[test]
fn counts_of_runs(rt: HostRuntime) -> Result<(), Fail> {
    let alloc = rt.alloc();
    let mut shelf = shelf_of(alloc, 0)?;
    let left = call(alloc, &mut shelf, "instrument p q")?;
    assert_eq!(rt; left.status, Status::Done);
    assert!(rt; left.out.bytes().is_empty());
    let left = call(alloc, &mut shelf, "run q a t")?;
    assert_eq!(rt; left.status, Status::Done);
    assert!(rt; left.out.bytes() == b"== a\na\n== returned 0 turns 12 bytes 1\n".as_slice());
    let left = call(alloc, &mut shelf, "run q b t")?;
    assert_eq!(rt; left.status, Status::Done);
    let left = call(alloc, &mut shelf, "merge m t t")?;
    assert!(rt; left.out.bytes() == b"runs 4\n".as_slice());
    let left = call(alloc, &mut shelf, "hits p m")?;
    assert!(rt; left.out.bytes() == HITS);
    let left = call(alloc, &mut shelf, "report p t")?;
    let covered = call(alloc, &mut shelf, "cover p a b")?;
    assert!(rt; covered.out.bytes().ends_with(left.out.bytes()));
    Ok(())
}

const HITS: &[u8] = b"block 1 1:15 in 4 runs
block 2 1:41 in 2 runs
block 3 1:52 in 4 runs
decision 1 1:35 true in 2 runs
decision 1 1:35 false in 2 runs
c-use c d1 1:20 u2 1:49 in 2 runs
p-use c d1 1:20 u1 1:35 true in 2 runs
p-use c d1 1:20 u1 1:35 false in 2 runs
blocks 3 of 3
decisions 2 of 2
c-uses 1 of 1
p-uses 2 of 2
all-uses 3 of 3
";

/// A trace of another program, what is no trace, and a text without probes are refused, and the old trace stands.
#[test]
fn refused_traces(rt: HostRuntime) -> Result<(), Fail> {
    let alloc = rt.alloc();
    let mut shelf = shelf_of(alloc, 0)?;
    let _ = call(alloc, &mut shelf, "instrument p q")?;
    let _ = call(alloc, &mut shelf, "run q a t")?;
    let left = call(alloc, &mut shelf, "report o t")?;
    assert_eq!(rt; left.status, Status::BadTrace);
    assert!(rt; left.out.bytes().is_empty());
    assert!(rt; left.err.bytes() == b"atac: t: 65 OtherProgram\n".as_slice());
    let left = call(alloc, &mut shelf, "merge t t a")?;
    assert_eq!(rt; left.status, Status::BadTrace);
    assert!(rt; left.err.bytes() == b"atac: a: 60 NotATrace\n".as_slice());
    let left = call(alloc, &mut shelf, "run p a t")?;
    assert_eq!(rt; left.status, Status::Refused);
    assert!(rt; left.err.bytes() == b"atac: p:1:1: 53 NotProbed\n".as_slice());
    let left = call(alloc, &mut shelf, "merge m t")?;
    assert!(rt; left.out.bytes() == b"runs 1\n".as_slice());
    Ok(())
}

/// Where the keep fails, the section was put, and the old trace stands.
#[test]
fn failing_keep(rt: HostRuntime) -> Result<(), Fail> {
    let alloc = rt.alloc();
    let mut shelf = shelf_of(alloc, 7)?;
    let _ = call(alloc, &mut shelf, "instrument p q")?;
    let _ = call(alloc, &mut shelf, "run q a t")?;
    let left = call(alloc, &mut shelf, "run q b t")?;
    assert_eq!(rt; left.status, Status::KeepFault);
    assert!(rt; left.out.bytes() == b"== b\n\n== returned 0 turns 9 bytes 0\n".as_slice());
    assert!(rt; left.err.bytes() == b"atac: t: keep fault\n".as_slice());
    let left = call(alloc, &mut shelf, "merge m t")?;
    assert!(rt; left.out.bytes() == b"runs 1\n".as_slice());
    Ok(())
}
