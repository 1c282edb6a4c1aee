//! Calls whose fetches and puts fail.

use crate::calls::{Fails, Left, NONE, call, check, cover};
use atac_steps::Status;
use std::alloc::Global;
use std::test::Fail;

const LOOP: &[u8] = b"int main(void){int x=0;while(x<2)x=x+1;return x;}";

const LOOP_SECTION: &[u8] = b"== e\n\n== returned 2 turns 27 bytes 0\n";

const NOTHING: &[u8] = b"";

// Whether it ended so, with these texts.
fn is_left(left: &Left, status: Status, out: &[u8], err: &[u8]) -> bool {
    left.status == status && left.out.bytes() == out && left.err.bytes() == err
}

// The same of `cover` and of `check`, of the loop on an empty input.
fn cover_leaves(
    alloc: Global,
    fails: Fails,
    status: Status,
    out: &[u8],
    err: &[u8],
) -> Result<bool, Fail> {
    let left = cover(alloc, LOOP, NOTHING, fails)?;
    Ok(is_left(&left, status, out, err))
}

fn check_leaves(alloc: Global, fails: Fails, status: Status, err: &[u8]) -> Result<bool, Fail> {
    let left = check(alloc, LOOP, fails)?;
    Ok(is_left(&left, status, NOTHING, err))
}

/// Each fetch and each put fails in turn, and a fault of the error sink leaves the status as it is.
#[test]
fn failing_outside(rt: HostRuntime) -> Result<(), Fail> {
    let alloc = rt.alloc();
    let unread: &[u8] = b"atac: p: read fault\n";
    let no_input: &[u8] = b"atac: e: read fault\n";
    let unwritten: &[u8] = b"atac: write fault\n";
    let (read, write) = (Status::ReadFault, Status::WriteFault);
    let fetch = |n: u64| Fails { fetch: n, ..NONE };
    let put = |n: u64| Fails { put: n, ..NONE };
    assert!(rt; cover_leaves(alloc, fetch(1), read, NOTHING, unread)?);
    assert!(rt; cover_leaves(alloc, fetch(2), read, NOTHING, no_input)?);
    assert!(rt; cover_leaves(alloc, put(1), write, NOTHING, unwritten)?);
    assert!(rt; cover_leaves(alloc, put(2), write, LOOP_SECTION, unwritten)?);
    let deaf = Fails {
        fetch: 1,
        put: 0,
        tell: 1,
    };
    assert!(rt; cover_leaves(alloc, deaf, read, NOTHING, NOTHING)?);
    assert!(rt; check_leaves(alloc, fetch(1), read, unread)?);
    assert!(rt; check_leaves(alloc, put(1), write, unwritten)?);
    Ok(())
}

const CHARACTER: &[u8] = b"int main(void){int c=getchar();if(c==97)putchar(c);return 0;}";

const CHARACTER_SECTION: &[u8] = b"== e\na\n== returned 0 turns 12 bytes 1\n";

const TWO_SECTIONS: &[u8] =
    b"== e\na\n== returned 0 turns 12 bytes 1\n== e\na\n== returned 0 turns 12 bytes 1\n";

// Whether `cover` of that program on these inputs leaves so.
fn inputs_leave(
    alloc: Global,
    words: &[&str],
    fails: Fails,
    status: Status,
    out: &[u8],
    err: &[u8],
) -> Result<bool, Fail> {
    let left = call(alloc, words, CHARACTER, b"a", fails)?;
    Ok(is_left(&left, status, out, err))
}

/// Where an input of several can't be read, or a section can't be put, the sections before it stand, and no report.
#[test]
fn failing_between_inputs(rt: HostRuntime) -> Result<(), Fail> {
    let alloc = rt.alloc();
    let twice = ["cover", "p", "e", "e"].as_slice();
    let absent = ["cover", "p", "e", "q"].as_slice();
    let section = CHARACTER_SECTION;
    let unwritten: &[u8] = b"atac: write fault\n";
    let fetch_3 = Fails { fetch: 3, ..NONE };
    let no_input: &[u8] = b"atac: e: read fault\n";
    assert!(rt; inputs_leave(alloc, twice, fetch_3, Status::ReadFault, section, no_input)?);
    let put_2 = Fails { put: 2, ..NONE };
    assert!(rt; inputs_leave(alloc, twice, put_2, Status::WriteFault, section, unwritten)?);
    let put_3 = Fails { put: 3, ..NONE };
    assert!(rt;
        inputs_leave(
            alloc,
            twice,
            put_3,
            Status::WriteFault,
            TWO_SECTIONS,
            unwritten
        )?
    );
    let not_there: &[u8] = b"atac: q: absent\n";
    assert!(rt; inputs_leave(alloc, absent, NONE, Status::Absent, section, not_there)?);
    Ok(())
}

/// A cover takes 1,000 inputs, and no more.
#[test]
fn thousand_inputs(rt: HostRuntime) -> Result<(), Fail> {
    let alloc = rt.alloc();
    let mut words = Vec::new(alloc);
    words.push("cover")?;
    words.push("p")?;
    for _ in 0..1_000 {
        words.push("e")?;
    }
    let left = call(alloc, words.as_slice(), CHARACTER, b"a", NONE)?;
    assert_eq!(rt; left.status, Status::Done);
    assert!(rt; left.out.bytes().len() > 1_000 * CHARACTER_SECTION.len());
    words.push("e")?;
    let left = call(alloc, words.as_slice(), CHARACTER, b"a", NONE)?;
    assert_eq!(rt; left.status, Status::Usage);
    Ok(())
}
