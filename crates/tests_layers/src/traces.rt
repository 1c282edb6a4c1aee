//! Trace files by hand: cut at each length, with each byte's lowest bit turned, and one of version 1 written as version 2.

use atac_facts::fact::Fact;
use sha2::{Digest, Sha256};
use std::alloc::Global;
use std::test::*;
use trace_file::{DecodeRefusal, EncodeRefusal, Trace, decode, encode};

// A trace of version 1 with two runs, which met block 1: 92 bytes.
fn old_trace() -> [u8; 92] {
    let mut bytes = [0u8; 92];
    bytes[0] = 65;
    bytes[1] = 84;
    bytes[2] = 65;
    bytes[3] = 67;
    bytes[5] = 1;
    bytes[6] = 200;
    bytes[37] = 9;
    bytes[41] = 2;
    bytes[45] = 1;
    bytes[47] = 1;
    let digest = Sha256::digest(&bytes[..60]);
    bytes[60..].copy_from_slice(&digest);
    bytes
}

fn copied(alloc: Global, bytes: &[u8]) -> Option<Vec<u8>> {
    let mut copy = Vec::new(alloc);
    copy.extend_from_slice(bytes).ok()?;
    Some(copy)
}

fn number(alloc: Global, bytes: &[u8]) -> u32 {
    let Some(copy) = copied(alloc, bytes) else {
        return 10;
    };
    match decode(alloc, copy) {
        Ok(_) => 0,
        Err(DecodeRefusal::NotATrace) => 60,
        Err(DecodeRefusal::Version) => 61,
        Err(DecodeRefusal::Length) => 62,
        Err(DecodeRefusal::Order) => 63,
        Err(DecodeRefusal::Damaged) => 64,
        Err(DecodeRefusal::NoMemory) => 10,
    }
}

#[test]
fn cut_short(rt: HostRuntime) {
    let bytes = old_trace();
    assert_eq!(rt; number(rt.alloc(), &bytes), 0);
    for n in 0..92usize {
        let wanted = if n < 4 { 60 } else { 62 };
        assert_eq!(rt; number(rt.alloc(), &bytes[..n]), wanted);
    }
}

#[test]
fn one_bit_changed(rt: HostRuntime) {
    for n in 0..92usize {
        let mut bytes = old_trace();
        bytes[n] ^= 1;
        let wanted = match n {
            0..=3 => 60,
            4 | 5 => 61,
            42..=45 | 48..=59 => 62,
            47 => 63,
            _ => 64,
        };
        assert_eq!(rt; number(rt.alloc(), &bytes), wanted);
    }
}

// The trace of version 1, read.
fn old(alloc: Global) -> Option<Trace> {
    decode(alloc, copied(alloc, &old_trace())?).ok()
}

// Its bytes in version 2, of which there are 100 and no fewer.
fn renewed(alloc: Global, trace: &Trace) -> Option<Vec<u8>> {
    match encode(alloc, trace, 99) {
        Err(EncodeRefusal::TooMuch) => encode(alloc, trace, 100).ok(),
        _ => None,
    }
}

fn read(alloc: Global, bytes: Vec<u8>) -> Option<Trace> {
    decode(alloc, bytes).ok()
}

// Whether it is of two runs, both old, and block 1 is among its facts.
fn is_of_two_runs(alloc: Global, trace: &Trace) -> bool {
    match trace.tally.facts(alloc) {
        Ok(facts) => trace.runs == 2 && trace.old_runs == 2 && facts.has(Fact::Block(1)),
        Err(_) => false,
    }
}

// Whether it counts block 1 once, and nothing else.
fn counts_block_1(alloc: Global, trace: Trace) -> bool {
    match trace.tally.tally(alloc) {
        Ok(tally) => tally.rows().len() == 1 && tally.count(Fact::Block(1)) == 1,
        Err(_) => false,
    }
}

#[test]
fn old_becomes_new(rt: HostRuntime) -> Result<(), Fail> {
    let alloc = rt.alloc();
    let trace = old(alloc).ok_or("read")?;
    assert!(rt; is_of_two_runs(alloc, &trace));
    let bytes = renewed(alloc, &trace).ok_or("written")?;
    assert_eq!(rt; bytes.len(), 100);
    let again = read(alloc, bytes).ok_or("read again")?;
    assert!(rt; is_of_two_runs(alloc, &again));
    assert!(rt; counts_block_1(alloc, again));
    Ok(())
}
