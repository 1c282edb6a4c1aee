//! Programs and inputs of four seeds: sizes and digests as another program made them by the same rules. And a summary by hand.

use crate::generating::generated;
use crate::telling::summary;
use sha2::{Digest, Sha256};
use std::alloc::Global;
use std::test::*;

// How many bytes the program has, and the digest of the program and its inputs, one behind the other.
fn made(alloc: Global, seed: u64) -> Result<(usize, String), Fail> {
    let made = generated(alloc, seed)?;
    let bytes = made.program.len();
    let mut all = made.program;
    for input in &made.inputs {
        all.extend_from_slice(input.as_slice())?;
    }
    let digest = Sha256::digest(all.as_slice());
    Ok((bytes, hex::encode(alloc, digest.as_slice())?))
}

#[test]
fn seed_0(rt: HostRuntime) -> Result<(), Fail> {
    let (bytes, digest) = made(rt.alloc(), 0)?;
    assert_eq!(rt; bytes, 19965);
    assert_eq!(rt;
        digest.as_str(),
        "44b646d8d05353ceceef5dc8e1de24c0c8859021116b6483ad128be6ad99b2c3"
    );
    Ok(())
}

#[test]
fn seed_1(rt: HostRuntime) -> Result<(), Fail> {
    let (bytes, digest) = made(rt.alloc(), 1)?;
    assert_eq!(rt; bytes, 20434);
    assert_eq!(rt;
        digest.as_str(),
        "b0d3bd5f37baed80de345ccfa25a070035b5659bfc813bfe62f337c934a93bd0"
    );
    Ok(())
}

#[test]
fn seed_615(rt: HostRuntime) -> Result<(), Fail> {
    let (bytes, digest) = made(rt.alloc(), 615)?;
    assert_eq!(rt; bytes, 20563);
    assert_eq!(rt;
        digest.as_str(),
        "421fe966ddf9080923b528a3bba132b10697006ce87ac5ebb9bdcf0470b73cd8"
    );
    Ok(())
}

#[test]
fn greatest_seed(rt: HostRuntime) -> Result<(), Fail> {
    let (bytes, digest) = made(rt.alloc(), 18446744073709551615)?;
    assert_eq!(rt; bytes, 19970);
    assert_eq!(rt;
        digest.as_str(),
        "f9c9c62eb831f8a5880c67db5323e3a7d532caeb02c4c847360525faa1790fa0"
    );
    Ok(())
}

#[test]
fn says_a_summary(rt: HostRuntime) -> Result<(), Fail> {
    let text = summary(
        rt.alloc(),
        19965,
        b"== turn limit\n",
        b"blocks 0 of 1\n",
        b"abc",
    )?;
    let expected =
        b"program 19965 bytes\n== turn limit\nblocks 0 of 1\ncounter ba7816bf8f01cfea414140de5dae2223b00361a396177a9cb410ff61f20015ad\n";
    assert_eq!(rt; text.as_slice(), expected.as_slice());
    Ok(())
}
