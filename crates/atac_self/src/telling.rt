//! What is said of a program that was drawn, and of its runs.

ghost use Rattle.std.specs.Prelude.{◌≡◌, ◌++◌, IfOk, OnOk, string_bytes};
ghost use Rattle.hex.specs.Hex.{encode_lower};
ghost use Rattle.sha2.specs.Sha256.{sha256};
ghost use Rattle.atac_self.specs.Summary.{first_line, last_line, summary_text};

use c_base::place::NoMemory;
use sha2::{Digest, Sha256};
use std::alloc::{AllocError, Global};

// The line of how many bytes the program has.
fn put_first(text: &mut Vec<u8>, alloc: Global, bytes: u64) -> Result<(), AllocError>
    ensures { OnOk result (text.new.items ≡ text.old.items ++ first_line bytes) }
{
    text.extend_from_slice(b"program ")?;
    text.extend_from_slice(bytes.to_string(alloc)?.as_bytes())?;
    text.extend_from_slice(b" bytes\n")
}

// A digest as hexadecimal digits.
fn spelled(alloc: Global, bytes: &[u8]) -> Result<String, AllocError>
    ensures { IfOk result (λ text. string_bytes text ≡ encode_lower (sha256 bytes.now)) }
{
    let digest = Sha256::digest(bytes);
    hex::encode(alloc, digest.as_slice())
}

// The line of the digest of what was counted.
fn put_last(text: &mut Vec<u8>, alloc: Global, counted: &[u8]) -> Result<(), AllocError>
    ensures { OnOk result (text.new.items ≡ text.old.items ++ last_line counted.now) }
{
    text.extend_from_slice(b"counter ")?;
    text.extend_from_slice(spelled(alloc, counted)?.as_bytes())?;
    text.extend_from_slice(b"\n")
}

fn put_summary(
    text: &mut Vec<u8>,
    alloc: Global,
    bytes: u64,
    ends: &[u8],
    totals: &[u8],
    counted: &[u8],
) -> Result<(), AllocError>
    ensures { OnOk result (text.new.items ≡ text.old.items ++ summary_text bytes ends.now totals.now counted.now) }
{
    put_first(text, alloc, bytes)?;
    text.extend_from_slice(ends)?;
    text.extend_from_slice(totals)?;
    put_last(text, alloc, counted)
}

/// The summary: how many bytes the program has; the lines of how its runs ended; the lines of how many items they cover; and
/// the SHA-256 digest of the text of what was counted.
pub fn summary(
    alloc: Global,
    bytes: u64,
    ends: &[u8],
    totals: &[u8],
    counted: &[u8],
) -> Result<Vec<u8>, NoMemory>
    ensures { IfOk result (λ text. text.items ≡ summary_text bytes ends.now totals.now counted.now) }
{
    let mut text = Vec::new(alloc);
    put_summary(&mut text, alloc, bytes, ends, totals, counted)?;
    Ok(text)
}
