//! A trace written as bytes.

ghost use Rattle.std.specs.Prelude.{◌≡◌, ◌≤◌, ◌<◌, ◌+◌, ◌^◌, ◌++◌, length, true, nat_le, OnOk, IfOk, IsErrOf};
ghost use Rattle.std.specs.List.{sum_by};
ghost use Rattle.byteorder.specs.Endian.{big_bytes};
ghost use Rattle.trace_file.specs.Layout.{kind_of, size, record_of, rows_in, list_of, lists_of, opening_of, bytes_of, Spells};
ghost use Rattle.trace_file.specs.declared.refusal.EncodeRefusal.TheVariants.{TooMuch};

use crate::kind::Kind;
use crate::reading::tally_in;
use crate::refusal::EncodeRefusal;
use crate::rows::Seen;
use crate::trace::Trace;
use atac_facts::fact::Fact;
use atac_facts::tally::Counted;
use byteorder::{BigEndian, ByteOrder};
use sha2::{Digest, Sha256};
use std::alloc::{AllocError, Global};

fn put_u16(out: &mut Vec<u8>, n: u16) -> Result<(), AllocError>
    ensures { OnOk result (out.new.items ≡ out.old.items ++ big_bytes 2 n) }
{
    let mut bytes = [0; 2];
    BigEndian::write_u16(&mut bytes, n);
    out.extend_from_slice(&bytes)
}

fn put_u32(out: &mut Vec<u8>, n: u32) -> Result<(), AllocError>
    ensures { OnOk result (out.new.items ≡ out.old.items ++ big_bytes 4 n) }
{
    let mut bytes = [0; 4];
    BigEndian::write_u32(&mut bytes, n);
    out.extend_from_slice(&bytes)
}

fn put_row(out: &mut Vec<u8>, row: &Counted) -> Result<(), AllocError>
    ensures { OnOk result (out.new.items ≡ out.old.items ++ record_of true row.now) }
{
    match row.fact {
        Fact::Block(k) => put_u16(out, k)?,
        Fact::Outcome(k, o) => {
            put_u16(out, k)?;
            put_u32(out, o)?;
        }
        Fact::Pair(d, u) => {
            put_u16(out, d)?;
            put_u16(out, u)?;
        }
        Fact::PUse(d, u, o) => {
            put_u16(out, d)?;
            put_u16(out, u)?;
            put_u32(out, o)?;
        }
    }
    put_u32(out, row.count)
}

/// Whether the records take at most so many bytes.
fn may_take(rows: &[Counted], most: u64) -> bool
    requires { most ≤ 67108864 }
    ensures { result ≡ nat_le (sum_by (λ row. size true (kind_of row.fact)) rows.now) most }
{
    let mut len = 0;
    for row in rows {
        len += Kind::of(row.fact).size(true) as u64;
        if most < len {
            return false;
        }
    }
    true
}

fn count_in(kind: Kind, rows: &[Counted]) -> u32
    requires { length rows.now < 2 ^ 32 }
    ensures { result ≡ length (rows_in kind rows.now) }
{
    let mut count = 0;
    for row in rows {
        if Kind::of(row.fact) == kind {
            count += 1;
        }
    }
    count
}

fn put_list(out: &mut Vec<u8>, kind: Kind, rows: &[Counted]) -> Result<(), AllocError>
    requires { length rows.now < 2 ^ 32 }
    ensures { OnOk result (out.new.items ≡ out.old.items ++ list_of true kind rows.now) }
{
    put_u32(out, count_in(kind, rows))?;
    for row in rows {
        if Kind::of(row.fact) == kind {
            put_row(out, row)?;
        }
    }
    Ok(())
}

fn digest_of(trace: &Trace) -> &[u8]
    ensures value { result.now ≡ trace.now.digest }
    ensures len { length result.now ≡ 32 }
{
    &trace.digest
}

fn put_opening(out: &mut Vec<u8>, trace: &Trace) -> Result<(), AllocError>
    ensures { OnOk result (out.new.items ≡ out.old.items ++ opening_of true trace.now) }
{
    out.extend_from_slice(b"ATAC")?;
    put_u16(out, 2)?;
    out.extend_from_slice(digest_of(trace))?;
    put_u32(out, trace.runs)?;
    put_u32(out, trace.old_runs)
}

fn put_lists(out: &mut Vec<u8>, rows: &[Counted]) -> Result<(), AllocError>
    requires { length rows.now < 2 ^ 32 }
    ensures { OnOk result (out.new.items ≡ out.old.items ++ lists_of true rows.now) }
{
    put_list(out, Kind::Blocks, rows)?;
    put_list(out, Kind::Outcomes, rows)?;
    put_list(out, Kind::Pairs, rows)?;
    put_list(out, Kind::PUses, rows)
}

fn put_all(alloc: Global, trace: &Trace, rows: &[Counted]) -> Result<Vec<u8>, AllocError>
    requires same { rows.now ≡ trace.now.tally }
    requires few { length rows.now < 2 ^ 32 }
    ensures { IfOk result (λ v. v.items ≡ bytes_of trace.now) }
{
    let mut out = Vec::new(alloc);
    put_opening(&mut out, trace)?;
    put_lists(&mut out, rows)?;
    let digest = Sha256::digest(out.as_slice());
    out.extend_from_slice(&digest)?;
    Ok(out)
}

// The same, of these rows.
fn encode_rows(
    alloc: Global,
    trace: &Trace,
    rows: &[Counted],
    most: u64,
) -> Result<Vec<u8>, EncodeRefusal>
    requires same { rows.now ≡ trace.now.tally }
    requires most { most ≤ 67108864 }
    ensures bytes { IfOk result (λ v. v.items ≡ bytes_of trace.now) }
    ensures spells { IfOk result (λ v. Spells v.items trace.now) }
    ensures few { IfOk result (λ v. length (bytes_of trace.now) ≤ most) }
    ensures much { IsErrOf result TooMuch → most < length (bytes_of trace.now) }
{
    prove!(digest_of(trace).len() == 32);
    if most < 94 {
        return Err(EncodeRefusal::TooMuch);
    }
    if !may_take(rows, most - 94) {
        return Err(EncodeRefusal::TooMuch);
    }
    let bytes = put_all(alloc, trace, rows)?;
    Ok(bytes)
}

/// The one spelling of the trace in version 2, where it has at most so many bytes. Where the trace is sound, it is decoded as the
/// trace.
pub fn encode(alloc: Global, trace: &Trace, most: u64) -> Result<Vec<u8>, EncodeRefusal>
    requires most { most ≤ 67108864 }
    ensures bytes { IfOk result (λ v. v.items ≡ bytes_of trace.now) }
    ensures spells { IfOk result (λ v. Spells v.items trace.now) }
    ensures few { IfOk result (λ v. length (bytes_of trace.now) ≤ most) }
    ensures much { IsErrOf result TooMuch → most < length (bytes_of trace.now) }
{
    match trace.tally.seen() {
        Seen::Made(rows) => encode_rows(alloc, trace, rows, most),
        Seen::Read(bytes) => {
            let tally = tally_in(alloc, bytes)?;
            encode_rows(alloc, trace, tally.rows(), most)
        }
    }
}
