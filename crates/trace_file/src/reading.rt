//! Bytes read as a trace.

ghost use Rattle.std.specs.Prelude.{◌≡◌, ◌≢◌, ◌≤◌, ◌-◌, ◌+◌, ◌*◌, ◌↔◌, ◌++◌, ◌<◌, ◌^◌, IsTrue, length, drop, take, OnOk, IfErr, IfOk, IfSome, IfNone, MatchResult, option_map};
ghost use Rattle.std.specs.List.{AllByRecursion};
ghost use Rattle.atac_facts.specs.declared.fact.Fact.{Fact};
ghost use Rattle.atac_facts.specs.Facts.{rank};
ghost use Rattle.atac_facts.specs.Sets.{holds};
ghost use Rattle.atac_facts.specs.Tallies.{is_met};
ghost use Rattle.trace_file.specs.Layout.{size, Spells};
ghost use Rattle.trace_file.specs.Sound.{SoundRow, Orderly, IsSound, IsTyped};
ghost use Rattle.trace_file.specs.Reading.{row_at, rows_at, rows_of, file_rows, headed, IsBytes, EndsAt, part_at, parts_of, trace_at, old_runs_at, seen, all_seen, opening_size, StopsAt, StopsTrace, PartFits, PartsFit, IsKnown, counted_at, IsSigned, Refuses, Accepts};
ghost use Rattle.trace_file.specs.Sums.{Gains};
ghost use Rattle.trace_file.specs.declared.trace.Trace.{Trace};
ghost use Rattle.trace_file.specs.declared.refusal.DecodeRefusal.TheVariants.{NoMemory};

use crate::kind::Kind;
use crate::refusal::DecodeRefusal;
use crate::rows::Rows;
use crate::trace::Trace;
use atac_facts::fact::Fact;
use atac_facts::facts::Facts;
use atac_facts::tally::{Counted, Tally};
use byteorder::{BigEndian, ByteOrder};
use c_base::place;
use sha2::{Digest, Sha256};
use std::alloc::Global;

/// A list of the file: how many records it has, their bytes, and the bytes after them.
#[derive(Clone, Copy)]
struct Part<'a> {
    count: u32,
    records: &'a [u8],
    rest: &'a [u8],
}

/// The four lists.
#[derive(Clone, Copy)]
struct Parts<'a> {
    blocks: Part<'a>,
    outcomes: Part<'a>,
    pairs: Part<'a>,
    p_uses: Part<'a>,
}

/// What stands before the lists.
#[derive(Drop)]
struct Head {
    digest: [u8; 32],
    runs: u32,
    old_runs: u32,
}

fn next_part(counted: bool, kind: Kind, bytes: &[u8]) -> Option<Part<'_>>
    ensures value { option_map seen result ≡ part_at counted kind bytes.now }
    ensures fits { IfSome result (λ p. PartFits counted kind (seen p)) }
    ensures shorter { IfSome result (λ p. length p.rest.now + 4 ≤ length bytes.now) }
{
    if bytes.len() < 4 {
        return None;
    }
    let count = BigEndian::read_u32(bytes);
    let rest = &bytes[4..];
    let len = count as usize * kind.size(counted);
    if rest.len() < len {
        return None;
    }
    let (records, rest) = rest.split_at(len);
    Some(Part {
        count,
        records,
        rest,
    })
}

#[tactic(auto, unfolding(crate::specs::Lists::parts_of))]
fn four_parts(counted: bool, bytes: &[u8]) -> Option<Parts<'_>>
    ensures value { option_map all_seen result ≡ parts_of counted bytes.now }
    ensures fits { IfSome result (λ p. PartsFit counted (all_seen p)) }
    ensures long { IfSome result (λ p. opening_size counted + 32 ≤ length bytes.now) }
{
    let opening = if counted { 46 } else { 42 };
    if bytes.len() < opening {
        return None;
    }
    let blocks = next_part(counted, Kind::Blocks, &bytes[opening..])?;
    let outcomes = next_part(counted, Kind::Outcomes, blocks.rest)?;
    let pairs = next_part(counted, Kind::Pairs, outcomes.rest)?;
    let p_uses = next_part(counted, Kind::PUses, pairs.rest)?;
    if p_uses.rest.len() != 32 {
        return None;
    }
    Some(Parts {
        blocks,
        outcomes,
        pairs,
        p_uses,
    })
}

#[inline(always)]
fn row(counted: bool, kind: Kind, bytes: &[u8]) -> Counted
    requires { size counted kind ≤ length bytes.now }
    ensures { result ≡ row_at counted kind bytes.now }
{
    let (fact, len) = match kind {
        Kind::Blocks => (Fact::Block(BigEndian::read_u16(bytes)), 2),
        Kind::Outcomes => (
            Fact::Outcome(BigEndian::read_u16(bytes), BigEndian::read_u32(&bytes[2..])),
            6,
        ),
        Kind::Pairs => (
            Fact::Pair(BigEndian::read_u16(bytes), BigEndian::read_u16(&bytes[2..])),
            4,
        ),
        Kind::PUses => (
            Fact::PUse(
                BigEndian::read_u16(bytes),
                BigEndian::read_u16(&bytes[2..]),
                BigEndian::read_u32(&bytes[4..]),
            ),
            8,
        ),
    };
    let count = if counted {
        BigEndian::read_u32(&bytes[len..])
    } else {
        1
    };
    Counted { fact, count }
}

fn is_number(n: u16) -> bool
    ensures { IsTrue result ↔ ((1 ≤ n) × (n ≤ 16383)) }
{
    1 <= n && n <= 16383
}

#[inline(always)]
fn is_sound(row: Counted) -> bool
    ensures { IsTrue result ↔ SoundRow row }
{
    if row.count == 0 {
        return false;
    }
    match row.fact {
        Fact::Block(k) => is_number(k),
        Fact::Outcome(k, o) => is_number(k) && 1 <= o,
        Fact::Pair(d, u) => is_number(d) && is_number(u),
        Fact::PUse(d, u, o) => is_number(d) && is_number(u) && 1 <= o,
    }
}

// A fact's number in the order of all facts.
#[inline(always)]
fn rank_of(fact: Fact) -> u128
    ensures value { result ≡ rank fact }
    ensures small { result < 2 ^ 66 }
{
    match fact {
        Fact::Block(k) => k as u128,
        Fact::Outcome(k, o) => (1 << 64) + ((k as u64) * (1 << 32) + o as u64) as u128,
        Fact::Pair(d, u) => (2 << 64) + ((d as u64) * (1 << 16) + u as u64) as u128,
        Fact::PUse(d, u, o) => {
            (3 << 64) + ((d as u64) * (1 << 48) + (u as u64) * (1 << 32) + o as u64) as u128
        }
    }
}

// Where the records are orderly from a rank on, the least rank that may follow.
// (Each of its calls is of one kind, by which it is then made.)
#[inline(always)]
fn end_of(counted: bool, kind: Kind, part: &Part<'_>, low: u128) -> Option<u128>
    requires fits { PartFits counted kind (seen part.now) }
    requires small { low ≤ 2 ^ 66 }
    ensures some { IfSome result (λ end. EndsAt low (rows_at counted kind part.now.count part.now.records.now) end) }
    ensures none { IfNone result (Orderly low (rows_at counted kind part.now.count part.now.records.now) → ⊥) }
{
    let size = kind.size(counted);
    let mut low = low;
    let mut rest = part.records;
    for _ in 0..part.count {
        let row = row(counted, kind, rest);
        if !is_sound(row) {
            return None;
        }
        let rank = rank_of(row.fact);
        if rank < low {
            return None;
        }
        low = rank + 1;
        let (_, after) = rest.split_at(size);
        rest = after;
    }
    Some(low)
}

// Whether all rows are orderly.
fn are_orderly(counted: bool, parts: &Parts<'_>) -> bool
    requires { PartsFit counted (all_seen parts.now) }
    ensures { IsTrue result ↔ Orderly 0 (rows_of counted (all_seen parts.now)) }
{
    let Some(first) = end_of(counted, Kind::Blocks, &parts.blocks, 0) else {
        return false;
    };
    let Some(second) = end_of(counted, Kind::Outcomes, &parts.outcomes, first) else {
        return false;
    };
    let Some(third) = end_of(counted, Kind::Pairs, &parts.pairs, second) else {
        return false;
    };
    let Some(_) = end_of(counted, Kind::PUses, &parts.p_uses, third) else {
        return false;
    };
    true
}

// (Each of its calls is of one kind, by which it is then made.)
#[inline(always)]
fn read_rows(
    tally: &mut Tally,
    counted: bool,
    kind: Kind,
    part: &Part<'_>,
) -> Result<(), DecodeRefusal>
    requires { PartFits counted kind (seen part.now) }
    ensures ok { OnOk result (tally.new ≡ tally.old ++ rows_at counted kind part.now.count part.now.records.now) }
    ensures orderly { OnOk result (Orderly 0 tally.old → Orderly 0 tally.new) }
    ensures err { IfErr result (λ e. StopsAt e (tally.old ++ rows_at counted kind part.now.count part.now.records.now)) }
{
    let size = kind.size(counted);
    let mut rest = part.records;
    tally.room(part.count)?;
    for _ in 0..part.count {
        let row = row(counted, kind, rest);
        if !is_sound(row) {
            return Err(DecodeRefusal::Order);
        }
        if !tally.may_end_with(row.fact) {
            return Err(DecodeRefusal::Order);
        }
        tally.append(row.fact, row.count)?;
        let (_, after) = rest.split_at(size);
        rest = after;
    }
    Ok(())
}

fn read_tally(alloc: Global, counted: bool, parts: &Parts<'_>) -> Result<Tally, DecodeRefusal>
    requires { PartsFit counted (all_seen parts.now) }
    ensures ok { IfOk result (λ tally. (tally ≡ rows_of counted (all_seen parts.now)) × Orderly 0 tally) }
    ensures err { IfErr result (λ e. StopsAt e (rows_of counted (all_seen parts.now))) }
{
    let mut tally = Tally::new(alloc);
    read_rows(&mut tally, counted, Kind::Blocks, &parts.blocks)?;
    read_rows(&mut tally, counted, Kind::Outcomes, &parts.outcomes)?;
    read_rows(&mut tally, counted, Kind::Pairs, &parts.pairs)?;
    read_rows(&mut tally, counted, Kind::PUses, &parts.p_uses)?;
    Ok(tally)
}

/// The rows that stand in the bytes of a trace file, as a tally.
pub(crate) fn tally_in(alloc: Global, bytes: &[u8]) -> Result<Tally, place::NoMemory>
    ensures { IfOk result (λ t. t ≡ file_rows bytes.now) }
{
    if bytes.len() < 6 {
        return Ok(Tally::new(alloc));
    }
    let counted = BigEndian::read_u16(&bytes[4..]) == 2;
    let Some(parts) = four_parts(counted, bytes) else {
        return Ok(Tally::new(alloc));
    };
    match read_tally(alloc, counted, &parts) {
        Ok(tally) => Ok(tally),
        Err(_) => Err(place::NoMemory),
    }
}

// Adds the facts of the records.
// (Each of its calls is of one kind, by which it is then made.)
#[inline(always)]
fn add_list(
    facts: &mut Facts,
    counted: bool,
    kind: Kind,
    part: &Part<'_>,
) -> Result<(), place::NoMemory>
    requires fits { PartFits counted kind (seen part.now) }
    requires sound { AllByRecursion SoundRow (rows_at counted kind part.now.count part.now.records.now) }
    ensures { OnOk result (Gains facts.old facts.new (rows_at counted kind part.now.count part.now.records.now)) }
{
    let size = kind.size(counted);
    let mut rest = part.records;
    for _ in 0..part.count {
        let row = row(counted, kind, rest);
        facts.add(row.fact)?;
        let (_, after) = rest.split_at(size);
        rest = after;
    }
    Ok(())
}

fn add_lists(facts: &mut Facts, counted: bool, parts: &Parts<'_>) -> Result<(), place::NoMemory>
    requires fits { PartsFit counted (all_seen parts.now) }
    requires orderly { Orderly 0 (rows_of counted (all_seen parts.now)) }
    ensures { OnOk result (Gains facts.old facts.new (rows_of counted (all_seen parts.now))) }
{
    add_list(facts, counted, Kind::Blocks, &parts.blocks)?;
    add_list(facts, counted, Kind::Outcomes, &parts.outcomes)?;
    add_list(facts, counted, Kind::Pairs, &parts.pairs)?;
    add_list(facts, counted, Kind::PUses, &parts.p_uses)?;
    Ok(())
}

/// The facts of the rows that stand in the bytes of a trace file.
pub(crate) fn facts_in(alloc: Global, bytes: &[u8]) -> Result<Facts, place::NoMemory>
    requires { Orderly 0 (file_rows bytes.now) }
    ensures { IfOk result (λ facts. (fact : Fact) → holds facts fact ≡ is_met (file_rows bytes.now) fact) }
{
    let mut facts = Facts::new(alloc);
    if bytes.len() < 6 {
        return Ok(facts);
    }
    let counted = BigEndian::read_u16(&bytes[4..]) == 2;
    let Some(parts) = four_parts(counted, bytes) else {
        return Ok(facts);
    };
    add_lists(&mut facts, counted, &parts)?;
    Ok(facts)
}

fn old_runs_of(counted: bool, bytes: &[u8]) -> u32
    requires { opening_size counted ≤ length bytes.now }
    ensures { result ≡ old_runs_at counted bytes.now }
{
    if counted {
        BigEndian::read_u32(&bytes[42..])
    } else {
        BigEndian::read_u32(&bytes[38..])
    }
}

// The numbers before the lists, where the trace is sound.
fn read_head(counted: bool, bytes: &[u8], parts: &Parts<'_>) -> Result<Head, DecodeRefusal>
    requires long { opening_size counted ≤ length bytes.now }
    requires fits { PartsFit counted (all_seen parts.now) }
    ensures ok { IfOk result (λ h. (headed h (rows_of counted (all_seen parts.now)) ≡ trace_at counted bytes.now (all_seen parts.now)) × IsSound (headed h (rows_of counted (all_seen parts.now)))) }
    ensures err { IfErr result (λ e. StopsTrace e (trace_at counted bytes.now (all_seen parts.now))) }
{
    let runs = BigEndian::read_u32(&bytes[38..]);
    let old_runs = old_runs_of(counted, bytes);
    if runs < old_runs {
        return Err(DecodeRefusal::Order);
    }
    if !are_orderly(counted, parts) {
        return Err(DecodeRefusal::Order);
    }
    let mut digest = [0; 32];
    digest.copy_from_slice(&bytes[6..38]);
    Ok(Head {
        digest,
        runs,
        old_runs,
    })
}

fn version_of(bytes: &[u8]) -> Result<bool, DecodeRefusal>
    ensures ok { IfOk result (λ counted. (counted ≡ counted_at bytes.now) × IsKnown bytes.now × (6 ≤ length bytes.now)) }
    ensures err { IfErr result (λ e. Refuses bytes.now e) }
{
    if !bytes.starts_with(b"ATAC") {
        return Err(DecodeRefusal::NotATrace);
    }
    if bytes.len() < 6 {
        return Err(DecodeRefusal::Length);
    }
    match BigEndian::read_u16(&bytes[4..]) {
        1 => Ok(false),
        2 => Ok(true),
        _ => Err(DecodeRefusal::Version),
    }
}

fn is_signed(bytes: &[u8]) -> bool
    requires { 32 ≤ length bytes.now }
    ensures { IsTrue result ↔ IsSigned bytes.now }
{
    let (front, trailer) = bytes.split_at(bytes.len() - 32);
    let digest = Sha256::digest(front);
    trailer == digest.as_slice()
}

fn read(bytes: &[u8]) -> Result<Head, DecodeRefusal>
    ensures { MatchResult result (λ h. Accepts bytes.now (headed h (file_rows bytes.now))) (λ e. Refuses bytes.now e) }
{
    let counted = version_of(bytes)?;
    let Some(parts) = four_parts(counted, bytes) else {
        return Err(DecodeRefusal::Length);
    };
    let head = read_head(counted, bytes, &parts)?;
    if !is_signed(bytes) {
        return Err(DecodeRefusal::Damaged);
    }
    Ok(head)
}

// Bytes have 8 bits, by their type.
fn are_bytes(bytes: &[u8])
    ensures { IsBytes bytes.now }
{
    let _bytes = bytes;
}

/// The trace that the bytes spell, in either version. It keeps the bytes, which are its rows until a tally is wanted.
pub fn decode(alloc: Global, bytes: Vec<u8>) -> Result<Trace, DecodeRefusal>
    // What is read stands in the bytes.
    ensures accepted { IfOk result (Accepts bytes.items) }
    // It is a sound trace, and the bytes are its spelling.
    ensures found { IfOk result (λ t. IsSound t × Spells bytes.items t) }
    // The spelling of a sound trace is read as that trace, unless memory runs out.
    ensures only { (t : Trace) → IsTyped t → IsSound t → Spells bytes.items t → MatchResult result (λ u. u ≡ t) (λ e. e ≡ NoMemory) }
    // Which refusal it is.
    ensures refused { IfErr result (λ e. Refuses bytes.items e) }
{
    are_bytes(bytes.as_slice());
    let Head {
        digest,
        runs,
        old_runs,
    } = read(bytes.as_slice())?;
    Ok(Trace {
        digest,
        runs,
        old_runs,
        tally: Rows::read(alloc, bytes),
    })
}
