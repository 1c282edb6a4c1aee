//! The lines of a source, with the items that no fact covers.

ghost use Rattle.std.specs.Prelude.{◌≡◌, ◌++◌, ◌+◌, ◌<◌, ◌≤◌, ◌∷◌, ◌==◌, List, length, map, string_bytes, Bool, OnOk, IfOk};
ghost use Rattle.std.specs.List.{All, flat_map, position, position_or_len};
ghost use Rattle.atac_facts.specs.Sets.{holds};
ghost use Rattle.atac_base.specs.Items.{ItemLists};
ghost use Rattle.cover_show.specs.Shown.{lines_in, number_text, mark_text, shown_item, shown_line, shown_behind, show_text};
ghost use Rattle.cover_show.specs.Missed.{meant, IsPlaced, Rises};

use crate::missed::{Missed, missed_by_line, split_line};
use atac_base::items::Items;
use atac_facts::facts::Facts;
use c_base::place::NoMemory;
use cover_report::kinds::put_item;
use cover_report::reporting::put_totals;
use std::alloc::{AllocError, Global};
use std::fmt::Write;

fn newline(text: &[u8]) -> Option<usize>
    ensures { result ≡ position (λ byte. byte == 10) text.now }
{
    text.iter().position(|byte| *byte == b'\n')
}

// Where the first newline is, or the text's length.
fn line_end(text: &[u8]) -> usize
    ensures value { result ≡ position_or_len (λ byte. byte == 10) text.now }
    ensures within { result ≤ length text.now }
{
    newline(text).unwrap_or(text.len())
}

// The first line of a text, and what stands behind its newline.
fn cut_line(text: &[u8]) -> (&[u8], &[u8])
    requires { 0 < length text.now }
    ensures cut { lines_in text.now ≡ result.0.now ∷ lines_in result.1.now }
    ensures shorter { length result.1.now < length text.now }
{
    let (line, rest) = text.split_at(line_end(text));
    match rest.split_first() {
        Some((_, behind)) => (line, behind),
        None => (line, rest),
    }
}

fn put_number(words: &mut String, number: u64) -> Result<(), AllocError>
    ensures { OnOk result (string_bytes words.new ≡ string_bytes words.old ++ number_text number) }
{
    write!(words, "{number:>6}")
}

// Whether items stand on a line.
fn mark(missed: &[Missed]) -> &'static str
    ensures { (items : ItemLists) → result.now ≡ mark_text (map (meant items) missed.now) }
{
    if missed.is_empty() { "   " } else { " ! " }
}

fn put_missed(words: &mut String, items: &Items, missed: &[Missed]) -> Result<(), AllocError>
    requires { All (IsPlaced items.now) missed.now }
    ensures { OnOk result (string_bytes words.new ≡ string_bytes words.old ++ flat_map shown_item (map (meant items.now) missed.now)) }
{
    for item in missed {
        write!(words, "         ")?;
        put_item(words, items, item.kind, item.place)?;
        write!(words, "\n")?;
    }
    Ok(())
}

// Appends a line by its number, with the items that stand on it. What stands in `words` is let go.
fn put_line(
    out: &mut Vec<u8>,
    words: &mut String,
    items: &Items,
    number: u64,
    line: &[u8],
    missed: &[Missed],
) -> Result<(), AllocError>
    requires { All (IsPlaced items.now) missed.now }
    ensures { OnOk result (out.new.items ≡ out.old.items ++ shown_line number line.now (map (meant items.now) missed.now)) }
{
    words.clear();
    put_number(words, number)?;
    let mark = mark(missed);
    write!(words, "{mark}")?;
    out.extend_from_slice(words.as_bytes())?;
    out.extend_from_slice(line)?;
    words.clear();
    write!(words, "\n")?;
    put_missed(words, items, missed)?;
    out.extend_from_slice(words.as_bytes())?;
    Ok(())
}

// Appends the lines of a text, each with the items that stand on it. What stands in `words` is let go.
fn put_source(
    out: &mut Vec<u8>,
    words: &mut String,
    text: &[u8],
    items: &Items,
    missed: &[Missed],
) -> Result<(), AllocError>
    requires rises { Rises 0 missed.now }
    requires placed { All (IsPlaced items.now) missed.now }
    ensures { OnOk result (out.new.items ≡ out.old.items ++ shown_behind 0 (lines_in text.now) (map (meant items.now) missed.now)) }
{
    let (_, mut later) = split_line(missed, 0);
    let mut rest = text;
    let mut number = 0u64;
    while !rest.is_empty() {
        let (line, behind) = cut_line(rest);
        number += 1;
        let (here, others) = split_line(later, number);
        put_line(out, words, items, number, line, here)?;
        rest = behind;
        later = others;
    }
    Ok(())
}

/// The source's lines, each behind its number and a mark where items that no fact covers stand on it, these items below it,
/// and the totals.
pub fn show(alloc: Global, text: &[u8], items: &Items, facts: &Facts) -> Result<Vec<u8>, NoMemory>
    ensures { IfOk result (λ shown. shown.items ≡ show_text text.now items.now (holds facts.now)) }
{
    let missed = missed_by_line(alloc, items, facts)?;
    let mut out = Vec::new(alloc);
    let mut words = String::new(alloc);
    put_source(&mut out, &mut words, text, items, &missed)?;
    words.clear();
    put_totals(&mut words, items, facts)?;
    out.extend_from_slice(words.as_bytes())?;
    Ok(out)
}
