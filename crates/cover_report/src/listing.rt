//! The list of a program's items.

ghost use Rattle.std.specs.Prelude.{◌≡◌, ◌++◌, ◌+◌, length, string_bytes, OnOk, IfOk};
ghost use Rattle.std.specs.List.{flat_map};
ghost use Rattle.cover_report.specs.ItemTexts.{of_kind, list_line, count_line, counts_text, list_text};

use crate::kinds::{Kind, count, put_item};
use atac_base::items::Items;
use c_base::place::NoMemory;
use std::alloc::{AllocError, Global};
use std::fmt::Write;

fn put_lines(text: &mut String, items: &Items, kind: Kind) -> Result<(), AllocError>
    ensures { OnOk result (string_bytes text.new ≡ string_bytes text.old ++ flat_map list_line (of_kind items.now kind)) }
{
    for i in 0..count(items, kind) {
        put_item(text, items, kind, i)?;
        write!(text, "\n")?;
    }
    Ok(())
}

fn put_count(text: &mut String, name: &str, count: u64) -> Result<(), AllocError>
    ensures { OnOk result (string_bytes text.new ≡ string_bytes text.old ++ count_line name.now count) }
{
    write!(text, "{name}{count}\n")
}

fn put_counts(text: &mut String, items: &Items) -> Result<(), AllocError>
    ensures { OnOk result (string_bytes text.new ≡ string_bytes text.old ++ counts_text items.now) }
{
    let c_uses = items.c_uses() as u64;
    let p_uses = items.p_uses() as u64;
    put_count(text, "blocks ", items.blocks() as u64)?;
    put_count(text, "decisions ", items.outcomes() as u64)?;
    put_count(text, "c-uses ", c_uses)?;
    put_count(text, "p-uses ", p_uses)?;
    put_count(text, "all-uses ", c_uses + p_uses)
}

fn put_list(text: &mut String, items: &Items) -> Result<(), AllocError>
    ensures { OnOk result (string_bytes text.new ≡ string_bytes text.old ++ list_text items.now) }
{
    put_lines(text, items, Kind::Block)?;
    put_lines(text, items, Kind::Outcome)?;
    put_lines(text, items, Kind::CUse)?;
    put_lines(text, items, Kind::PUse)?;
    put_counts(text, items)
}

/// The list: a line for each item, and five lines of how many there are of each kind.
pub fn list_text(alloc: Global, items: &Items) -> Result<Vec<u8>, NoMemory>
    ensures { IfOk result (λ text. text.items ≡ list_text items.now) }
{
    let mut text = String::new(alloc);
    put_list(&mut text, items)?;
    Ok(text.into_bytes())
}
