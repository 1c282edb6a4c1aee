//! Reports, and their totals.

ghost use Rattle.std.specs.Prelude.{◌≡◌, ◌++◌, ◌+◌, ◌<◌, ◌^◌, length, string_bytes, OnOk, IfOk};
ghost use Rattle.std.specs.List.{flat_map, count_by};
ghost use Rattle.atac_facts.specs.Sets.{holds};
ghost use Rattle.cover_report.specs.ItemTexts.{of_kind};
ghost use Rattle.cover_report.specs.Texts.{is_covered, covered_text, report_line, total_line, totals_text, report_text};

use crate::kinds::{Kind, count, fact, put_item};
use atac_base::items::Items;
use atac_facts::facts::Facts;
use c_base::place::NoMemory;
use std::alloc::{AllocError, Global};
use std::fmt::Write;

fn covered_word(covered: bool) -> &'static str
    ensures { result.now ≡ covered_text covered }
{
    if covered { "covered" } else { "uncovered" }
}

fn put_lines(text: &mut String, items: &Items, kind: Kind, facts: &Facts) -> Result<(), AllocError>
    ensures { OnOk result (string_bytes text.new ≡ string_bytes text.old ++ flat_map (report_line (holds facts.now)) (of_kind items.now kind)) }
{
    for i in 0..count(items, kind) {
        let word = covered_word(facts.has(fact(items, kind, i)));
        put_item(text, items, kind, i)?;
        write!(text, " {word}\n")?;
    }
    Ok(())
}

// How many items of a kind are covered.
fn covered(items: &Items, kind: Kind, facts: &Facts) -> u32
    ensures { result ≡ count_by (is_covered (holds facts.now)) (of_kind items.now kind) }
{
    let mut covered = 0;
    for i in 0..count(items, kind) {
        if facts.has(fact(items, kind, i)) {
            covered += 1;
        }
    }
    covered
}

// So many items are covered, of so many.
#[derive(Clone, Copy)]
struct Total {
    covered: u64,
    all: u64,
}

fn total_of(items: &Items, kind: Kind, facts: &Facts) -> Total
    ensures covered { result.covered ≡ count_by (is_covered (holds facts.now)) (of_kind items.now kind) }
    ensures all { result.all ≡ length (of_kind items.now kind) }
    ensures small { result.covered + result.all < 2 ^ 33 }
{
    Total {
        covered: covered(items, kind, facts) as u64,
        all: count(items, kind) as u64,
    }
}

fn put_total(text: &mut String, name: &str, total: Total) -> Result<(), AllocError>
    ensures { OnOk result (string_bytes text.new ≡ string_bytes text.old ++ total_line name.now total.covered total.all) }
{
    let covered = total.covered;
    let all = total.all;
    write!(text, "{name}{covered} of {all}\n")
}

/// Appends five lines: how many items of each kind are covered, and how many there are.
pub fn put_totals(text: &mut String, items: &Items, facts: &Facts) -> Result<(), AllocError>
    ensures { OnOk result (string_bytes text.new ≡ string_bytes text.old ++ totals_text items.now (holds facts.now)) }
{
    let c_uses = total_of(items, Kind::CUse, facts);
    let p_uses = total_of(items, Kind::PUse, facts);
    let all_uses = Total {
        covered: c_uses.covered + p_uses.covered,
        all: c_uses.all + p_uses.all,
    };
    put_total(text, "blocks ", total_of(items, Kind::Block, facts))?;
    put_total(text, "decisions ", total_of(items, Kind::Outcome, facts))?;
    put_total(text, "c-uses ", c_uses)?;
    put_total(text, "p-uses ", p_uses)?;
    put_total(text, "all-uses ", all_uses)
}

fn put_report(text: &mut String, items: &Items, facts: &Facts) -> Result<(), AllocError>
    ensures { OnOk result (string_bytes text.new ≡ string_bytes text.old ++ report_text items.now (holds facts.now)) }
{
    put_lines(text, items, Kind::Block, facts)?;
    put_lines(text, items, Kind::Outcome, facts)?;
    put_lines(text, items, Kind::CUse, facts)?;
    put_lines(text, items, Kind::PUse, facts)?;
    put_totals(text, items, facts)
}

/// The report: a line for each item, which says whether the facts cover it, and the totals.
pub fn report(alloc: Global, items: &Items, facts: &Facts) -> Result<Vec<u8>, NoMemory>
    ensures { IfOk result (λ text. text.items ≡ report_text items.now (holds facts.now)) }
{
    let mut text = String::new(alloc);
    put_report(&mut text, items, facts)?;
    Ok(text.into_bytes())
}

/// The totals alone: how many items of each kind the facts cover, and how many there are.
pub fn totals(alloc: Global, items: &Items, facts: &Facts) -> Result<Vec<u8>, NoMemory>
    ensures { IfOk result (λ text. text.items ≡ totals_text items.now (holds facts.now)) }
{
    let mut text = String::new(alloc);
    put_totals(&mut text, items, facts)?;
    Ok(text.into_bytes())
}
