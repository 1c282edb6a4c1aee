//! Lines of items with the number of runs that met them, and the totals.

ghost use Rattle.std.specs.Prelude.{◌≡◌, ◌++◌, ◌<◌, length, string_bytes, true, OnOk, IfOk};
ghost use Rattle.std.specs.List.{flat_map};
ghost use Rattle.atac_facts.specs.Facts.{fits};
ghost use Rattle.atac_facts.specs.Tallies.{count_of};
ghost use Rattle.cover_report.specs.ItemTexts.{of_kind, item_at, all_items};
ghost use Rattle.cover_report.specs.Texts.{totals_text};
ghost use Rattle.cover_hits.specs.Hits.{some_run, more_text, hits_line, hits_text};
ghost use Rattle.cover_hits.specs.Fitting.{all_fit};

use atac_base::items::Items;
use atac_facts::tally::Tally;
use c_base::place::NoMemory;
use cover_report::kinds::{Kind, count, fact, put_item};
use cover_report::reporting::put_totals;
use std::alloc::{AllocError, Global};
use std::fmt::Write;

// The number of runs that met item `i` of a kind.
fn runs_of(items: &Items, kind: Kind, i: u32, tally: &Tally) -> u32
    requires { i < length (of_kind items.now kind) }
    ensures runs { result ≡ count_of tally.now (item_at items.now kind i).fact }
    ensures fits { fits (item_at items.now kind i).fact ≡ true }
{
    tally.count(fact(items, kind, i))
}

// What stands behind a number of runs.
fn more(exact: bool, runs: u32) -> &'static str
    ensures { result.now ≡ more_text exact runs }
{
    if exact || runs == 0 { "" } else { " or more" }
}

fn put_lines(
    text: &mut String,
    items: &Items,
    kind: Kind,
    tally: &Tally,
    exact: bool,
) -> Result<(), AllocError>
    ensures lines { OnOk result (string_bytes text.new ≡ string_bytes text.old ++ flat_map (hits_line exact (count_of tally.now)) (of_kind items.now kind)) }
    ensures fit { OnOk result (all_fit (of_kind items.now kind) ≡ true) }
{
    for i in 0..count(items, kind) {
        let runs = runs_of(items, kind, i, tally);
        let more = more(exact, runs);
        put_item(text, items, kind, i)?;
        write!(text, " in {runs} runs{more}\n")?;
    }
    Ok(())
}

// Appends the totals, in which an item is covered where a run met it.
fn put_met(text: &mut String, items: &Items, tally: &Tally) -> Result<(), AllocError>
    requires { all_fit (all_items items.now) ≡ true }
    ensures { OnOk result (string_bytes text.new ≡ string_bytes text.old ++ totals_text items.now (some_run (count_of tally.now))) }
{
    put_totals(text, items, tally.facts())?;
    Ok(())
}

fn put_hits(text: &mut String, items: &Items, tally: &Tally, exact: bool) -> Result<(), AllocError>
    ensures { OnOk result (string_bytes text.new ≡ string_bytes text.old ++ hits_text exact items.now (count_of tally.now)) }
{
    put_lines(text, items, Kind::Block, tally, exact)?;
    put_lines(text, items, Kind::Outcome, tally, exact)?;
    put_lines(text, items, Kind::CUse, tally, exact)?;
    put_lines(text, items, Kind::PUse, tally, exact)?;
    put_met(text, items, tally)
}

/// The hits: a line for each item, which says how many runs met it, and the totals. Where the tally isn't exact, a
/// number but 0 means so many runs or more.
pub fn hits(alloc: Global, items: &Items, tally: &Tally, exact: bool) -> Result<Vec<u8>, NoMemory>
    ensures { IfOk result (λ text. text.items ≡ hits_text exact items.now (count_of tally.now)) }
{
    let mut text = String::new(alloc);
    put_hits(&mut text, items, tally, exact)?;
    Ok(text.into_bytes())
}
