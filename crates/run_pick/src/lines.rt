//! The text of which runs are kept.

ghost use Rattle.std.specs.Prelude.{◌≡◌, ◌++◌, length, map, codes, string_bytes, OnOk, IfOk};
ghost use Rattle.std.specs.List.{count_by};
ghost use Rattle.atac_facts.specs.Sets.{holds};
ghost use Rattle.cover_report.specs.Texts.{total_line};
ghost use Rattle.run_pick.specs.Lines.{kept_word, kept_lines, pick_text};

use crate::picks::Picks;
use atac_base::items::Items;
use atac_facts::facts::Facts;
use c_base::place::NoMemory;
use cover_report::reporting::put_totals;
use std::alloc::{AllocError, Global};
use std::fmt::Write;

fn kept_word(kept: bool) -> &'static str
    ensures { result.now ≡ kept_word kept }
{
    if kept { "keep " } else { "drop " }
}

// Appends a line for each input.
fn put_lines(text: &mut String, picks: &Picks, names: &[String]) -> Result<(), AllocError>
    requires { length names.now ≡ length picks.now }
    ensures { OnOk result (string_bytes text.new ≡ string_bytes text.old ++ kept_lines picks.now (map string_bytes names.now)) }
{
    for i in 0..names.len() {
        let word = kept_word(picks.at(i));
        let name = names[i].as_str();
        write!(text, "{word}{name}\n")?;
    }
    Ok(())
}

// How many runs are kept.
fn count_kept(picks: &Picks) -> u64
    ensures { result ≡ count_by (λ mark. mark) picks.now }
{
    let mut kept = 0;
    for i in 0..picks.len() {
        if picks.at(i) {
            kept += 1;
        }
    }
    kept
}

// Appends how many of the runs are kept.
fn put_count(text: &mut String, picks: &Picks) -> Result<(), AllocError>
    ensures { OnOk result (string_bytes text.new ≡ string_bytes text.old ++ total_line (codes "kept ") (count_by (λ mark. mark) picks.now) (length picks.now)) }
{
    let kept = count_kept(picks);
    let all = picks.len();
    write!(text, "kept {kept} of {all}\n")
}

fn put_pick(
    text: &mut String,
    picks: &Picks,
    names: &[String],
    items: &Items,
    facts: &Facts,
) -> Result<(), AllocError>
    requires { length names.now ≡ length picks.now }
    ensures { OnOk result (string_bytes text.new ≡ string_bytes text.old ++ pick_text picks.now (map string_bytes names.now) items.now (holds facts.now)) }
{
    put_lines(text, picks, names)?;
    put_count(text, picks)?;
    put_totals(text, items, facts)
}

/// The text of a pick: a line for each input that says whether its run is kept, how many are, and the totals of what all runs
/// show, which are `facts`.
pub fn pick_text(
    alloc: Global,
    picks: &Picks,
    names: &[String],
    items: &Items,
    facts: &Facts,
) -> Result<Vec<u8>, NoMemory>
    requires { length names.now ≡ length picks.now }
    ensures { IfOk result (λ text. text.items ≡ pick_text picks.now (map string_bytes names.now) items.now (holds facts.now)) }
{
    let mut text = String::new(alloc);
    put_pick(&mut text, picks, names, items, facts)?;
    Ok(text.into_bytes())
}
