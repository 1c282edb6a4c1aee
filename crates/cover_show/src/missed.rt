//! The items that no fact covers, line by line.

ghost use Rattle.std.specs.Prelude.{◌≡◌, ◌++◌, ◌+◌, ◌<◌, ◌≤◌, [], ◌∷◌, ℕ, length, map, OnOk, IfOk};
ghost use Rattle.std.specs.List.{All, filter, prefix_len};
ghost use Rattle.std.specs.List.Sorted.{IsPermutation};
ghost use Rattle.atac_facts.specs.Sets.{holds};
ghost use Rattle.cover_report.specs.ItemTexts.{of_kind, item_at, all_items};
ghost use Rattle.cover_show.specs.Shown.{uncovered, on_line};
ghost use Rattle.cover_show.specs.Missed.{meant, IsPlaced, is_on, Rises};

use atac_base::items::Items;
use atac_facts::facts::Facts;
use cover_report::kinds::{Kind, count, fact, line};
use std::alloc::{AllocError, Global};

/// An item that no fact covers: the line that it stands on, its kind, and its place among the items of this kind, counted
/// from 0.
#[derive(Clone, Copy)]
pub struct Missed {
    pub line: u32,
    pub kind: Kind,
    pub place: u32,
}

// Appends an item of a kind, where it is uncovered.
fn gather_item(
    missed: &mut Vec<Missed>,
    items: &Items,
    kind: Kind,
    place: u32,
    facts: &Facts,
) -> Result<(), AllocError>
    requires within { place < length (of_kind items.now kind) }
    requires placed { All (IsPlaced items.now) missed.old.items }
    ensures placed { OnOk result (All (IsPlaced items.now) missed.new.items) }
    ensures gathered { OnOk result (map (meant items.now) missed.new.items ≡ map (meant items.now) missed.old.items ++ uncovered (holds facts.now) (item_at items.now kind place ∷ [])) }
{
    if facts.has(fact(items, kind, place)) {
        return Ok(());
    }
    let line = line(items, kind, place);
    missed.push(Missed { line, kind, place })?;
    Ok(())
}

// Appends the uncovered items of a kind.
#[tactic(auto, using(crate::proofs::Gathering::one_more))]
fn gather_kind(
    missed: &mut Vec<Missed>,
    items: &Items,
    kind: Kind,
    facts: &Facts,
) -> Result<(), AllocError>
    requires { All (IsPlaced items.now) missed.old.items }
    ensures placed { OnOk result (All (IsPlaced items.now) missed.new.items) }
    ensures gathered { OnOk result (map (meant items.now) missed.new.items ≡ map (meant items.now) missed.old.items ++ uncovered (holds facts.now) (of_kind items.now kind)) }
{
    for place in 0..count(items, kind) {
        gather_item(missed, items, kind, place, facts)?;
    }
    Ok(())
}

// The uncovered items, in their order.
fn gather(alloc: Global, items: &Items, facts: &Facts) -> Result<Vec<Missed>, AllocError>
    ensures placed { IfOk result (λ v. All (IsPlaced items.now) v.items) }
    ensures gathered { IfOk result (λ v. map (meant items.now) v.items ≡ uncovered (holds facts.now) (all_items items.now)) }
{
    let mut missed = Vec::new(alloc);
    gather_kind(&mut missed, items, Kind::Block, facts)?;
    gather_kind(&mut missed, items, Kind::Outcome, facts)?;
    gather_kind(&mut missed, items, Kind::CUse, facts)?;
    gather_kind(&mut missed, items, Kind::PUse, facts)?;
    Ok(missed)
}

// Sorts them by their lines; those of one line keep their order.
fn sort_by_line(missed: &mut Vec<Missed>) -> Result<(), AllocError>
    ensures moves { IsPermutation missed.old.items missed.new.items }
    ensures rises { OnOk result (Rises 0 missed.new.items) }
    ensures keeps { OnOk result ((n : ℕ) → filter (is_on n) missed.new.items ≡ filter (is_on n) missed.old.items) }
{
    missed.sort_by_key(|item| item.line)?;
    Ok(())
}

/// The uncovered items by their lines, those of one line in their order.
pub fn missed_by_line(
    alloc: Global,
    items: &Items,
    facts: &Facts,
) -> Result<Vec<Missed>, AllocError>
    ensures placed { IfOk result (λ v. All (IsPlaced items.now) v.items) }
    ensures rises { IfOk result (λ v. Rises 0 v.items) }
    ensures lines { IfOk result (λ v. (n : ℕ) → on_line n (map (meant items.now) v.items) ≡ on_line n (uncovered (holds facts.now) (all_items items.now))) }
{
    let mut missed = gather(alloc, items, facts)?;
    sort_by_line(&mut missed)?;
    Ok(missed)
}

// How many stand on a line, from the first on.
fn count_on(missed: &[Missed], line: u64) -> usize
    ensures value { result ≡ prefix_len (is_on line) missed.now }
    ensures within { result ≤ length missed.now }
{
    missed
        .iter()
        .take_while(|item| u64::from(item.line) == line)
        .count()
}

/// The items of a line, and those of the lines behind it, of items that stand on this line or behind it.
#[tactic(auto, using(crate::proofs::Parting::here, crate::proofs::Parting::behind))]
pub fn split_line(missed: &[Missed], line: u64) -> (&[Missed], &[Missed])
    requires { Rises line missed.now }
    ensures parts { missed.now ≡ result.0.now ++ result.1.now }
    ensures here { All (λ m. m.line ≡ line) result.0.now }
    ensures behind { Rises (line + 1) result.1.now }
{
    missed.split_at(count_on(missed, line))
}
