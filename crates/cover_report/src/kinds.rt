//! Items of all kinds, each by its kind and its place in the list of this kind.

ghost use Rattle.std.specs.Prelude.{◌≡◌, ◌++◌, ◌+◌, ◌<◌, length, string_bytes, OnOk};
ghost use Rattle.cover_report.specs.ItemTexts.{of_kind, item_at};

use crate::lines::{put_block, put_c_use, put_outcome, put_p_use};
use atac_base::items::Items;
use atac_facts::fact::Fact;
use std::alloc::AllocError;

/// The kinds of items, in the order of their lists.
#[derive(Clone, Copy, Debug, PartialEq, Eq)]
pub enum Kind {
    Block,
    Outcome,
    CUse,
    PUse,
}

/// The number of items of a kind.
#[tactic(auto, using(crate::proofs::Places::counts))]
pub fn count(items: &Items, kind: Kind) -> u32
    ensures { result ≡ length (of_kind items.now kind) }
{
    match kind {
        Kind::Block => items.blocks(),
        Kind::Outcome => items.outcomes(),
        Kind::CUse => items.c_uses(),
        Kind::PUse => items.p_uses(),
    }
}

// The number of block `i`, which counts from 0; numbers count from 1.
fn block_number(items: &Items, i: u32) -> u16
    requires { i < length items.now.blocks }
    ensures { result ≡ i + 1 }
{
    prove!(i < items.blocks());
    (i + 1) as u16
}

/// The fact that covers item `i` of a kind, counted from 0.
#[tactic(auto, using(crate::proofs::Places::counts))]
pub fn fact(items: &Items, kind: Kind, i: u32) -> Fact
    requires { i < length (of_kind items.now kind) }
    ensures { result ≡ (item_at items.now kind i).fact }
{
    match kind {
        Kind::Block => Fact::Block(block_number(items, i)),
        Kind::Outcome => {
            let row = items.outcome(i);
            Fact::Outcome(row.decision, row.outcome)
        }
        Kind::CUse => {
            let row = items.c_use(i);
            Fact::Pair(row.def, row.user)
        }
        Kind::PUse => {
            let row = items.p_use(i);
            Fact::PUse(row.pair.def, row.pair.user, row.outcome)
        }
    }
}

/// The line that item `i` of a kind stands on, counted from 0. A pair stands where its use does.
#[tactic(auto, using(crate::proofs::Places::counts))]
pub fn line(items: &Items, kind: Kind, i: u32) -> u32
    requires { i < length (of_kind items.now kind) }
    ensures { result ≡ (item_at items.now kind i).line }
{
    match kind {
        Kind::Block => items.block(i).line,
        Kind::Outcome => items.outcome(i).pos.line,
        Kind::CUse => items.c_use(i).use_pos.line,
        Kind::PUse => items.p_use(i).pair.use_pos.line,
    }
}

/// Appends the text of item `i` of a kind, counted from 0.
#[tactic(auto, using(crate::proofs::Places::counts, crate::proofs::Places::rows))]
pub fn put_item(text: &mut String, items: &Items, kind: Kind, i: u32) -> Result<(), AllocError>
    requires { i < length (of_kind items.now kind) }
    ensures { OnOk result (string_bytes text.new ≡ string_bytes text.old ++ (item_at items.now kind i).text) }
{
    match kind {
        Kind::Block => put_block(text, block_number(items, i) as u32, items.block(i)),
        Kind::Outcome => put_outcome(text, items.outcome(i)),
        Kind::CUse => put_c_use(text, items, items.c_use(i)),
        Kind::PUse => put_p_use(text, items, items.p_use(i)),
    }
}
