//! A watcher that counts how often each block was entered.

ghost use Rattle.std.specs.Prelude.{◌≡◌, ◌<◌, ◌≤◌, ◌∷◌, ◌++◌, ℕ, List, [], length, slice_index, OnOk, OnErr};
ghost use Rattle.c_events.specs.declared.events.Event.{Event};
ghost use Rattle.c_events.specs.declared.events.Event.TheVariants as event;
ghost use Rattle.atac_base.specs.Outside.{IsFront};
ghost use Rattle.probe_watch.specs.Counts.{Counts, counts_text};

use crate::lines::put_count;
use crate::watcher::Watcher;
use c_base::place::NoMemory;
use c_events::events::Event;
use std::alloc::{AllocError, Global};

/// Counts how often each block is entered. It keeps a count for each number up to the greatest one that it has seen, and no
/// event.
#[derive(Drop)]
pub struct BlockCounter {
    counts: Vec<u64>,
}

impl BlockCounter {
    ghost use Rattle.std.specs.Prelude.{[]};

    /// It has seen no event.
    pub fn new(alloc: Global) -> BlockCounter
        ensures { ⟦<BlockCounter as Watcher>⟧.stands_for result [] }
    {
        BlockCounter {
            counts: Vec::new(alloc),
        }
    }
}

// Makes the table longer than that number, by counts of nothing.
fn widen(counts: &mut Vec<u64>, k: usize) -> Result<(), AllocError>
    ensures wide { OnOk result (k < length counts.new.items) }
    ensures longer { length counts.old.items ≤ length counts.new.items }
    ensures same { (j : ℕ) → slice_index counts.new.items j ≡ slice_index counts.old.items j }
    ensures kept { OnErr result (counts.new.items ≡ counts.old.items) }
{
    if counts.len() <= k {
        counts.resize(k.saturating_add(1), 0)?;
    }
    Ok(())
}

// One more of the block of that number.
fn count(counts: &mut Vec<u64>, k: u16) -> Result<(), AllocError>
    ensures counted { OnOk result ((h : List Event) → Counts counts.old.items h → Counts counts.new.items (h ++ event.Block k ∷ [])) }
    ensures kept { OnErr result (counts.new.items ≡ counts.old.items) }
{
    let k = usize::from(k);
    widen(counts, k)?;
    counts[k] = counts[k].saturating_add(1);
    Ok(())
}

// Appends a line for each number that was counted.
fn put_counts(text: &mut Vec<u8>, counts: &[u64]) -> Result<(), AllocError>
    ensures whole { OnOk result ((h : List Event) → Counts counts.now h → text.new.items ≡ text.old.items ++ counts_text h) }
    ensures front { IsFront text.old.items text.new.items }
{
    for (k, n) in counts.iter().enumerate() {
        if *n > 0 {
            put_count(text, k as u64, *n)?;
        }
    }
    Ok(())
}

impl Watcher for BlockCounter {
    ghost use Rattle.std.specs.Prelude.{codes};
    ghost use Rattle.probe_watch.specs.Counts.{Counts, counts_text};

    ghost stands_for = { λ c h. Counts c.counts.items h };

    ghost called = { λ c. codes "blocks" };

    ghost text_of = { λ c. counts_text };

    fn name(&self) -> &str {
        "blocks"
    }

    #[inline]
    fn see(&mut self, event: Event) -> Result<(), NoMemory> {
        if let Event::Block(k) = event {
            count(&mut self.counts, k)?;
        }
        Ok(())
    }

    fn say(&self, into: &mut Vec<u8>) -> Result<(), NoMemory> {
        let before = into.len();
        match put_counts(into, self.counts.as_slice()) {
            Ok(()) => Ok(()),
            Err(_) => {
                into.truncate(before);
                Err(NoMemory)
            }
        }
    }
}
