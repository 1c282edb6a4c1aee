//! Facts that are noted, with what shows at once that a block or a pair is among them.

ghost use Rattle.std.specs.Prelude.{◌≡◌, ◌⊎◌, ◌↔◌, ℕ, List, Option, Some, true, false, slice_get, OnOk, OnErr, IsOk, IsTrue};
ghost use Rattle.std.specs.List.{Contains};
ghost use Rattle.atac_facts.specs.declared.fact.Fact.{Fact};
ghost use Rattle.atac_facts.specs.declared.fact.Fact.TheVariants as fact;
ghost use Rattle.atac_facts.specs.Sets.{FactSet, holds};
ghost use Rattle.cover_parts.specs.Gaining.{Has, Gains, Same};
ghost use Rattle.cover_parts.specs.declared.pending.Wait.{Wait};
ghost use Rattle.cover_parts.specs.Settled.{settled, IsWait};
ghost use Rattle.cover_parts.specs.Waits.{others, those_in};

use atac_facts::fact::Fact;
use atac_facts::facts::Facts;
use c_base::place::NoMemory;
use cover_parts::pending::Pending;
use cover_parts::settle::{note, reach, settle, wait};
use std::alloc::Global;
use std::marker::Model;

/// A set of facts. Most events of a run bring no fact that isn't there: the blocks that are there, and the last pair that was
/// noted of each use, are seen without a search.
#[derive(Drop)]
pub struct Noted {
    facts: Facts,
    blocks: Vec<bool>,
    latest: Vec<Option<u16>>,
}

impl Model for Noted {
    ghost use Rattle.atac_facts.specs.Sets.{FactSet};
    ghost use Rattle.cover_core.specs.Noted.{AreBlocks, ArePairs};

    ghost Value = { FactSet };

    ghost view = { λ n. n.facts };

    ghost invariant = { λ n. AreBlocks n.blocks.items n.facts × ArePairs n.latest.items n.facts };
}

impl Noted {
    /// No fact.
    pub fn new(alloc: Global) -> Noted
        ensures { (fact : Fact) → holds result fact ≡ false }
    {
        Noted {
            facts: Facts::new(alloc),
            blocks: Vec::new(alloc),
            latest: Vec::new(alloc),
        }
    }

    /// The facts.
    pub fn facts(&self) -> &Facts
        ensures { result.now ≡ self.now }
    {
        &self.facts
    }

    /// A block is reached. After `NoMemory` the facts are the same.
    #[inline]
    pub fn note_block(&mut self, block: u16) -> Result<(), NoMemory>
        ensures noted { OnOk result (Gains self.old self.new (λ f. f ≡ fact.Block block)) }
        ensures same { OnErr result (Same self.old self.new) }
        ensures there { Has self.old (fact.Block block) → IsOk result }
    {
        if is_marked(&self.blocks, block) {
            return Ok(());
        }
        note(&mut self.facts, Fact::Block(block))?;
        mark(&mut self.blocks, block);
        Ok(())
    }

    /// A definition reaches a use in an activation: the pair is noted, and waits there for the end of the decision that the
    /// use belongs to, its owner, where it has one. After `NoMemory` neither facts nor pairs that wait have changed.
    #[inline]
    pub fn reach(
        &mut self,
        pending: &mut Pending,
        owner: Option<u16>,
        definition: u16,
        user: u16,
        activation: u64,
    ) -> Result<(), NoMemory>
        ensures noted { OnOk result (Gains self.old self.new (λ f. f ≡ fact.Pair definition user)) }
        ensures waits { OnOk result ((w : Wait) → Contains pending.new w ↔ (Contains pending.old w ⊎ IsWait owner definition user activation w)) }
        ensures same { OnErr result (Same self.old self.new) }
        ensures unmoved { OnErr result (pending.new ≡ pending.old) }
        ensures there { Has self.old (fact.Pair definition user) → ((w : Wait) → IsWait owner definition user activation w → Contains pending.old w) → IsOk result }
    {
        if is_latest(&self.latest, user, definition) {
            return wait(pending, owner, definition, user, activation);
        }
        reach(
            &mut self.facts,
            pending,
            owner,
            definition,
            user,
            activation,
        )?;
        set_latest(&mut self.latest, user, definition);
        Ok(())
    }

    /// A decision ends with an outcome in an activation: the outcome is noted, and the p-uses of the pairs that wait for it
    /// there, which then wait no longer. After `NoMemory` neither facts nor pairs that wait have changed.
    #[inline]
    pub fn settle(
        &mut self,
        pending: &mut Pending,
        decision: u16,
        outcome: u32,
        activation: u64,
    ) -> Result<(), NoMemory>
        ensures noted { OnOk result (Gains self.old self.new (λ f. Contains (settled decision outcome (those_in activation pending.old)) f)) }
        ensures waits { OnOk result (pending.new ≡ others decision activation pending.old) }
        ensures same { OnErr result (Same self.old self.new) }
        ensures unmoved { OnErr result (pending.new ≡ pending.old) }
        ensures there { ((f : Fact) → Contains (settled decision outcome (those_in activation pending.old)) f → Has self.old f) → IsOk result }
    {
        settle(&mut self.facts, pending, decision, outcome, activation)
    }
}

// Whether the block with that number is marked.
#[inline(always)]
fn is_marked(blocks: &[bool], block: u16) -> bool
    ensures { IsTrue result → slice_get blocks.now block ≡ Some true }
{
    (block as usize) < blocks.len() && blocks[block as usize]
}

// Marks a block, unless memory is wanted.
fn mark(blocks: &mut Vec<bool>, block: u16)
    ensures { (k : ℕ) → slice_get blocks.new.items k ≡ Some true → (slice_get blocks.old.items k ≡ Some true) ⊎ (k ≡ block) }
{
    while blocks.len() <= block as usize {
        if blocks.push(false).is_err() {
            return;
        }
    }
    blocks[block as usize] = true;
}

// Whether the last pair that was noted of a use is that with this definition.
#[inline(always)]
fn is_latest(latest: &[Option<u16>], user: u16, definition: u16) -> bool
    ensures { IsTrue result → slice_get latest.now user ≡ Some (Some definition) }
{
    if user as usize >= latest.len() {
        return false;
    }
    match latest[user as usize] {
        Some(last) => last == definition,
        None => false,
    }
}

// Keeps the pair as the last one of its use, unless memory is wanted.
fn set_latest(latest: &mut Vec<Option<u16>>, user: u16, definition: u16)
    ensures { (u d : ℕ) → slice_get latest.new.items u ≡ Some (Some d) → (slice_get latest.old.items u ≡ Some (Some d)) ⊎ ((u ≡ user) × (d ≡ definition)) }
{
    while latest.len() <= user as usize {
        if latest.push(None).is_err() {
            return;
        }
    }
    latest[user as usize] = Some(definition);
}
