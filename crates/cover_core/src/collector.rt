//! The collector of a run's facts.

ghost use Rattle.std.specs.Prelude.{◌≡◌, ◌≢◌, ◌<◌, ◌≤◌, ℕ, Option, List, ◌∷◌, ◌++◌, IsOk, OnOk, OnErr};
ghost use Rattle.c_events.specs.declared.events.Cell.{Cell};
ghost use Rattle.c_events.specs.declared.events.Event.{Event};
ghost use Rattle.c_events.specs.declared.events.Event.TheVariants as event;
ghost use Rattle.cover_parts.specs.Covered.{IsFree};

use crate::noted::Noted;
use atac_base::probes::Probes;
use atac_facts::facts::Facts;
use c_base::place::NoMemory;
use c_events::events::Event;
use c_events::owners::Owners;
use cover_parts::pending::Pending;
use cover_parts::rows::Rows;
use std::alloc::Global;

/// Keeps the facts of the events that it sees, and no event: for each live cell its last definition, and the pairs that wait
/// for the end of a decision in an activation.
#[derive(Drop)]
pub struct Collector {
    alloc: Global,
    owners: Owners,
    rows: Rows,
    pending: Pending,
    facts: Noted,
}

impl Collector {
    ghost use Rattle.std.specs.Prelude.{◌≡◌, ◌↔◌, List, []};
    ghost use Rattle.c_events.specs.declared.events.Event.{Event};
    ghost use Rattle.c_events.specs.Owners.{owner_in};
    ghost use Rattle.atac_facts.specs.declared.fact.Fact.{Fact};
    ghost use Rattle.cover_parts.specs.Gaining.{Has};
    ghost use Rattle.cover_parts.specs.Covered.{Covered};
    ghost use Rattle.cover_parts.specs.Lives.{cells_of};
    ghost use Rattle.cover_core.specs.Stands.{owners_of, lives_in};

    /// No event yet, and no instance.
    #[tactic(auto, using(crate::proofs::Standing::none_stands))]
    pub fn new(alloc: Global, owners: Owners) -> Collector
        ensures stands { ⟦<Collector as Probes>⟧.stands_for result [] }
        ensures owners { owners_of result ≡ owners }
        ensures top { ⟦<Collector as Probes>⟧.top result ≡ 0 }
        ensures lives { lives_in result ≡ [] }
    {
        Collector {
            alloc,
            owners,
            rows: Rows::new(alloc),
            pending: Pending::new(alloc),
            facts: Noted::new(alloc),
        }
    }

    /// Forgets instances, definitions, pairs that wait, and facts: as new, with the same owners.
    #[tactic(auto, using(crate::proofs::Standing::none_stands))]
    pub fn begin_run(&mut self)
        ensures stands { ⟦<Collector as Probes>⟧.stands_for self.new [] }
        ensures owners { owners_of self.new ≡ owners_of self.old }
        ensures top { ⟦<Collector as Probes>⟧.top self.new ≡ 0 }
        ensures lives { lives_in self.new ≡ [] }
    {
        self.rows.clear();
        self.pending.clear();
        self.facts = Noted::new(self.alloc);
    }

    /// The facts of the events so far.
    pub fn facts(&self) -> &Facts
        ensures { (h : List Event) → ⟦<Collector as Probes>⟧.stands_for self.now h → (f : Fact) → Has result.now f ↔ Covered (owner_in (owners_of self.now)) h f }
    {
        self.facts.facts()
    }

    /// How many definition words it holds: one for each cell of an instance that was made and hasn't ended.
    pub fn held(&self) -> u64
        ensures { result ≡ cells_of (lives_in self.now) }
    {
        self.rows.held()
    }
}

/// Each definition is a free event, whatever was seen before it.
pub fn definitions_are_free()
    ensures { (owner : ℕ → Option ℕ) (h : List Event) (d : ℕ) (c : Cell) → IsFree owner h (event.Def d c) }
{}

impl Probes for Collector {
    ghost use Rattle.std.specs.Prelude.{◌≡◌, ◌≢◌, ◌<◌, ◌≤◌, List, [], ◌∷◌, ◌++◌, IsSome, IsOk, OnOk, OnErr};
    ghost use Rattle.c_events.specs.declared.events.Cell.{Cell};
    ghost use Rattle.c_events.specs.declared.events.Event.{Event};
    ghost use Rattle.c_events.specs.Owners.{owner_in};
    ghost use Rattle.atac_base.specs.Telling.{IsOf};
    ghost use Rattle.cover_parts.specs.Covered.{IsFree};
    ghost use Rattle.cover_parts.specs.Rows.{word_of};
    ghost use Rattle.cover_parts.specs.Lives.{less};
    ghost use Rattle.cover_core.specs.Stands.{StandsFor, owners_of, lives_in};

    ghost stands_for = { λ c h. StandsFor (owner_in c.owners) c.facts c.pending c.rows h };

    ghost takes = { λ c cell. IsSome (word_of c.rows.live cell) };

    ghost top = { λ c. c.rows.top };

    ghost free = { λ c e. (h : List Event) × StandsFor (owner_in c.owners) c.facts c.pending c.rows h × IsFree (owner_in c.owners) h e };

    ghost owners = { λ c. owners_of c };

    /// `NoMemory` where memory is wanted, or the event's cell is not one of a live instance: then nothing has changed.
    #[inline]
    fn see(&mut self, event: Event) -> Result<(), NoMemory>
        ensures seen { OnOk result ((h : List Event) → ⟦<Collector as Probes>⟧.stands_for self.old h → ⟦<Collector as Probes>⟧.stands_for self.new (h ++ event ∷ [])) }
        ensures kept { OnErr result ((h : List Event) → ⟦<Collector as Probes>⟧.stands_for self.old h → ⟦<Collector as Probes>⟧.stands_for self.new h) }
        ensures stay { (cell : Cell) → ⟦<Collector as Probes>⟧.takes self.old cell → ⟦<Collector as Probes>⟧.takes self.new cell }
        ensures below { ⟦<Collector as Probes>⟧.top self.new ≤ ⟦<Collector as Probes>⟧.top self.old }
        ensures frees { IsOf (⟦<Collector as Probes>⟧.takes self.old) event → ⟦<Collector as Probes>⟧.free self.old event → IsOk result }
        ensures lives { lives_in self.new ≡ lives_in self.old }
        ensures goes_by { ⟦<Collector as Probes>⟧.owners self.new ≡ ⟦<Collector as Probes>⟧.owners self.old }
    {
        match event {
            Event::Block(k) => self.facts.note_block(k),
            Event::Def(d, at) => {
                if self.rows.define(at, d) {
                    Ok(())
                } else {
                    Err(NoMemory)
                }
            }
            Event::Use(u, at, a) => {
                let Some(word) = self.rows.word(at) else {
                    return Err(NoMemory);
                };
                let Some(d) = word else {
                    return Ok(());
                };
                let owner = self.owners.of(u);
                self.facts.reach(&mut self.pending, owner, d, u, a)
            }
            Event::Test(k, o, a) => self.facts.settle(&mut self.pending, k, o, a),
        }
    }

    /// `NoMemory` where memory is wanted, where the number is not above that of each instance made before, or where the cells
    /// are more than 64 bits count: then nothing has changed.
    fn made(&mut self, instance: u64, cells: u32) -> Result<(), NoMemory>
        ensures kept { (h : List Event) → ⟦<Collector as Probes>⟧.stands_for self.old h → ⟦<Collector as Probes>⟧.stands_for self.new h }
        ensures taken { OnOk result (⟦<Collector as Probes>⟧.top self.old < instance → (cell : Cell) → cell.instance ≡ instance → cell.index < cells → ⟦<Collector as Probes>⟧.takes self.new cell) }
        ensures stay { (cell : Cell) → ⟦<Collector as Probes>⟧.takes self.old cell → ⟦<Collector as Probes>⟧.takes self.new cell }
        ensures below { ⟦<Collector as Probes>⟧.top self.old < instance → ⟦<Collector as Probes>⟧.top self.new ≤ instance }
        ensures lives { OnOk result (lives_in self.new ≡ lives_in self.old ++ (instance, cells) ∷ []) }
        ensures unmade { OnErr result (lives_in self.new ≡ lives_in self.old) }
        ensures goes_by { ⟦<Collector as Probes>⟧.owners self.new ≡ ⟦<Collector as Probes>⟧.owners self.old }
    {
        self.rows.make(instance, cells)
    }

    fn ended(&mut self, instance: u64)
        ensures kept { (h : List Event) → ⟦<Collector as Probes>⟧.stands_for self.old h → ⟦<Collector as Probes>⟧.stands_for self.new h }
        ensures stay { (cell : Cell) → cell.instance ≢ instance → ⟦<Collector as Probes>⟧.takes self.old cell → ⟦<Collector as Probes>⟧.takes self.new cell }
        ensures below { ⟦<Collector as Probes>⟧.top self.new ≤ ⟦<Collector as Probes>⟧.top self.old }
        ensures lives { lives_in self.new ≡ less instance (lives_in self.old) }
        ensures goes_by { ⟦<Collector as Probes>⟧.owners self.new ≡ ⟦<Collector as Probes>⟧.owners self.old }
    {
        self.rows.end(instance);
    }
}
