//! Facts with how often each was met.

ghost use Rattle.std.specs.Prelude.{◌≡◌, ◌≢◌, ◌+◌, min, ◌≤◌, ◌<◌, [], ◌∷◌, ◌++◌, OnOk, OnErr, IfOk, IfErr, nat_le};
ghost use Rattle.atac_facts.specs.declared.fact.Fact.{Fact};
ghost use Rattle.atac_facts.specs.Facts.{rank};
ghost use Rattle.atac_facts.specs.Sets.{holds};
ghost use Rattle.atac_facts.specs.Tallies.{AscendsFrom, end_from, count_of, is_met, pairs_of};
ghost use Rattle.atac_facts.specs.Sums.{AreSmall, most};
ghost use Rattle.atac_facts.specs.Pairs.{IsAt, IsGapFor};

use crate::fact::Fact;
use crate::facts::Facts;
use crate::sum::add_to;
use c_base::place::NoMemory;
use std::alloc::Global;
use std::marker::Model;

/// A fact, and how often it was met.
#[derive(Clone, Copy, Debug, PartialEq, Eq)]
pub struct Counted {
    pub fact: Fact,
    pub count: u32,
}

/// A finite map from facts to counts of at least 1. Contracts see it as its rows, in the order of the facts.
#[derive(Drop)]
pub struct Tally {
    facts: Facts,
    rows: Vec<Counted>,
}

impl Model for Tally {
    ghost use Rattle.std.specs.Prelude.{List};
    ghost use Rattle.atac_facts.specs.declared.tally.Counted.{Counted};
    ghost use Rattle.atac_facts.specs.Tallies.{AscendsFrom, HasMet};
    ghost use Rattle.atac_facts.specs.Sums.{AreSmall};

    ghost Value = { List Counted };

    ghost view = { λ t. t.rows.items };

    ghost invariant = { λ t. AscendsFrom 0 t.rows.items × HasMet t.facts t.rows.items × AreSmall t.rows.items };
}

impl Tally {
    /// No fact.
    pub fn new(alloc: Global) -> Tally
        ensures { result ≡ [] }
    {
        Tally {
            facts: Facts::new(alloc),
            rows: Vec::new(alloc),
        }
    }

    /// Whether all facts of the map stand before this one.
    pub fn may_end_with(&self, fact: Fact) -> bool
        ensures { result ≡ nat_le (end_from 0 self.now) (rank fact) }
    {
        match self.rows.last() {
            None => true,
            Some(row) => row.fact.is_before(fact),
        }
    }

    /// Appends a fact behind all others.
    pub fn append(&mut self, fact: Fact, count: u32) -> Result<(), NoMemory>
        requires last { end_from 0 self.old ≤ rank fact }
        requires met { 1 ≤ count }
        ensures ok { OnOk result (self.new ≡ self.old ++ record { fact = fact; count = count } ∷ []) }
        ensures err { OnErr result (self.new ≡ self.old) }
    {
        self.rows.reserve(1)?;
        self.facts.add(fact)?;
        match self.rows.push(Counted { fact, count }) {
            Ok(()) => Ok(()),
            Err(_) => unreachable!(),
        }
    }

    /// Makes room for so many facts behind the others.
    pub fn room(&mut self, n: u32) -> Result<(), NoMemory>
        ensures { self.new ≡ self.old }
    {
        match self.rows.reserve(n as usize) {
            Ok(()) => Ok(()),
            Err(_) => Err(NoMemory),
        }
    }

    /// Adds to a fact's count, stopping at 4,294,967,295.
    pub fn add(&mut self, fact: Fact, by: u32) -> Result<(), NoMemory>
        requires { 1 ≤ by }
        ensures there { OnOk result (count_of self.new fact ≡ min (count_of self.old fact + by) most) }
        ensures others { OnOk result ((other : Fact) → rank other ≢ rank fact → count_of self.new other ≡ count_of self.old other) }
        ensures err { OnErr result (self.new ≡ self.old) }
    {
        add_to(self, fact, by)
    }

    /// How often a fact was met.
    pub fn count(&self, fact: Fact) -> u32
        ensures { result ≡ count_of self.now fact }
    {
        match self.search(fact) {
            Ok(at) => self.rows[at].count,
            Err(_) => 0,
        }
    }

    // Where the row of a fact is, or where it would go.
    fn search(&self, fact: Fact) -> Result<usize, usize>
        ensures found { IfOk result (IsAt (pairs_of self.now) (rank fact)) }
        ensures absent { IfErr result (IsGapFor (pairs_of self.now) (rank fact)) }
    {
        self.rows
            .binary_search_by_key(&fact.rank(), |row| row.fact.rank())
    }

    /// The facts that were met.
    pub fn facts(&self) -> &Facts
        ensures { (fact : Fact) → holds result.now fact ≡ is_met self.now fact }
    {
        &self.facts
    }

    pub(crate) fn alloc(&self) -> Global {
        *self.rows.allocator()
    }

    /// The facts with their counts, in order.
    pub fn rows(&self) -> &[Counted]
        ensures value { result.now ≡ self.now }
        ensures ordered { AscendsFrom 0 self.now }
        ensures small { AreSmall self.now }
    {
        &self.rows
    }
}
