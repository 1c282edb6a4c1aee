//! The rows of a trace: as a tally, or as the bytes that they were read from.

ghost use Rattle.std.specs.Prelude.{◌≡◌, ◌+◌, min, [], IsTrue, OnOk, OnErr, IfOk};
ghost use Rattle.atac_facts.specs.declared.fact.Fact.{Fact};
ghost use Rattle.atac_facts.specs.Sets.{holds};
ghost use Rattle.atac_facts.specs.Tallies.{count_of, is_met};
ghost use Rattle.atac_facts.specs.Sums.{most, AreSmall};
ghost use Rattle.trace_file.specs.Reading.{file_rows};
ghost use Rattle.trace_file.specs.Rows.{seen_rows};
ghost use Rattle.trace_file.specs.Sound.{Orderly};
ghost use Rattle.trace_file.specs.Sums.{AreSound, AreRows};

use crate::reading::{facts_in, tally_in};
use crate::sums::{add_tally, are_rows};
use atac_facts::facts::{Facts, union_into};
use atac_facts::tally::{Counted, Tally};
use c_base::place::NoMemory;
use std::alloc::Global;
use std::marker::Model;

/// Facts with their counts, in the order of the facts. Contracts see them as a list.
///
/// Rows that were read are kept as the bytes of their file until a tally of them is wanted.
#[derive(Drop)]
pub struct Rows {
    made: Tally,
    read: Option<Vec<u8>>,
}

// What rows are kept as.
pub(crate) enum Seen<'a> {
    Made(&'a [Counted]),
    Read(&'a [u8]),
}

impl Model for Rows {
    ghost use Rattle.std.specs.Prelude.{List};
    ghost use Rattle.atac_facts.specs.declared.tally.Counted.{Counted};
    ghost use Rattle.trace_file.specs.Rows.{kept_rows, AreOrderly};

    ghost Value = { List Counted };

    ghost view = { λ r. kept_rows r.made r.read };

    ghost invariant = { λ r. AreOrderly r.read };
}

impl Rows {
    /// No fact.
    pub fn new(alloc: Global) -> Rows
        ensures { result ≡ [] }
    {
        Rows {
            made: Tally::new(alloc),
            read: None,
        }
    }

    // The rows in the bytes of a trace file.
    pub(crate) fn read(alloc: Global, bytes: Vec<u8>) -> Rows
        requires { Orderly 0 (file_rows bytes.items) }
        ensures { result ≡ file_rows bytes.items }
    {
        Rows {
            made: Tally::new(alloc),
            read: Some(bytes),
        }
    }

    /// A tally of them.
    pub fn tally(self, alloc: Global) -> Result<Tally, NoMemory>
        ensures { IfOk result (λ tally. tally ≡ self) }
    {
        let Rows { made, read } = self;
        match read {
            None => Ok(made),
            Some(bytes) => tally_in(alloc, bytes.as_slice()),
        }
    }

    /// The facts that were met.
    pub fn facts(&self, alloc: Global) -> Result<Facts, NoMemory>
        ensures { IfOk result (λ facts. (fact : Fact) → holds facts fact ≡ is_met self.now fact) }
    {
        match &self.read {
            None => {
                let mut facts = Facts::new(alloc);
                union_into(&mut facts, self.made.facts())?;
                Ok(facts)
            }
            Some(bytes) => facts_in(alloc, bytes.as_slice()),
        }
    }

    /// No count is past the end of its type.
    pub fn are_small(&self)
        ensures { AreSmall self.now }
    {
        let _rows = self.made.rows();
    }

    // What they are kept as.
    pub(crate) fn seen(&self) -> Seen<'_>
        ensures { seen_rows result ≡ self.now }
    {
        match &self.read {
            None => Seen::Made(self.made.rows()),
            Some(bytes) => Seen::Read(bytes.as_slice()),
        }
    }

    // Whether there are none, as far as is seen at once.
    fn is_new(&self) -> bool
        ensures { IsTrue result → self.now ≡ [] }
    {
        match &self.read {
            None => self.made.rows().is_empty(),
            Some(_) => false,
        }
    }

    /// Adds the counts of a tally, each stopping at 4,294,967,295.
    pub(crate) fn add_tally(&mut self, alloc: Global, from: &Tally) -> Result<(), NoMemory>
        ensures counts { OnOk result ((fact : Fact) → count_of self.new fact ≡ min (count_of self.old fact + count_of from.now fact) most) }
        ensures facts { OnOk result (AreSound self.new → Orderly 0 self.new) }
        ensures sound { OnOk result (Orderly 0 self.old → Orderly 0 from.now → Orderly 0 self.new) }
        ensures rows { OnOk result (AreRows self.new) }
        ensures err { OnErr result (self.new ≡ self.old) }
    {
        match &self.read {
            None => {
                add_tally(&mut self.made, from)?;
                are_rows(&self.made);
                Ok(())
            }
            Some(bytes) => {
                let mut sum = tally_in(alloc, bytes.as_slice())?;
                add_tally(&mut sum, from)?;
                are_rows(&sum);
                *self = Rows {
                    made: sum,
                    read: None,
                };
                Ok(())
            }
        }
    }

    /// Adds the counts of further rows, each stopping at 4,294,967,295.
    pub(crate) fn add(&mut self, alloc: Global, from: Rows) -> Result<(), NoMemory>
        ensures counts { OnOk result ((fact : Fact) → count_of self.new fact ≡ min (count_of self.old fact + count_of from fact) most) }
        ensures sound { OnOk result (Orderly 0 self.old → Orderly 0 from → Orderly 0 self.new) }
        ensures err { OnErr result (self.new ≡ self.old) }
    {
        if self.is_new() {
            from.are_small();
            *self = from;
            return Ok(());
        }
        let tally = from.tally(alloc)?;
        self.add_tally(alloc, &tally)?;
        Ok(())
    }
}
