//! Runs of a program on one input after the other, with what they cover.

ghost use Rattle.std.specs.Prelude.{◌≡◌, ◌≤◌, ◌++◌, ℕ, Bool, false, List, Some, IfOk, OnOk, map, string_bytes};
ghost use Rattle.c_meaning.specs.Calls.{Source};
ghost use Rattle.atac_facts.specs.declared.fact.Fact.{Fact};
ghost use Rattle.atac_base.specs.Items.{ItemLists};
ghost use Rattle.cover_report.specs.Texts.{report_text, totals_text};
ghost use Rattle.probe_watch.specs.Logs.{bytes_in};
ghost use Rattle.atac_words.specs.Words.{Cover};
ghost use Rattle.atac_steps.specs.Stops.{ended};
ghost use Rattle.atac_commands.specs.Runs.{Goes};
ghost use Rattle.atac_programs.specs.Programs.{section, shown, with_run};
ghost use Rattle.atac_programs.specs.Understanding.{Holds};
ghost use Rattle.atac_commands.specs.Progress.{Stands, SectionGoes};

use atac_base::facts::{Facts, union_into};
use atac_base::items::Items;
use atac_base::outside::{Shelf, Sink};
use atac_programs::program::{Reading, Understood, understand};
use atac_programs::sections::section_of_run;
use atac_steps::{Stop, fetch, put};
use c_base::place::NoMemory;
use c_machine::run;
use c_tree::program::Program;
use cover_core::collector::Collector;
use cover_report::{report, totals};
use std::alloc::Global;

/// The most bytes of a program.
const PROGRAM_MOST: u64 = 1_048_576;

/// The most bytes of an input.
const INPUT_MOST: u64 = 16_777_216;

/// A cover that has come so far: the program with its probes, its items, what collects the facts of one run, and those of the
/// runs so far.
#[derive(Drop)]
pub struct Covering {
    alloc: Global,
    probed: Program,
    items: Items,
    collector: Collector,
    facts: Facts,
}

impl Covering {
    /// No run yet.
    pub fn new(alloc: Global, understood: Understood) -> Covering
        ensures { (P : Source) → Holds P understood → Stands P understood.items (λ f. false) result }
    {
        Covering {
            alloc,
            probed: understood.probed,
            items: understood.items,
            collector: Collector::new(alloc, understood.owners),
            facts: Facts::new(alloc),
        }
    }

    // Runs the program on one input: the section of this run. The facts of the runs so far gain those of this one.
    fn run_on(&mut self, limit: u64, name: &str, input: &[u8]) -> Result<Vec<u8>, NoMemory>
        requires { limit ≤ 100000000 }
        ensures section { IfOk result (λ text. (P : Source) (items : ItemLists) (has : Fact → Bool) → Stands P items has self.old → text.items ≡ section name.now P input.now limit) }
        ensures stands { IfOk result (λ text. (P : Source) (items : ItemLists) (has : Fact → Bool) → Stands P items has self.old → Stands P items (with_run P limit input.now has) self.new) }
    {
        self.collector.begin_run();
        let ended = run(self.alloc, &self.probed, input, limit, &mut self.collector)?;
        let section = section_of_run(self.alloc, name, &ended)?;
        union_into(&mut self.facts, self.collector.facts())?;
        Ok(section)
    }

    // Fetches one input, runs the program on it, and puts the section.
    fn cover_one<'a, S: Shelf, W: Sink>(
        &mut self,
        limit: u64,
        input: &'a str,
        shelf: &mut S,
        out: &mut W,
    ) -> Result<(), Stop<'a>>
        requires { limit ≤ 100000000 }
        ensures { (P : Source) (items : ItemLists) (has : Fact → Bool) → Stands P items has self.old → SectionGoes input.now P items limit has self.new (S.state shelf.old) (S.state shelf.new) (W.state out.old) (W.state out.new) result }
    {
        let bytes = fetch(self.alloc, shelf, input, INPUT_MOST)?;
        let section = self.run_on(limit, input, bytes.as_slice())?;
        put(out, section.as_slice())
    }

    /// Runs the program on each input.
    pub fn run_on_all(&mut self, limit: u64, inputs: &[Vec<u8>]) -> Result<(), NoMemory>
        requires { limit ≤ 100000000 }
        ensures { OnOk result ((P : Source) (items : ItemLists) (got : List (List ℕ)) → Stands P items (shown P limit got) self.old → Stands P items (shown P limit (got ++ map bytes_in inputs.now)) self.new) }
    {
        let Some((first, rest)) = inputs.split_first() else {
            return Ok(());
        };
        self.run_on(limit, "", first.as_slice())?;
        self.run_on_all(limit, rest)?;
        Ok(())
    }

    /// The program with its probes.
    pub fn probed(&self) -> &Program
        ensures { result.now ≡ self.now.probed }
    {
        &self.probed
    }

    /// The totals of what the runs so far cover.
    pub fn totals(&self) -> Result<Vec<u8>, NoMemory>
        ensures { IfOk result (λ text. (P : Source) (items : ItemLists) (has : Fact → Bool) → Stands P items has self.now → text.items ≡ totals_text items has) }
    {
        let text = totals(self.alloc, &self.items, &self.facts)?;
        Ok(text)
    }

    // The report of what the runs so far cover.
    fn report(&self) -> Result<Vec<u8>, NoMemory>
        ensures { IfOk result (λ text. (P : Source) (items : ItemLists) (has : Fact → Bool) → Stands P items has self.now → text.items ≡ report_text items has) }
    {
        let text = report(self.alloc, &self.items, &self.facts)?;
        Ok(text)
    }
}

/// Runs the program on each input, puts the section of each run, and then the report.
pub fn cover<'a, S: Shelf, W: Sink>(
    alloc: Global,
    limit: u64,
    program: &'a str,
    inputs: &'a [String],
    shelf: &mut S,
    out: &mut W,
) -> Result<(), Stop<'a>>
    requires { limit ≤ 100000000 }
    ensures { Goes (Some (Cover limit program.now (map string_bytes inputs.now))) (S.state shelf.old) (S.state shelf.new)
        (W.state out.old) (W.state out.new) (ended result) }
{
    let source = fetch(alloc, shelf, program, PROGRAM_MOST)?;
    let understood = match understand(alloc, source.as_slice())? {
        Reading::Refuses(said) => return Err(Stop::NotAccepted(program, said)),
        Reading::Covers(understood) => understood,
    };
    let mut covering = Covering::new(alloc, understood);
    for input in inputs {
        covering.cover_one(limit, input.as_str(), shelf, out)?;
    }
    let report = covering.report()?;
    put(out, report.as_slice())
}
