//! Runs of a program of which some are picked, so that the others cover nothing besides.

ghost use Rattle.std.specs.Prelude.{◌≡◌, ◌≤◌, ◌++◌, ◌∷◌, [], ℕ, List, Some, IfOk, OnOk, map, string_bytes, length};
ghost use Rattle.atac_base.specs.Items.{ItemLists};
ghost use Rattle.c_meaning.specs.Calls.{Source};
ghost use Rattle.run_pick.specs.Lines.{pick_text};
ghost use Rattle.atac_words.specs.Words.{Pick};
ghost use Rattle.atac_steps.specs.Stops.{ended};
ghost use Rattle.atac_programs.specs.Programs.{shown};
ghost use Rattle.atac_programs.specs.Understanding.{Holds};
ghost use Rattle.atac_commands.specs.Runs.{Goes};
ghost use Rattle.atac_commands.specs.Gathering.{Gathers, GatherGoes, IsPickText};

use atac_base::facts::{Facts, union_into};
use atac_base::items::Items;
use atac_base::outside::{Shelf, Sink};
use atac_programs::program::{Reading, Understood, understand};
use atac_steps::{Stop, fetch, put};
use c_base::place::NoMemory;
use c_machine::run;
use c_tree::program::Program;
use cover_core::collector::Collector;
use run_pick::pick_text;
use std::alloc::Global;

/// The most bytes of a program.
const PROGRAM_MOST: u64 = 1_048_576;

/// The most bytes of an input.
const INPUT_MOST: u64 = 16_777_216;

/// Runs that were gathered so far: the program with its probes, its items, what collects the facts of one run, those of each run,
/// and those of all.
#[derive(Drop)]
pub struct Gathering {
    alloc: Global,
    probed: Program,
    items: Items,
    collector: Collector,
    runs: Vec<Facts>,
    all: Facts,
}

impl Gathering {
    // No run yet.
    fn new(alloc: Global, understood: Understood) -> Gathering
        ensures { (P : Source) (limit : ℕ) → Holds P understood → Gathers P understood.items limit [] result }
    {
        Gathering {
            alloc,
            probed: understood.probed,
            items: understood.items,
            collector: Collector::new(alloc, understood.owners),
            runs: Vec::new(alloc),
            all: Facts::new(alloc),
        }
    }

    // Runs the program on one input, and keeps the facts of this run.
    fn run_on(&mut self, limit: u64, input: &[u8]) -> Result<(), NoMemory>
        requires { limit ≤ 100000000 }
        ensures { OnOk result ((P : Source) (items : ItemLists) (all : List (List ℕ)) → Gathers P items limit all self.old → Gathers P items limit (all ++ input.now ∷ []) self.new) }
    {
        self.collector.begin_run();
        run(self.alloc, &self.probed, input, limit, &mut self.collector)?;
        let mut facts = Facts::new(self.alloc);
        union_into(&mut facts, self.collector.facts())?;
        union_into(&mut self.all, &facts)?;
        self.runs.push(facts)?;
        Ok(())
    }

    // Fetches the inputs and runs the program on each.
    fn gather<'a, S: Shelf>(
        &mut self,
        limit: u64,
        inputs: &'a [String],
        shelf: &mut S,
    ) -> Result<(), Stop<'a>>
        requires { limit ≤ 100000000 }
        ensures { (P : Source) (items : ItemLists) (got : List (List ℕ)) → Gathers P items limit got self.old → GatherGoes P items limit got (map string_bytes inputs.now) self.new (S.state shelf.old) (S.state shelf.new) result }
    {
        let Some((first, rest)) = inputs.split_first() else {
            return Ok(());
        };
        let bytes = fetch(self.alloc, shelf, first.as_str(), INPUT_MOST)?;
        self.run_on(limit, bytes.as_slice())?;
        self.gather(limit, rest, shelf)
    }

    // Says which of the runs on these inputs are kept, and the totals of all.
    fn text(&self, inputs: &[String]) -> Result<Vec<u8>, NoMemory>
        requires { length inputs.now ≡ length self.now.runs.items }
        ensures { IfOk result (λ text. (P : Source) (items : ItemLists) (limit : ℕ) (all : List (List ℕ)) → Gathers P items limit all self.now → IsPickText P items limit (map string_bytes inputs.now) all text.items) }
    {
        let picks = run_pick::pick(self.alloc, &self.items, self.runs.as_slice())?;
        let text = pick_text(self.alloc, &picks, inputs, &self.items, &self.all)?;
        Ok(text)
    }
}

/// Runs the program on each input, and puts which of these runs are kept, and the totals of all.
pub fn pick<'a, S: Shelf, W: Sink>(
    alloc: Global,
    limit: u64,
    program: &'a str,
    inputs: &'a [String],
    shelf: &mut S,
    out: &mut W,
) -> Result<(), Stop<'a>>
    requires { limit ≤ 100000000 }
    ensures { Goes (Some (Pick limit program.now (map string_bytes inputs.now))) (S.state shelf.old) (S.state shelf.new)
        (W.state out.old) (W.state out.new) (ended result) }
{
    let source = fetch(alloc, shelf, program, PROGRAM_MOST)?;
    let understood = match understand(alloc, source.as_slice())? {
        Reading::Refuses(said) => return Err(Stop::NotAccepted(program, said)),
        Reading::Covers(understood) => understood,
    };
    let mut gathering = Gathering::new(alloc, understood);
    gathering.gather(limit, inputs, shelf)?;
    let text = gathering.text(inputs)?;
    put(out, text.as_slice())
}
