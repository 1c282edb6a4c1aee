//! Programs that are run or covered, from their texts on.

ghost use Rattle.std.specs.Prelude.{◌≡◌, ◌≤◌, length, IfOk};
ghost use Rattle.c_meaning.specs.Sources.{source_of};
ghost use Rattle.atac_programs.specs.Programs.{section};
ghost use Rattle.atac_programs.specs.Understanding.{ReadAs, RunAs, WatchAs};

use crate::checking::{Checking, check, said};
use crate::listing::{Itemising, itemise};
use crate::sections::section_of_run;
use atac_base::items::Items;
use atac_base::probes::Deaf;
use c_base::place::NoMemory;
use c_events::owners::Owners;
use c_front::{FrontRefusal, read};
use c_lex::TextKind;
use c_machine::run;
use c_sites_probes::owners::probe_owners;
use c_tree::program::Program;
use probe_in::instrument;
use std::alloc::Global;

// The digest in the program line of a program that is run at once and not written.
const NO_DIGEST: [u8; 32] = [0; 32];

/// A program that is to be covered: itself with its probes, the owners of these, and its items.
#[derive(Drop)]
pub struct Understood {
    pub probed: Program,
    pub owners: Owners,
    pub items: Items,
}

/// What a text is read as that is to be covered: refused, with what is said of it; or a program.
#[derive(Drop)]
pub enum Reading {
    Refuses(String),
    Covers(Understood),
}

/// What a text is read as that is to be run.
#[derive(Drop)]
pub enum Runnable {
    Refuses(String),
    Runs(Program),
}

/// What a text is read as whose run is to be watched: refused, with what is said of it; or the program with its probes.
#[derive(Drop)]
pub enum Watchable {
    Refuses(String),
    Watches(Program),
}

/// Reads the text of a program whose run is to be watched: why it is not accepted, or the program with its probes.
pub fn read_to_watch(alloc: Global, text: &[u8]) -> Result<Watchable, NoMemory>
    requires { length text.now ≤ 1048576 }
    ensures { IfOk result (WatchAs text.now) }
{
    let (program, sites) = match check(alloc, text)? {
        Checking::Refuses(said) => return Ok(Watchable::Refuses(said)),
        Checking::Accepts(program, sites) => (program, sites),
    };
    let probed = instrument(alloc, &program, &sites, &NO_DIGEST)?;
    Ok(Watchable::Watches(probed))
}

/// Reads the text of a program that is to be run, plain or with probes: why it is no program, or the program.
pub fn read_to_run(alloc: Global, text: &[u8]) -> Result<Runnable, NoMemory>
    requires { length text.now ≤ 67108864 }
    ensures { IfOk result (RunAs text.now) }
{
    match read(alloc, text, TextKind::Probed) {
        Ok(program) => Ok(Runnable::Runs(program)),
        Err(FrontRefusal::NoMemory) => Err(NoMemory),
        Err(FrontRefusal::At(number, pos)) => Ok(Runnable::Refuses(said(alloc, number, pos)?)),
    }
}

/// Reads the text of a program that is to be covered: why it is not accepted, or the program with its probes and items.
pub fn understand(alloc: Global, text: &[u8]) -> Result<Reading, NoMemory>
    requires { length text.now ≤ 1048576 }
    ensures { IfOk result (ReadAs text.now) }
{
    let (program, sites, items) = match itemise(alloc, text)? {
        Itemising::Refuses(said) => return Ok(Reading::Refuses(said)),
        Itemising::Has(program, sites, items) => (program, sites, items),
    };
    let probed = instrument(alloc, &program, &sites, &NO_DIGEST)?;
    let owners = probe_owners(alloc, &probed)?;
    Ok(Reading::Covers(Understood {
        probed,
        owners,
        items,
    }))
}

/// Runs the program on the input within so many turns, and makes the section of this run.
pub fn section_of(
    alloc: Global,
    program: &Program,
    limit: u64,
    input_name: &str,
    input: &[u8],
) -> Result<Vec<u8>, NoMemory>
    requires { limit ≤ 100000000 }
    ensures { IfOk result (λ text. text.items ≡ section input_name.now (source_of program.now) input.now limit) }
{
    let mut deaf = Deaf;
    let ended = run(alloc, program, input, limit, &mut deaf)?;
    let text = section_of_run(alloc, input_name, &ended)?;
    Ok(text)
}
