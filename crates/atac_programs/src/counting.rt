//! How many blocks, decisions, definitions and uses the program of a text has.

ghost use Rattle.std.specs.Prelude.{◌≡◌, ◌≤◌, length, string_bytes, IfOk};
ghost use Rattle.atac_programs.specs.Programs.{counts_text};
ghost use Rattle.atac_programs.specs.Understanding.{CountedAs, counts_told};

use crate::checking::said;
use c_base::place::NoMemory;
use c_front::{FrontRefusal, read};
use c_lex::TextKind;
use c_sites::SiteRefusal;
use c_sites_counts::SiteCounts;
use std::alloc::Global;

/// What comes of counting: why the text is not accepted, or the line that tells how many there are.
#[derive(Drop)]
pub enum Counting {
    Refuses(String),
    Counts(String),
}

/// Checks the text of a program, as `checking::check` does, and counts its items; the leaf names of its sites are not made.
pub fn count(alloc: Global, text: &[u8]) -> Result<Counting, NoMemory>
    requires { length text.now ≤ 1048576 }
    ensures { IfOk result (CountedAs text.now) }
{
    let program = match read(alloc, text, TextKind::Plain) {
        Ok(program) => program,
        Err(FrontRefusal::NoMemory) => return Err(NoMemory),
        Err(FrontRefusal::At(number, pos)) => {
            return Ok(Counting::Refuses(said(alloc, number, pos)?));
        }
    };
    match c_sites_counts::count(alloc, &program) {
        Ok(counts) => Ok(Counting::Counts(line_of(alloc, counts)?)),
        Err(SiteRefusal::NoMemory) => Err(NoMemory),
        Err(SiteRefusal::At(number, pos)) => Ok(Counting::Refuses(said(alloc, number, pos)?)),
    }
}

// The line that tells how many blocks, decisions, definitions and uses there are.
fn line_of(alloc: Global, counts: SiteCounts) -> Result<String, NoMemory>
    ensures { IfOk result (λ s. string_bytes s ≡ counts_text (counts_told counts)) }
{
    match format!(in alloc;
        "accepted: {} blocks, {} decisions, {} definitions, {} uses\n",
        counts.blocks, counts.decisions, counts.defs, counts.uses
    ) {
        Ok(line) => Ok(line),
        Err(_) => Err(NoMemory),
    }
}
