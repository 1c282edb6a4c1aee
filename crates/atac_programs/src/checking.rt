// Whether a text is a program that is accepted.

ghost use Rattle.std.specs.Prelude.{◌≡◌, ◌≤◌, length, string_bytes, IfOk};
ghost use Rattle.atac_programs.specs.Programs.{refusal_text};
ghost use Rattle.atac_programs.specs.Understanding.{CheckedAs};

use c_base::place::{NoMemory, Pos};
use c_front::names::name_of;
use c_front::{FrontRefusal, read};
use c_lex::TextKind;
use c_sites::{SiteRefusal, Sites, sites};
use c_tree::program::Program;
use std::alloc::Global;

/// What comes of checking a text: why it is not accepted, or its program and sites.
#[derive(Drop)]
pub enum Checking {
    Refuses(String),
    Accepts(Program, Sites),
}

/// Checks the text of a program: the front end's refusal, else that of its sites, else both.
pub fn check(alloc: Global, text: &[u8]) -> Result<Checking, NoMemory>
    requires { length text.now ≤ 1048576 }
    ensures { IfOk result (CheckedAs text.now) }
{
    let program = match read(alloc, text, TextKind::Plain) {
        Ok(program) => program,
        Err(FrontRefusal::NoMemory) => return Err(NoMemory),
        Err(FrontRefusal::At(number, pos)) => {
            return Ok(Checking::Refuses(said(alloc, number, pos)?));
        }
    };
    match sites(alloc, &program) {
        Ok(sites) => Ok(Checking::Accepts(program, sites)),
        Err(SiteRefusal::NoMemory) => Err(NoMemory),
        Err(SiteRefusal::At(number, pos)) => Ok(Checking::Refuses(said(alloc, number, pos)?)),
    }
}

/// What is said of a program that is refused: the place, the number and its name.
pub fn said(alloc: Global, number: u8, pos: Pos) -> Result<String, NoMemory>
    ensures { IfOk result (λ s. string_bytes s ≡ refusal_text number pos) }
{
    match format!(in alloc; ":{}:{}: {} {}", pos.line, pos.col, number, name_of(number)) {
        Ok(said) => Ok(said),
        Err(_) => Err(NoMemory),
    }
}
