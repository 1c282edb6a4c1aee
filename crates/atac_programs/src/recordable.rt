//! Programs whose runs go into a trace, from their texts on.

ghost use Rattle.std.specs.Prelude.{◌≤◌, length, IfOk};
ghost use Rattle.atac_programs.specs.Understanding.{RecordAs};

use crate::checking::said;
use crate::program::{Runnable, read_to_run};
use c_base::place::{NoMemory, Pos};
use c_events::owners::Owners;
use c_sites_probes::owners::probe_owners;
use c_tree::program::Program;
use std::alloc::Global;

/// The number of the refusal of a program without a program line, which is said of its first place.
const NOT_PROBED: u8 = 53;

/// A program whose runs go into a trace: the digest in its program line, and the owners of its use probes.
#[derive(Drop)]
pub struct Recordable {
    pub program: Program,
    pub owners: Owners,
    pub digest: [u8; 32],
}

/// What a text is read as that is to be run into a trace.
#[derive(Drop)]
pub enum Recording {
    Refuses(String),
    Records(Recordable),
}

/// Reads the text of a program that is to be run into a trace: why it is none, or the program.
pub fn read_to_record(alloc: Global, text: &[u8]) -> Result<Recording, NoMemory>
    requires { length text.now ≤ 67108864 }
    ensures { IfOk result (RecordAs text.now) }
{
    let program = match read_to_run(alloc, text)? {
        Runnable::Refuses(said) => return Ok(Recording::Refuses(said)),
        Runnable::Runs(program) => program,
    };
    let Some(digest) = program.digest() else {
        let place = Pos { line: 1, col: 1 };
        return Ok(Recording::Refuses(said(alloc, NOT_PROBED, place)?));
    };
    let owners = probe_owners(alloc, &program)?;
    Ok(Recording::Records(Recordable {
        program,
        owners,
        digest,
    }))
}
