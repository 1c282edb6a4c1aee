//! The text of a program with its probes, from its text.

ghost use Rattle.std.specs.Prelude.{◌≡◌, ◌≤◌, length, IfOk};
ghost use Rattle.sha2.specs.Sha256.{sha256};
ghost use Rattle.atac_programs.specs.Understanding.{ProbedAs};

use crate::checking::{Checking, check, said};
use c_base::place::{NoMemory, Pos};
use probe_in::instrument;
use probe_text::{TextRefusal, probed_text};
use sha2::{Digest, Sha256};
use std::alloc::Global;

/// What comes of a text whose text with probes is wanted: why there is none, or that text.
#[derive(Drop)]
pub enum Probing {
    Refuses(String),
    Probes(Vec<u8>),
}

/// The number of the refusal of a text with probes that passes the limits, which is said of the program's first place.
const PROBED_TOO_LARGE: u8 = 54;

/// The digest of a program's text.
pub fn digest_of(text: &[u8]) -> [u8; 32]
    ensures { result ≡ sha256 text.now }
{
    let mut digest = [0; 32];
    digest.copy_from_slice(Sha256::digest(text).as_slice());
    digest
}

/// Reads the text of a program and writes it with its probes, behind a line with its digest: why there is no such text, or it.
pub fn probe(alloc: Global, text: &[u8]) -> Result<Probing, NoMemory>
    requires { length text.now ≤ 1048576 }
    ensures { IfOk result (ProbedAs text.now) }
{
    let (program, sites) = match check(alloc, text)? {
        Checking::Refuses(said) => return Ok(Probing::Refuses(said)),
        Checking::Accepts(program, sites) => (program, sites),
    };
    let probed = instrument(alloc, &program, &sites, &digest_of(text))?;
    match probed_text(alloc, &probed) {
        Ok(text) => Ok(Probing::Probes(text)),
        Err(TextRefusal::TooLarge) => {
            let place = Pos { line: 1, col: 1 };
            Ok(Probing::Refuses(said(alloc, PROBED_TOO_LARGE, place)?))
        }
        Err(TextRefusal::NoMemory) => Err(NoMemory),
    }
}
