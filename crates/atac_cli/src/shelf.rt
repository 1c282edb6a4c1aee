//! The files of the machine as a shelf.

ghost use Rattle.std.specs.Prelude.{◌≡◌, ◌≤◌, false, None};
ghost use Rattle.atac_cli.specs.Reading.{ReadsUpTo};

use crate::keeping::replace;
use atac_base::outside::{FetchErr, Fetched, KeepErr, Shelf};
use std::fs;
use std::io::{ErrorKind, Read};
use std::rt::Files;

/// The files of the machine, from the current folder on. It tells nothing.
///
/// A name is absent where nothing has it, where a folder on its path is missing, and where a file stands in a
/// folder's place. The empty name names no file, so it is absent. Every other failure is a fault, as that of a
/// read from a folder. Both counts begin at 0.
///
/// A file that is kept is written under another name first, NAME.atac-0 or one like it, and then put in the old one's
/// place: so whatever ends the program leaves the old file or the new one, and may leave one of the other name.
#[derive(Drop)]
pub struct FolderShelf<R: Files + AllocGlobal + Clone + Drop> {
    rt: R,
    read_faults: u64,
    keep_faults: u64,
}

impl<R: Files + AllocGlobal + Clone + Drop> FolderShelf<R> {
    /// The shelf of the machine's files.
    pub fn new(rt: R) -> FolderShelf<R>
        ensures { ⟦<FolderShelf<R> as Shelf>⟧.state result ≡ record { tells = false; says = (λ name. None); read_faults = 0; keep_faults = 0 } }
    {
        FolderShelf {
            rt,
            read_faults: 0,
            keep_faults: 0,
        }
    }
}

/// How a reading went.
enum ReadEnd {
    End,
    Full,
    Failed,
    NoMemory,
}

/// Reads to the end, or until one byte more than `most` was read.
fn read_up_to<F: Read>(file: &mut F, most: u64, into: &mut Vec<u8>) -> ReadEnd
    ensures { ReadsUpTo most result into.new.items }
{
    into.clear();
    let mut buffer = [0u8; 4096];
    for _ in 0..u64::MAX {
        let room = (most - into.len() as u64).min(4095) as usize + 1;
        match file.read(&mut buffer[..room]) {
            Ok(0) => return ReadEnd::End,
            Ok(count) => {
                if into.len() as u64 + count as u64 > most {
                    return ReadEnd::Full;
                }
                if into.extend_from_slice(&buffer[..count]).is_err() {
                    return ReadEnd::NoMemory;
                }
            }
            Err(error) => {
                if error.kind() != ErrorKind::Interrupted {
                    return ReadEnd::Failed;
                }
            }
        }
    }
    ReadEnd::Failed
}

impl<R: Files + AllocGlobal + Clone + Drop> Shelf for FolderShelf<R> {
    ghost state = { λ shelf. record { tells = false; says = (λ name. None); read_faults = shelf.read_faults; keep_faults = shelf.keep_faults } };

    fn fetch(&mut self, name: &str, most: u64, into: &mut Vec<u8>) -> Result<Fetched, FetchErr> {
        let mut file = match fs::open(&self.rt, name) {
            Ok(file) => file,
            Err(error) => {
                into.clear();
                return match error.kind() {
                    ErrorKind::NotFound | ErrorKind::NotADirectory => Ok(Fetched::Absent),
                    ErrorKind::OutOfMemory => Err(FetchErr::NoMemory),
                    _ => {
                        self.read_faults = self.read_faults.saturating_add(1);
                        Err(FetchErr::Failed)
                    }
                };
            }
        };
        match read_up_to(&mut file, most, into) {
            ReadEnd::End => Ok(Fetched::Whole),
            ReadEnd::Full => {
                into.clear();
                Ok(Fetched::Long)
            }
            ReadEnd::Failed => {
                into.clear();
                self.read_faults = self.read_faults.saturating_add(1);
                Err(FetchErr::Failed)
            }
            ReadEnd::NoMemory => {
                into.clear();
                Err(FetchErr::NoMemory)
            }
        }
    }

    fn keep(&mut self, name: &str, bytes: &[u8]) -> Result<(), KeepErr> {
        match replace(&self.rt, name, bytes) {
            Ok(()) => Ok(()),
            Err(error) => match error.kind() {
                ErrorKind::OutOfMemory => Err(KeepErr::NoMemory),
                _ => {
                    self.keep_faults = self.keep_faults.saturating_add(1);
                    Err(KeepErr::Failed)
                }
            },
        }
    }
}
