//! Shelves and sinks in memory.

ghost use Rattle.std.specs.Prelude.{◌≡◌, ◌≢◌, ◌≤◌, ◌↔◌, ◌++◌, List, [], ℕ, Some, None, true, OnOk, IsErrOf, OnErr};
ghost use Rattle.std.specs.BTreeMap.{IsEmpty};
ghost use Rattle.atac_base.specs.Outside.{said_by, empty_shelf, empty_sink, Fetches, Counts, IsFront};

use crate::outside::{FetchErr, Fetched, KeepErr, PutErr, Shelf, Sink};
use std::alloc::Global;
use std::collections::BTreeMap;

type Files = BTreeMap<String, Vec<u8>>;

/// Looks a name up, and copies its bytes where they are few enough.
fn fetch_from(files: &Files, name: &str, most: u64, into: &mut Vec<u8>) -> Result<Fetched, FetchErr>
    ensures found { Fetches (said_by files.now name.now) most result into.new.items }
    ensures failed { IsErrOf result FetchErr.Failed → ⊥ }
{
    into.clear();
    match files.get(name) {
        None => Ok(Fetched::Absent),
        Some(bytes) => {
            if bytes.len() as u64 > most {
                return Ok(Fetched::Long);
            }
            match into.extend_from_slice(bytes.as_slice()) {
                Ok(()) => Ok(Fetched::Whole),
                Err(_) => Err(FetchErr::NoMemory),
            }
        }
    }
}

/// Puts a copy of the bytes under the name.
fn keep_in(alloc: Global, files: &mut Files, name: &str, bytes: &[u8]) -> Result<(), KeepErr>
    ensures kept { OnOk result (said_by files.new name.now ≡ Some (Some bytes.now)) }
    ensures others { (other : List ℕ) → other ≢ name.now → said_by files.new other ≡ said_by files.old other }
    ensures failed { IsErrOf result KeepErr.Failed → ⊥ }
{
    let Ok(copy) = Vec::from_slice(alloc, bytes) else {
        return Err(KeepErr::NoMemory);
    };
    let Ok(key) = String::from_str(alloc, name) else {
        return Err(KeepErr::NoMemory);
    };
    match files.insert(key, copy) {
        Ok(_) => Ok(()),
        Err(_) => Err(KeepErr::NoMemory),
    }
}

/// A shelf in memory, whose fetches and keeps with the listed numbers fail. They are counted from 1, each kind by itself.
#[derive(Drop)]
pub struct MemoryShelf {
    alloc: Global,
    files: Files,
    fetches: u64,
    keeps: u64,
    fail_fetch: Vec<u64>,
    fail_keep: Vec<u64>,
    read_faults: u64,
    keep_faults: u64,
}

impl MemoryShelf {
    ghost use Rattle.atac_base.specs.Memory.{fetches_of, keeps_of};

    /// A shelf that holds no name.
    pub fn new(alloc: Global, fail_fetch: Vec<u64>, fail_keep: Vec<u64>) -> MemoryShelf
        ensures state { ⟦<MemoryShelf as Shelf>⟧.state result ≡ empty_shelf }
        ensures fetches { fetches_of result ≡ record { made = 0; failing = fail_fetch.items } }
        ensures keeps { keeps_of result ≡ record { made = 0; failing = fail_keep.items } }
    {
        MemoryShelf {
            alloc,
            files: BTreeMap::new(alloc),
            fetches: 0,
            keeps: 0,
            fail_fetch,
            fail_keep,
            read_faults: 0,
            keep_faults: 0,
        }
    }
}

impl Shelf for MemoryShelf {
    ghost use Rattle.atac_base.specs.Memory.{fetches_of, keeps_of, with_one_more, IsListed};

    ghost state = { λ shelf. record { tells = true; says = said_by shelf.files; read_faults = shelf.read_faults; keep_faults = shelf.keep_faults } };

    fn fetch(&mut self, name: &str, most: u64, into: &mut Vec<u8>) -> Result<Fetched, FetchErr>
        ensures found { Fetches (said_by self.old.files name.now) most result into.new.items }
        ensures files { self.new.files ≡ self.old.files }
        ensures read_faults { Counts self.old.read_faults self.new.read_faults (IsErrOf result FetchErr.Failed) }
        ensures keep_faults { self.new.keep_faults ≡ self.old.keep_faults }
        ensures fetches { fetches_of self.new ≡ with_one_more (fetches_of self.old) }
        ensures keeps { keeps_of self.new ≡ keeps_of self.old }
        ensures failed { IsErrOf result FetchErr.Failed ↔ IsListed (fetches_of self.new) }
    {
        self.fetches = self.fetches.saturating_add(1);
        if self.fail_fetch.contains(&self.fetches) {
            into.clear();
            self.read_faults = self.read_faults.saturating_add(1);
            return Err(FetchErr::Failed);
        }
        fetch_from(&self.files, name, most, into)
    }

    fn keep(&mut self, name: &str, bytes: &[u8]) -> Result<(), KeepErr>
        ensures kept { OnOk result (said_by self.new.files name.now ≡ Some (Some bytes.now)) }
        ensures others { (other : List ℕ) → other ≢ name.now → said_by self.new.files other ≡ said_by self.old.files other }
        ensures read_faults { self.new.read_faults ≡ self.old.read_faults }
        ensures keep_faults { Counts self.old.keep_faults self.new.keep_faults (IsErrOf result KeepErr.Failed) }
        ensures fetches { fetches_of self.new ≡ fetches_of self.old }
        ensures keeps { keeps_of self.new ≡ with_one_more (keeps_of self.old) }
        ensures failed { IsErrOf result KeepErr.Failed ↔ IsListed (keeps_of self.new) }
    {
        self.keeps = self.keeps.saturating_add(1);
        if self.fail_keep.contains(&self.keeps) {
            self.keep_faults = self.keep_faults.saturating_add(1);
            return Err(KeepErr::Failed);
        }
        keep_in(self.alloc, &mut self.files, name, bytes)
    }
}

/// A shelf in memory that never fails.
#[derive(Drop)]
pub struct FirmShelf {
    alloc: Global,
    files: Files,
}

impl FirmShelf {
    /// A shelf that holds no name.
    pub fn new(alloc: Global) -> FirmShelf
        ensures { ⟦<FirmShelf as Shelf>⟧.state result ≡ empty_shelf }
    {
        FirmShelf {
            alloc,
            files: BTreeMap::new(alloc),
        }
    }
}

impl Shelf for FirmShelf {
    ghost state = { λ shelf. record { tells = true; says = said_by shelf.files; read_faults = 0; keep_faults = 0 } };

    fn fetch(&mut self, name: &str, most: u64, into: &mut Vec<u8>) -> Result<Fetched, FetchErr> {
        fetch_from(&self.files, name, most, into)
    }

    fn keep(&mut self, name: &str, bytes: &[u8]) -> Result<(), KeepErr> {
        keep_in(self.alloc, &mut self.files, name, bytes)
    }
}

/// A sink in memory, whose puts with the listed numbers fail before their first byte.
#[derive(Drop)]
pub struct MemorySink {
    bytes: Vec<u8>,
    puts: u64,
    fail: Vec<u64>,
    faults: u64,
    wants: u64,
}

impl MemorySink {
    ghost use Rattle.atac_base.specs.Memory.{puts_of};

    /// A sink without a byte.
    pub fn new(alloc: Global, fail: Vec<u64>) -> MemorySink
        ensures state { ⟦<MemorySink as Sink>⟧.state result ≡ empty_sink }
        ensures puts { puts_of result ≡ record { made = 0; failing = fail.items } }
    {
        MemorySink {
            bytes: Vec::new(alloc),
            puts: 0,
            fail,
            faults: 0,
            wants: 0,
        }
    }

    /// The bytes so far.
    pub fn bytes(&self) -> &[u8]
        ensures { (⟦<MemorySink as Sink>⟧.state self.now).bytes ≡ Some result.now }
    {
        self.bytes.as_slice()
    }
}

impl Sink for MemorySink {
    ghost use Rattle.atac_base.specs.Memory.{puts_of, with_one_more, IsListed};

    ghost state = { λ sink. record { bytes = Some sink.bytes.items; faults = sink.faults; wants = sink.wants } };

    fn put(&mut self, piece: &[u8]) -> Result<(), PutErr>
        ensures whole { OnOk result (self.new.bytes.items ≡ self.old.bytes.items ++ piece.now) }
        ensures front { OnErr result ((front : List ℕ) × IsFront front piece.now × (self.new.bytes.items ≡ self.old.bytes.items ++ front)) }
        ensures faults { Counts self.old.faults self.new.faults (IsErrOf result PutErr.Failed) }
        ensures wants { Counts self.old.wants self.new.wants (IsErrOf result PutErr.NoMemory) }
        ensures puts { puts_of self.new ≡ with_one_more (puts_of self.old) }
        ensures failed { IsErrOf result PutErr.Failed ↔ IsListed (puts_of self.new) }
    {
        self.puts = self.puts.saturating_add(1);
        if self.fail.contains(&self.puts) {
            self.faults = self.faults.saturating_add(1);
            return Err(PutErr::Failed);
        }
        match self.bytes.extend_from_slice(piece) {
            Ok(()) => Ok(()),
            Err(_) => {
                self.wants = self.wants.saturating_add(1);
                Err(PutErr::NoMemory)
            }
        }
    }
}

/// A sink in memory that never fails, but for want of memory.
#[derive(Drop)]
pub struct FirmSink {
    bytes: Vec<u8>,
    wants: u64,
}

impl FirmSink {
    /// A sink without a byte.
    pub fn new(alloc: Global) -> FirmSink
        ensures { ⟦<FirmSink as Sink>⟧.state result ≡ empty_sink }
    {
        FirmSink {
            bytes: Vec::new(alloc),
            wants: 0,
        }
    }

    /// The bytes so far.
    pub fn bytes(&self) -> &[u8]
        ensures { (⟦<FirmSink as Sink>⟧.state self.now).bytes ≡ Some result.now }
    {
        self.bytes.as_slice()
    }
}

impl Sink for FirmSink {
    ghost state = { λ sink. record { bytes = Some sink.bytes.items; faults = 0; wants = sink.wants } };

    fn put(&mut self, piece: &[u8]) -> Result<(), PutErr> {
        match self.bytes.extend_from_slice(piece) {
            Ok(()) => Ok(()),
            Err(_) => {
                self.wants = self.wants.saturating_add(1);
                Err(PutErr::NoMemory)
            }
        }
    }
}
