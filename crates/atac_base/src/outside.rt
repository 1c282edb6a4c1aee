//! The outside of a call: shelves that hold bytes under names, and sinks that take bytes.

ghost use Rattle.std.specs.Prelude.{◌≡◌, ◌≢◌, ◌≤◌, List, ℕ, IsTrue, Some, OnOk, OnErr, IsErrOf};
ghost use Rattle.std.specs.Io.KnownBytes.{append_known};
ghost use Rattle.atac_base.specs.Outside.{ShelfState, SinkState, Counts, Fetches, IsFront};

/// How a fetch went.
#[derive(Clone, Copy, Debug, PartialEq, Eq)]
pub enum Fetched {
    Whole,
    Absent,
    Long,
}

#[derive(Clone, Copy, Debug, PartialEq, Eq)]
pub enum FetchErr {
    Failed,
    NoMemory,
}

#[derive(Clone, Copy, Debug, PartialEq, Eq)]
pub enum KeepErr {
    Failed,
    NoMemory,
}

#[derive(Clone, Copy, Debug, PartialEq, Eq)]
pub enum PutErr {
    Failed,
    NoMemory,
}

/// Bytes under names. A shelf either tells what it holds or it doesn't, and no call changes this.
/// One that doesn't tell says nothing of any name.
pub trait Shelf {
    ghost state: { Self → ShelfState };

    /// Replaces what stands in `into` by the bytes under the name, where they are at most `most`.
    fn fetch(&mut self, name: &str, most: u64, into: &mut Vec<u8>) -> Result<Fetched, FetchErr>
        ensures found { Fetches ((state self.old).says name.now) most result into.new.items }
        ensures tells { (state self.new).tells ≡ (state self.old).tells }
        ensures says { (state self.new).says ≡ (state self.old).says }
        ensures read_faults { Counts (state self.old).read_faults (state self.new).read_faults (IsErrOf result FetchErr.Failed) }
        ensures keep_faults { (state self.old).keep_faults ≤ (state self.new).keep_faults };

    /// Puts the bytes under the name, in place of those that stood there. After an `Err` nothing is
    /// claimed of this name.
    fn keep(&mut self, name: &str, bytes: &[u8]) -> Result<(), KeepErr>
        ensures kept { OnOk result (IsTrue (state self.old).tells → (state self.new).says name.now ≡ Some (Some bytes.now)) }
        ensures others { (other : List ℕ) → other ≢ name.now → (state self.new).says other ≡ (state self.old).says other }
        ensures tells { (state self.new).tells ≡ (state self.old).tells }
        ensures read_faults { (state self.old).read_faults ≤ (state self.new).read_faults }
        ensures keep_faults { Counts (state self.old).keep_faults (state self.new).keep_faults (IsErrOf result KeepErr.Failed) };
}

/// Takes bytes, one piece after the other.
pub trait Sink {
    ghost state: { Self → SinkState };

    /// Appends the piece. After an `Err` some front of it was appended.
    fn put(&mut self, piece: &[u8]) -> Result<(), PutErr>
        ensures whole { OnOk result ((state self.new).bytes ≡ append_known (state self.old).bytes piece.now) }
        ensures front { OnErr result ((front : List ℕ) × IsFront front piece.now × ((state self.new).bytes ≡ append_known (state self.old).bytes front)) }
        ensures faults { Counts (state self.old).faults (state self.new).faults (IsErrOf result PutErr.Failed) }
        ensures wants { Counts (state self.old).wants (state self.new).wants (IsErrOf result PutErr.NoMemory) };
}
