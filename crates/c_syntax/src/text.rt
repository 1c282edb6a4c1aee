//! Lists of bytes.

ghost use Rattle.std.specs.Prelude.{◌≡◌, ℕ, ◌+◌, ◌<◌, ◌≤◌, List, [], ◌∷◌, ◌++◌, length, slice_index, OnOk, OnErr, IfOk};

use c_base::place::NoMemory;
use std::alloc::Global;
use std::marker::Model;

/// A list of at most 4,294,967,295 bytes.
#[derive(Drop)]
pub struct Text {
    bytes: Vec<u8>,
}

impl Model for Text {
    ghost Value = { List ℕ };

    ghost view = { λ t. t.bytes.items };

    ghost invariant = { λ t. length t.bytes.items ≤ 4294967295 };
}

impl Text {
    /// No byte.
    pub fn new(alloc: Global) -> Text
        ensures { result ≡ [] }
    {
        Text {
            bytes: Vec::new(alloc),
        }
    }

    /// A copy of these bytes.
    pub fn from_bytes(alloc: Global, bytes: &[u8]) -> Result<Text, NoMemory>
        requires { length bytes.now ≤ 4294967295 }
        ensures { IfOk result (λ t. t ≡ bytes.now) }
    {
        match Vec::from_slice(alloc, bytes) {
            Ok(bytes) => Ok(Text { bytes }),
            Err(_) => Err(NoMemory),
        }
    }

    /// Appends one byte.
    pub fn push(&mut self, item: u8) -> Result<(), NoMemory>
        requires { length self.old < 4294967295 }
        ensures ok { OnOk result (self.new ≡ self.old ++ item ∷ []) }
        ensures err { OnErr result (self.new ≡ self.old) }
    {
        self.bytes.push(item)?;
        Ok(())
    }

    /// A copy of this list.
    pub fn copy(&self, alloc: Global) -> Result<Text, NoMemory>
        ensures { IfOk result (λ t. t ≡ self.now) }
    {
        match Vec::from_slice(alloc, self.bytes.as_slice()) {
            Ok(bytes) => Ok(Text { bytes }),
            Err(_) => Err(NoMemory),
        }
    }

    /// The number of bytes.
    pub fn len(&self) -> u32
        ensures { result ≡ length self.now }
    {
        self.bytes.len() as u32
    }

    /// The byte at an index, counted from 0.
    pub fn get(&self, i: u32) -> u8
        requires { i < length self.now }
        ensures { result ≡ slice_index self.now i }
    {
        self.bytes[i as usize]
    }

    /// The bytes.
    pub fn bytes(&self) -> &[u8]
        ensures { result.now ≡ self.now }
    {
        self.bytes.as_slice()
    }
}
