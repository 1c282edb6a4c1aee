//! A list of numbers.

ghost use Rattle.std.specs.Prelude.{◌≡◌, ◌<◌, ◌≤◌, [], ◌∷◌, ◌++◌, length, slice_get, Some, OnOk, OnErr, IfOk};

use crate::place::NoMemory;
use std::alloc::Global;
use std::marker::Model;

/// A list of at most 4,294,967,295 numbers.
#[derive(Drop)]
pub struct NumberList {
    items: Vec<u32>,
}

impl Model for NumberList {
    ghost use Rattle.std.specs.Prelude.{List, ℕ, ◌≤◌, length};

    ghost Value = { List ℕ };

    ghost view = { λ n. n.items.items };

    ghost invariant = { λ n. length n.items.items ≤ 4294967295 };
}

impl NumberList {
    /// No number.
    pub fn new(alloc: Global) -> NumberList
        ensures { result ≡ [] }
    {
        NumberList {
            items: Vec::new(alloc),
        }
    }

    /// Appends a number.
    pub fn push(&mut self, number: u32) -> Result<(), NoMemory>
        requires { length self.old < 4294967295 }
        ensures ok { OnOk result (self.new ≡ self.old ++ number ∷ []) }
        ensures err { OnErr result (self.new ≡ self.old) }
    {
        self.items.push(number)?;
        Ok(())
    }

    /// How many numbers it has.
    pub fn len(&self) -> u32
        ensures count { result ≡ length self.now }
        ensures few { length self.now ≤ 4294967295 }
    {
        self.items.len() as u32
    }

    /// The number at an index, counted from 0.
    pub fn get(&self, i: u32) -> u32
        requires { i < length self.now }
        ensures { slice_get self.now i ≡ Some result }
    {
        self.items[i as usize]
    }

    /// The numbers.
    pub fn numbers(&self) -> &[u32]
        ensures { result.now ≡ self.now }
    {
        self.items.as_slice()
    }
}
