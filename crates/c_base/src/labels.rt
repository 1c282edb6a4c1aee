//! The outcomes of a decision, each with its number.

ghost use Rattle.std.specs.Prelude.{◌≡◌, ◌<◌, ◌≤◌, [], ◌∷◌, ◌++◌, length, slice_get, Some, OnOk, OnErr};

use crate::place::NoMemory;
use std::alloc::Global;
use std::marker::Model;

/// What an outcome of a decision is: true, false, a case constant, or none of those.
#[derive(Clone, Copy, Debug, PartialEq, Eq)]
pub enum OutcomeLabel {
    True,
    False,
    Case(i128),
    Rest,
}

/// The outcomes of a decision, each with its number and its label; at most 4,294,967,295 of them.
#[derive(Drop)]
pub struct Labels {
    rows: Vec<(u32, OutcomeLabel)>,
}

impl Model for Labels {
    ghost use Rattle.std.specs.Prelude.{List, ℕ, ◌≤◌, length};
    ghost use Rattle.c_base.specs.declared.labels.OutcomeLabel.{OutcomeLabel};

    ghost Value = { List (ℕ × OutcomeLabel) };

    ghost view = { λ l. l.rows.items };

    ghost invariant = { λ l. length l.rows.items ≤ 4294967295 };
}

impl Labels {
    /// No outcome.
    pub fn new(alloc: Global) -> Labels
        ensures { result ≡ [] }
    {
        Labels {
            rows: Vec::new(alloc),
        }
    }

    /// One more outcome.
    pub fn push(&mut self, outcome: (u32, OutcomeLabel)) -> Result<(), NoMemory>
        requires { length self.old < 4294967295 }
        ensures ok { OnOk result (self.new ≡ self.old ++ outcome ∷ []) }
        ensures err { OnErr result (self.new ≡ self.old) }
    {
        self.rows.push(outcome)?;
        Ok(())
    }

    /// How many outcomes there are.
    pub fn len(&self) -> u32
        ensures count { result ≡ length self.now }
        ensures few { length self.now ≤ 4294967295 }
    {
        self.rows.len() as u32
    }

    /// The outcome at an index, counted from 0.
    pub fn get(&self, i: u32) -> (u32, OutcomeLabel)
        requires { i < length self.now }
        ensures { slice_get self.now i ≡ Some result }
    {
        self.rows[i as usize]
    }
}
