//! The rows that wait.

ghost use Rattle.std.specs.Prelude.{◌≡◌, ◌+◌, ◌<◌, ◌++◌, ◌∷◌, [], ℕ, length, Contains, MatchOption, IfOk, OnOk, OnErr};
ghost use Rattle.reach_defs.specs.Work.{Puts};

use crate::steps::Steps;
use c_base::place::NoMemory;
use std::alloc::Global;
use std::marker::Model;
use std::sync::ledger::Ledger;

/// The rows that wait to be taken. Each waits at most once.
#[derive(Drop)]
pub struct Worklist {
    queue: Vec<u32>,
    waiting: Vec<bool>,
}

impl Model for Worklist {
    ghost use Rattle.std.specs.Prelude.{◌≡◌, ℕ, vec_len};
    ghost use Rattle.reach_defs.specs.Work.{Work, work_code, IsMarked};

    ghost Value = { Work };

    ghost coded = { work_code };

    ghost view = { λ w. record { rows = vec_len w.waiting; queue = w.queue.items } };

    ghost invariant = { λ w. IsMarked w.queue.items w.waiting.items };
}

impl Worklist {
    /// A worklist for so many rows, where none waits.
    pub fn new(alloc: Global, rows: usize) -> Result<Worklist, NoMemory>
        ensures { IfOk result (λ w. (w.rows ≡ rows) × (w.queue ≡ [])) }
    {
        match vec![in alloc; false; rows] {
            Err(_) => Err(NoMemory),
            Ok(waiting) => Ok(Worklist {
                queue: Vec::new(alloc),
                waiting,
            }),
        }
    }

    /// Lets a row wait, if it doesn't yet.
    pub fn put(&mut self, row: u32) -> Result<(), NoMemory>
        requires { row < self.old.rows }
        ensures rows { OnOk result (self.new.rows ≡ self.old.rows) }
        ensures queue { OnOk result (Puts self.old.queue row self.new.queue) }
        ensures err { OnErr result (self.new ≡ self.old) }
    {
        if self.waiting[row as usize] {
            return Ok(());
        }
        match self.queue.push(row) {
            Err(_) => Err(NoMemory),
            Ok(()) => {
                self.waiting[row as usize] = true;
                Ok(())
            }
        }
    }

    /// Takes the row that came last, and this is a step.
    pub fn take<L: Ledger>(&mut self, steps: &mut Steps<L>) -> Option<u32>
        ensures rows { self.new.rows ≡ self.old.rows }
        ensures taken { MatchOption result ((self.old.queue ≡ []) × (self.new.queue ≡ []) × (steps.new ≡ steps.old))
            (λ row. (self.old.queue ≡ self.new.queue ++ row ∷ []) × (steps.new ≡ steps.old + 1)) }
        ensures once { MatchOption result (self.new.queue ≡ []) (λ row. Contains self.new.queue row → ⊥) }
    {
        match self.queue.pop() {
            None => None,
            Some(row) => {
                self.waiting[row as usize] = false;
                steps.tick();
                Some(row)
            }
        }
    }
}

/// A worklist for so many rows, where each waits.
pub fn all_rows(alloc: Global, rows: u32) -> Result<Worklist, NoMemory>
    ensures rows { IfOk result (λ w. w.rows ≡ rows) }
    ensures all { IfOk result (λ w. (row : ℕ) → row < rows → Contains w.queue row) }
    ensures within { IfOk result (λ w. (row : ℕ) → Contains w.queue row → row < rows) }
    ensures length { IfOk result (λ w. length w.queue ≡ rows) }
{
    let mut worklist = Worklist::new(alloc, rows as usize)?;
    for row in 0..rows {
        worklist.put(row)?;
    }
    Ok(worklist)
}
