//! Rows that are being laid.

ghost use Rattle.std.specs.Prelude.{◌≡◌, ◌<◌, ◌++◌, ◌∷◌, [], length, map, slice_get, slice_set, Some, None, true, IfOk, OnOk};
ghost use Rattle.flow_walks.specs.Comes.{either};
ghost use Rattle.flow_rows.specs.Paths.{HasRow, tells};
ghost use Rattle.flow_rows.specs.Laying.{hole, Grown, LaidAt};
ghost use Rattle.flow_rows.specs.Ends.{Left};
ghost use Rattle.flow_rows.specs.View.{met_of, row_of, rows_of};

use crate::row::{GraphRow, Step};
use c_base::place::NoMemory;
use flow_walks::action::Action;
use std::alloc::Global;

/// Rows, by their numbers, which count from 0.
#[derive(Drop)]
pub struct Rows {
    alloc: Global,
    rows: Vec<GraphRow>,
}

impl Rows {
    /// No row.
    pub fn new(alloc: Global) -> Rows
        ensures { rows_of result ≡ [] }
    {
        Rows {
            alloc,
            rows: Vec::new(alloc),
        }
    }

    fn push(&mut self, met: Step, next: Vec<u32>) -> Result<u32, NoMemory>
        ensures number { IfOk result (λ r. r ≡ length (rows_of self.old)) }
        ensures row { OnOk result (rows_of self.new ≡ rows_of self.old ++ record { met = met_of met; next = next.items } ∷ []) }
    {
        let Ok(number) = u32::try_from(self.rows.len()) else {
            return Err(NoMemory);
        };
        match self.rows.push(GraphRow { met, next }) {
            Ok(()) => Ok(number),
            Err(_) => Err(NoMemory),
        }
    }

    // Whether nothing is known of that row yet.
    fn is_hole(&self, at: u32) -> bool
        ensures { result ≡ true → slice_get (rows_of self.now) at ≡ Some hole }
    {
        match self.rows.get(at as usize) {
            Some(row) => is_empty(row),
            None => false,
        }
    }

    fn is_row(&self, at: u32) -> bool
        ensures { result ≡ true → at < length (rows_of self.now) }
    {
        (at as usize) < self.rows.len()
    }

    fn set(&mut self, at: u32, met: Step, next: Vec<u32>) -> Result<(), NoMemory>
        ensures hole { OnOk result (slice_get (rows_of self.old) at ≡ Some hole) }
        ensures row { OnOk result (rows_of self.new ≡ slice_set (rows_of self.old) at (record { met = met_of met; next = next.items })) }
    {
        if !self.is_hole(at) {
            return Err(NoMemory);
        }
        self.rows[at as usize] = GraphRow { met, next };
        Ok(())
    }

    fn one(&self, to: u32) -> Result<Vec<u32>, NoMemory>
        ensures next { IfOk result (λ v. v.items ≡ to ∷ []) }
        ensures within { OnOk result (to < length (rows_of self.now)) }
    {
        if !self.is_row(to) {
            return Err(NoMemory);
        }
        match Vec::from_slice(self.alloc, &[to]) {
            Ok(next) => Ok(next),
            Err(_) => Err(NoMemory),
        }
    }

    fn two(&self, first: u32, second: u32) -> Result<Vec<u32>, NoMemory>
        ensures next { IfOk result (λ v. v.items ≡ first ∷ second ∷ []) }
        ensures first { OnOk result (first < length (rows_of self.now)) }
        ensures second { OnOk result (second < length (rows_of self.now)) }
    {
        if !self.is_row(first) || !self.is_row(second) {
            return Err(NoMemory);
        }
        match Vec::from_slice(self.alloc, &[first, second]) {
            Ok(next) => Ok(next),
            Err(_) => Err(NoMemory),
        }
    }

    /// One more row, of which nothing is known yet.
    pub fn hole(&mut self) -> Result<u32, NoMemory>
        ensures grown { OnOk result (Grown (rows_of self.old) (rows_of self.new)) }
    {
        let number = self.push(Step::Act(Action::Nothing), Vec::new(self.alloc))?;
        Ok(number)
    }

    /// One more row, at which that is met, and which leads there.
    pub fn row(&mut self, action: Action, to: u32) -> Result<u32, NoMemory>
        ensures grown { OnOk result (Grown (rows_of self.old) (rows_of self.new)) }
        ensures laid { IfOk result (λ r. LaidAt (rows_of self.new) r (λ k. tells (met_of (Step.Act action)) (k to))) }
    {
        let next = self.one(to)?;
        let number = self.push(Step::Act(action), next)?;
        Ok(number)
    }

    /// One more row, at which that function is called, and which leads there.
    pub fn enter(&mut self, function: u32, to: u32) -> Result<u32, NoMemory>
        ensures grown { OnOk result (Grown (rows_of self.old) (rows_of self.new)) }
        ensures laid { IfOk result (λ r. LaidAt (rows_of self.new) r (λ k. tells (met_of (Step.Enter function)) (k to))) }
    {
        let next = self.one(to)?;
        let number = self.push(Step::Enter(function), next)?;
        Ok(number)
    }

    /// At that row, of which nothing was known, that is met, and it leads there.
    pub fn fill(&mut self, at: u32, action: Action, to: u32) -> Result<(), NoMemory>
        ensures grown { OnOk result (Grown (rows_of self.old) (rows_of self.new)) }
        ensures laid { OnOk result (LaidAt (rows_of self.new) at (λ k. tells (met_of (Step.Act action)) (k to))) }
    {
        let next = self.one(to)?;
        self.set(at, Step::Act(action), next)?;
        Ok(())
    }

    /// That row, of which nothing was known, leads to either.
    pub fn fork(&mut self, at: u32, first: u32, second: u32) -> Result<(), NoMemory>
        ensures grown { OnOk result (Grown (rows_of self.old) (rows_of self.new)) }
        ensures laid { OnOk result (LaidAt (rows_of self.new) at (λ k. either (k first) (k second))) }
    {
        let next = self.two(first, second)?;
        self.set(at, Step::Act(Action::Nothing), next)?;
        Ok(())
    }

    /// At row 0, of which nothing was known, nothing is met, and it leads there.
    pub fn start(&mut self, to: u32) -> Result<(), NoMemory>
        ensures grown { OnOk result (Grown (rows_of self.old) (rows_of self.new)) }
        ensures row { OnOk result (HasRow (rows_of self.new) 0 None (to ∷ [])) }
    {
        let next = self.one(to)?;
        self.set(0, Step::Act(Action::Nothing), next)?;
        Ok(())
    }

    /// One more row, at which the body has been left, and which leads there.
    pub fn leave(&mut self, to: u32) -> Result<u32, NoMemory>
        ensures { IfOk result (λ r. Left (rows_of self.old) (rows_of self.new) r to) }
    {
        let next = self.one(to)?;
        let number = self.push(Step::Leave, next)?;
        Ok(number)
    }

    /// The rows, in their order.
    pub fn into_rows(self) -> Vec<GraphRow>
        ensures { map row_of result.items ≡ rows_of self }
    {
        self.rows
    }
}

// Whether it is a row of which nothing is known.
fn is_empty(row: &GraphRow) -> bool
    ensures { result ≡ true → row_of row.now ≡ hole }
{
    match row.met {
        Step::Act(Action::Nothing) => row.next.is_empty(),
        _ => false,
    }
}
