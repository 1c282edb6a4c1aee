//! The pairs that wait for the end of a decision.

ghost use Rattle.std.specs.Prelude.{◌≡◌, ◌↔◌, IsTrue};
ghost use Rattle.std.specs.List.{Contains};
ghost use Rattle.cover_parts.specs.Waits.{InOrder, Bounds, others};

use c_base::place::NoMemory;
use std::alloc::Global;
use std::marker::Model;

/// A pair whose use waits for the end of a decision in an activation.
#[derive(Clone, Copy, Debug, PartialEq, Eq)]
pub struct Wait {
    pub activation: u64,
    pub decision: u16,
    pub definition: u16,
    pub user: u16,
}

/// The pairs that wait, each once.
#[derive(Drop)]
pub struct Pending {
    waits: Vec<Wait>,
}

impl Model for Pending {
    ghost use Rattle.std.specs.Prelude.{List};
    ghost use Rattle.cover_parts.specs.declared.pending.Wait.{Wait};
    ghost use Rattle.cover_parts.specs.Waits.{InOrder};

    ghost Value = { List Wait };

    ghost view = { λ p. p.waits.items };

    ghost invariant = { λ p. InOrder p.waits.items };
}

impl Pending {
    ghost use Rattle.std.specs.Prelude.{◌≡◌, ◌↔◌, ◌⊎◌, [], OnOk, OnErr, IsOk};
    ghost use Rattle.std.specs.List.{Contains};
    ghost use Rattle.cover_parts.specs.declared.pending.Wait.{Wait};
    ghost use Rattle.cover_parts.specs.Waits.{others, those_in};

    /// No pair waits.
    pub fn new(alloc: Global) -> Pending
        ensures { result ≡ [] }
    {
        Pending {
            waits: Vec::new(alloc),
        }
    }

    /// Forgets all.
    pub fn clear(&mut self)
        ensures { self.new ≡ [] }
    {
        self.waits.clear();
    }

    /// Those that wait in the activation.
    #[inline]
    pub fn those_in(&self, activation: u64) -> &[Wait]
        ensures { result.now ≡ those_in activation self.now }
    {
        let (low, high) = bounds(&self.waits, activation);
        &self.waits[low..high]
    }

    /// Lets a pair wait, where it doesn't yet: only this takes memory. After `NoMemory` the same pairs wait as before.
    #[inline]
    pub fn add(&mut self, wait: Wait) -> Result<(), NoMemory>
        ensures added { OnOk result ((w : Wait) → Contains self.new w ↔ (Contains self.old w ⊎ (w ≡ wait))) }
        ensures same { OnErr result (self.new ≡ self.old) }
        ensures there { Contains self.old wait → IsOk result }
    {
        let (low, high) = bounds(&self.waits, wait.activation);
        if stands(&self.waits, low, high, wait) {
            return Ok(());
        }
        match self.waits.insert(high, wait) {
            Ok(()) => Ok(()),
            Err(_) => Err(NoMemory),
        }
    }

    /// Forgets those that wait for the decision in the activation.
    #[inline]
    pub fn forget(&mut self, decision: u16, activation: u64)
        ensures { self.new ≡ others decision activation self.old }
    {
        forget_in(&mut self.waits, decision, activation);
    }
}

// Where those of an activation stand.
#[inline]
fn bounds(waits: &[Wait], activation: u64) -> (usize, usize)
    requires { InOrder waits.now }
    ensures { Bounds activation waits.now result.0 result.1 }
{
    let low = waits.partition_point(|w| w.activation < activation);
    let high = waits.partition_point(|w| w.activation <= activation);
    (low, high)
}

// The pair is one of those in its activation, which stand from low on, up to high.
#[inline]
fn stands(waits: &[Wait], low: usize, high: usize, wait: Wait) -> bool
    requires { Bounds wait.activation waits.now low high }
    ensures { IsTrue result ↔ Contains waits.now wait }
{
    for i in low..high {
        if waits[i] == wait {
            return true;
        }
    }
    false
}

// Takes those of the decision in the activation out. They stand at the end, mostly.
fn forget_in(waits: &mut Vec<Wait>, decision: u16, activation: u64)
    requires { InOrder waits.old.items }
    ensures { waits.new.items ≡ others decision activation waits.old.items }
{
    let (low, high) = bounds(waits, activation);
    let mut i = high;
    while i > low {
        i -= 1;
        if waits[i].decision == decision {
            waits.remove(i);
        }
    }
}
