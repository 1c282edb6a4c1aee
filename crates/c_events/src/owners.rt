//! The owners of use probes, by number.

ghost use Rattle.std.specs.Prelude.{◌≡◌, length};
ghost use Rattle.c_events.specs.Owners.{owner_in};

use std::marker::Model;

/// The owner of each use probe of a program, by the probe's number: the decision that the innermost test or select probe
/// around it tells.
#[derive(Drop)]
pub struct Owners {
    rows: Vec<Option<u16>>,
}

impl Model for Owners {
    ghost use Rattle.std.specs.Prelude.{◌≡◌, ℕ, List, Option, length};

    ghost Value = { List (Option ℕ) };

    ghost view = { λ o. o.rows.items };

    ghost invariant = { λ o. length o.rows.items ≡ 65536 };
}

impl Owners {
    /// Owners by the numbers of use probes, one for each number from 0 to 65,535.
    pub fn new(rows: Vec<Option<u16>>) -> Owners
        requires { length rows.items ≡ 65536 }
        ensures { result ≡ rows.items }
    {
        Owners { rows }
    }

    /// The number of the owner of the use probe with that number; None where no test or select probe stands around it, or
    /// there is no such use probe.
    #[inline]
    pub fn of(&self, u: u16) -> Option<u16>
        ensures { result ≡ owner_in self.now u }
    {
        self.rows[u as usize]
    }
}
