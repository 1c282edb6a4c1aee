//! The owners of use probes.

ghost use Rattle.std.specs.Prelude.{◌≡◌, ℕ, ◌++◌, List, [], ◌∷◌, length, IfOk};
ghost use Rattle.c_syntax.specs.View.{unit_shape};
ghost use Rattle.c_sites_probes.specs.Owned.{owned_in};
ghost use Rattle.c_sites_probes.specs.Owners.{AreOwners};

use crate::owned::{Owned, owned_in};
use c_base::place::NoMemory;
use c_events::owners::Owners;
use c_tree::program::Program;
use std::alloc::Global;

// No owner.
fn no_rows(alloc: Global) -> Result<Vec<Option<u16>>, NoMemory>
    ensures count { IfOk result (λ rows. length rows.items ≡ 65536) }
    ensures none { IfOk result (λ rows. AreOwners [] rows.items) }
{
    match Vec::from_elem(alloc, None, 65_536) {
        Ok(rows) => Ok(rows),
        Err(_) => Err(NoMemory),
    }
}

// An owner of the use probe with that number, behind others.
fn put_owner(rows: &mut Vec<Option<u16>>, number: u16, owner: u16)
    requires { length rows.old.items ≡ 65536 }
    ensures count { length rows.new.items ≡ 65536 }
    ensures owners { (found : List (ℕ × ℕ)) → AreOwners found rows.old.items → AreOwners (found ++ (number, owner) ∷ []) rows.new.items }
{
    let row = number as usize;
    if rows[row].is_none() {
        rows[row] = Some(owner);
    }
}

// These owners, the first one of each use probe.
fn owners_of(alloc: Global, found: &[Owned]) -> Result<Owners, NoMemory>
    ensures whole { IfOk result (λ o. length o ≡ 65536) }
    ensures owners { IfOk result (λ o. AreOwners found.now o) }
{
    let mut rows = no_rows(alloc)?;
    for owned in found {
        let (number, owner) = *owned;
        put_owner(&mut rows, number, owner);
    }
    Ok(Owners::new(rows))
}

/// For each use probe of a program its owner. It takes one walk over the program's tree.
pub fn probe_owners(alloc: Global, program: &Program) -> Result<Owners, NoMemory>
    ensures whole { IfOk result (λ o. length o ≡ 65536) }
    ensures owners { IfOk result (λ o. AreOwners (owned_in (unit_shape program.now.unit)) o) }
{
    let found = owned_in(alloc, program.unit())?;
    owners_of(alloc, &found)
}
