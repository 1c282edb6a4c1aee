//! The variables of file scope and their instances.

ghost use Rattle.std.specs.Prelude.{◌≡◌, ◌<◌, List, length, get_or, None, OnOk};
ghost use Rattle.c_meaning.specs.State.{Bound};
ghost use Rattle.c_compute.specs.Filing.{IsFiled};

use c_base::place::NoMemory;
use std::alloc::Global;
use std::marker::Model;

/// A variable of file scope and its instance.
#[derive(Clone, Copy, Drop)]
pub struct Filed {
    pub variable: u32,
    pub instance: u64,
}

/// The variables of file scope and their instances, the last one first (C89, 3.1.2.1). One is found by its number in a table.
#[derive(Drop)]
pub struct Filing {
    filed: Vec<Filed>,
    instances: Vec<Option<u64>>,
}

impl Model for Filing {
    ghost use Rattle.std.specs.Prelude.{List, reverse};
    ghost use Rattle.c_meaning.specs.State.{Bound};
    ghost use Rattle.c_compute.specs.Filing.{file_of, IsFiled};

    ghost Value = { List Bound };

    ghost view = { λ s. file_of (reverse s.filed.items) };

    ghost invariant = { λ s. IsFiled (file_of (reverse s.filed.items)) s.instances.items };
}

impl Filing {
    ghost use Rattle.std.specs.Prelude.{◌≡◌, [], ◌∷◌, OnOk, OnErr};
    ghost use Rattle.c_meaning.specs.State.{found_in};

    /// No variable.
    pub fn new(alloc: Global) -> Filing
        ensures { result ≡ [] }
    {
        Filing {
            filed: Vec::new(alloc),
            instances: Vec::new(alloc),
        }
    }

    /// The instance that the variable of that number stands for.
    #[inline(always)]
    pub fn instance(&self, variable: u32) -> Option<u64>
        ensures { result ≡ found_in variable self.now }
    {
        instance_at(&self.instances, variable)
    }

    /// The variable of that number stands for the instance.
    pub fn bind(&mut self, variable: u32, instance: u64) -> Result<(), NoMemory>
        ensures bound { OnOk result (self.new ≡ record { variable = variable; instance = instance } ∷ self.old) }
        ensures kept { OnErr result (self.new ≡ self.old) }
    {
        reach(&mut self.instances, variable)?;
        match self.filed.push(Filed { variable, instance }) {
            Ok(()) => {
                self.instances[variable as usize] = Some(instance);
                Ok(())
            }
            Err(_) => Err(NoMemory),
        }
    }
}

#[inline(always)]
fn instance_at(instances: &[Option<u64>], variable: u32) -> Option<u64>
    ensures { result ≡ get_or instances.now variable None }
{
    match instances.get(variable as usize) {
        Some(instance) => *instance,
        None => None,
    }
}

// The table has a row for the variable of that number.
#[tactic(auto, using(crate::proofs::Filings::grown))]
fn reach(instances: &mut Vec<Option<u64>>, variable: u32) -> Result<(), NoMemory>
    ensures reached { OnOk result (variable < length instances.new.items) }
    ensures filed { (bs : List Bound) → IsFiled bs instances.old.items → IsFiled bs instances.new.items }
{
    while instances.len() <= variable as usize {
        match instances.push(None) {
            Ok(()) => {}
            Err(_) => return Err(NoMemory),
        }
    }
    Ok(())
}
