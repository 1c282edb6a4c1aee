//! A boxed watcher as the probes of runs.

ghost use Rattle.std.specs.Prelude.{ℕ, List, []};
ghost use Rattle.c_events.specs.declared.events.Event.{Event};

use crate::watcher::Watcher;
use atac_base::probes::Probes;
use c_base::place::NoMemory;
use c_events::events::Event;
use std::marker::{Brand, PhantomData};

/// A text for each list of events. A proof chooses it, where `Brand` is passed.
pub trait Wording {
    ghost text: { List Event → List ℕ };
}

impl Wording for Brand {
    ghost text = { λ h. [] };
}

/// A watcher whose texts are those of `T`. As probes it stands for what the watcher stands for.
#[derive(Drop)]
pub struct Told<T: Wording> {
    pub watcher: Box<dyn Watcher>,
    pub wording: PhantomData<T>,
}

impl<T: Wording> Probes for Told<T> {
    ghost use Rattle.std.specs.Prelude.{◌≡◌, List, [], ⊤};
    ghost use Rattle.c_events.specs.declared.events.Event.{Event};

    ghost stands_for = { λ t h. (Watcher-box t.watcher).stands_for t.watcher.value h × ((k : List Event) → (Watcher-box t.watcher).text_of t.watcher.value k ≡ T.text k) };

    ghost takes = { λ t cell. ⊤ };

    ghost top = { λ t. 0 };

    ghost free = { λ t e. ⊥ };

    ghost owners = { λ t. [] };

    #[inline]
    fn see(&mut self, event: Event) -> Result<(), NoMemory> {
        self.watcher.see(event)?;
        Ok(())
    }

    #[inline(always)]
    fn made(&mut self, instance: u64, cells: u32) -> Result<(), NoMemory> {
        Ok(())
    }

    #[inline(always)]
    fn ended(&mut self, instance: u64) {}
}
