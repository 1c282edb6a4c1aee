//! The instances that are shown to the probes, up to their end.

ghost use Rattle.std.specs.Prelude.{◌≡◌, ◌++◌, ◌∷◌, [], ℕ, List, All, IfSome, OnOk, false, None};
ghost use Rattle.c_events.specs.declared.events.Event.{Event};
ghost use Rattle.c_events.specs.declared.events.Cell.{Cell};
ghost use Rattle.c_store.specs.Cells.{IsLive};
ghost use Rattle.c_world.specs.Shown.{EndsLiving, is_live, if_living, living_of};

use super::Made;
use crate::places::whole;
use atac_base::probes::Probes;
use c_base::place::NoMemory;
use c_store::store::Store;
use c_store::value::Fault;

// Tells that those at the end of the shown instances have ended, up to one that lives.
#[tactic(auto, using(crate::proofs::Shown::one_gone))]
pub(super) fn tell_ended<P: Probes>(shown: &mut Vec<u64>, store: &Store, probes: &mut P)
    ensures ended { (gone : List ℕ) × (shown.old.items ≡ shown.new.items ++ gone) × All (λ j. is_live j store.now ≡ false) gone }
    ensures living { EndsLiving shown.new.items store.now }
    ensures kept { (h : List Event) → P.stands_for probes.old h → P.stands_for probes.new h }
    ensures stay { (cell : Cell) → IsLive cell.instance store.now → P.takes probes.old cell → P.takes probes.new cell }
    ensures goes_by { P.owners probes.new ≡ P.owners probes.old }
{
    while let Some(instance) = take_ended(shown, store) {
        probes.ended(instance);
    }
}

// Takes off the last instance, if it has ended.
fn take_ended(shown: &mut Vec<u64>, store: &Store) -> Option<u64>
    ensures ended { IfSome result (λ j. (shown.old.items ≡ shown.new.items ++ j ∷ []) × (is_live j store.now ≡ false)) }
    ensures none { result ≡ None → (shown.new.items ≡ shown.old.items) × EndsLiving shown.old.items store.now }
{
    let instance = *shown.last()?;
    if lives(store, instance) {
        return None;
    }
    shown.pop()
}

// Of the instances that were told as made, those that live are shown from then on, and the others are told as ended.
#[tactic(auto, using(crate::proofs::Shown::living_more))]
pub(super) fn keep_living<P: Probes>(
    shown: &mut Vec<u64>,
    fresh: &[Made],
    store: &Store,
    probes: &mut P,
) -> Result<(), NoMemory>
    ensures shown { OnOk result (shown.new.items ≡ shown.old.items ++ living_of fresh.now store.now) }
    ensures kept { (h : List Event) → P.stands_for probes.old h → P.stands_for probes.new h }
    ensures stay { (cell : Cell) → IsLive cell.instance store.now → P.takes probes.old cell → P.takes probes.new cell }
    ensures goes_by { P.owners probes.new ≡ P.owners probes.old }
{
    for made in fresh {
        keep(shown, made.instance, store, probes)?;
    }
    Ok(())
}

// The same of one.
fn keep<P: Probes>(
    shown: &mut Vec<u64>,
    instance: u64,
    store: &Store,
    probes: &mut P,
) -> Result<(), NoMemory>
    ensures shown { OnOk result (shown.new.items ≡ shown.old.items ++ if_living instance store.now) }
    ensures kept { (h : List Event) → P.stands_for probes.old h → P.stands_for probes.new h }
    ensures stay { (cell : Cell) → IsLive cell.instance store.now → P.takes probes.old cell → P.takes probes.new cell }
    ensures goes_by { P.owners probes.new ≡ P.owners probes.old }
{
    if lives(store, instance) {
        shown.push(instance)?;
    } else {
        probes.ended(instance);
    }
    Ok(())
}

// Whether an instance lives.
#[inline(always)]
#[tactic(auto, using(crate::proofs::Shown::read_lives, crate::proofs::Shown::dangling_ended, crate::proofs::Shown::fault_lives))]
fn lives(store: &Store, instance: u64) -> bool
    ensures { result ≡ is_live instance store.now }
{
    match store.read(whole(instance, 1)) {
        Ok(_) => true,
        Err(fault) => match fault {
            Fault::Dangling => false,
            _ => true,
        },
    }
}
