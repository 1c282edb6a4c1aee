//! Facts that are noted, all at once or none of them.

ghost use Rattle.std.specs.Prelude.{◌≡◌, ◌⊎◌, ◌↔◌, ◌+◌, ◌<◌, ◌≤◌, ◌^◌, ℕ, List, [], ◌∷◌, Option, length, OnOk, OnErr, IsOk, IsTrue};
ghost use Rattle.std.specs.List.{Contains};
ghost use Rattle.atac_facts.specs.declared.fact.Fact.{Fact};
ghost use Rattle.atac_facts.specs.declared.fact.Fact.TheVariants as fact;
ghost use Rattle.cover_parts.specs.Gaining.{Has, Gains, Same};
ghost use Rattle.cover_parts.specs.declared.pending.Wait.{Wait};
ghost use Rattle.cover_parts.specs.Settled.{puses, settled, Lacking, HasRoom, IsWait};
ghost use Rattle.cover_parts.specs.Waits.{others, those_in};

use crate::pending::{Pending, Wait};
use atac_facts::fact::Fact;
use atac_facts::facts::Facts;
use c_base::place::NoMemory;

/// Adds a fact, where it isn't there yet: only this takes memory. After `NoMemory` the facts are the same.
#[inline]
pub fn note(facts: &mut Facts, fact: Fact) -> Result<(), NoMemory>
    ensures noted { OnOk result (Gains facts.old facts.new (λ f. f ≡ fact)) }
    ensures same { OnErr result (Same facts.old facts.new) }
    ensures there { Has facts.old fact → IsOk result }
{
    if has(facts, fact) {
        return Ok(());
    }
    add(facts, fact)
}

/// A definition reaches a use in an activation: the pair is noted, and waits there for the end of the decision that the
/// use belongs to, its owner, where it has one. After `NoMemory` nothing has changed.
#[inline]
pub fn reach(
    facts: &mut Facts,
    pending: &mut Pending,
    owner: Option<u16>,
    definition: u16,
    user: u16,
    activation: u64,
) -> Result<(), NoMemory>
    ensures noted { OnOk result (Gains facts.old facts.new (λ f. f ≡ fact.Pair definition user)) }
    ensures waits { OnOk result ((w : Wait) → Contains pending.new w ↔ (Contains pending.old w ⊎ IsWait owner definition user activation w)) }
    ensures same { OnErr result (Same facts.old facts.new) }
    ensures unmoved { OnErr result (pending.new ≡ pending.old) }
    ensures there { Has facts.old (fact.Pair definition user) → ((w : Wait) → IsWait owner definition user activation w → Contains pending.old w) → IsOk result }
{
    let pair = Fact::Pair(definition, user);
    if has(facts, pair) {
        return wait(pending, owner, definition, user, activation);
    }
    room(facts, 1)?;
    wait(pending, owner, definition, user, activation)?;
    add(facts, pair)
}

/// Lets a pair wait, where its use has an owner. After `NoMemory` the same pairs wait as before.
#[inline]
pub fn wait(
    pending: &mut Pending,
    owner: Option<u16>,
    definition: u16,
    user: u16,
    activation: u64,
) -> Result<(), NoMemory>
    ensures waits { OnOk result ((w : Wait) → Contains pending.new w ↔ (Contains pending.old w ⊎ IsWait owner definition user activation w)) }
    ensures unmoved { OnErr result (pending.new ≡ pending.old) }
    ensures there { ((w : Wait) → IsWait owner definition user activation w → Contains pending.old w) → IsOk result }
{
    match owner {
        None => Ok(()),
        Some(decision) => pending.add(Wait {
            activation,
            decision,
            definition,
            user,
        }),
    }
}

/// A decision ends with an outcome in an activation: the outcome is noted, and the p-uses of the pairs that wait for
/// it there, which then wait no longer. After `NoMemory` nothing has changed. No memory is taken where all facts are there.
#[inline]
pub fn settle(
    facts: &mut Facts,
    pending: &mut Pending,
    decision: u16,
    outcome: u32,
    activation: u64,
) -> Result<(), NoMemory>
    ensures noted { OnOk result (Gains facts.old facts.new (λ f. Contains (settled decision outcome (those_in activation pending.old)) f)) }
    ensures waits { OnOk result (pending.new ≡ others decision activation pending.old) }
    ensures same { OnErr result (Same facts.old facts.new) }
    ensures unmoved { OnErr result (pending.new ≡ pending.old) }
    ensures there { ((f : Fact) → Contains (settled decision outcome (those_in activation pending.old)) f → Has facts.old f) → IsOk result }
{
    note_settled(facts, pending.those_in(activation), decision, outcome)?;
    pending.forget(decision, activation);
    Ok(())
}

// Notes the outcome and the p-uses, or none of them.
fn note_settled(
    facts: &mut Facts,
    waits: &[Wait],
    decision: u16,
    outcome: u32,
) -> Result<(), NoMemory>
    ensures noted { OnOk result (Gains facts.old facts.new (λ f. Contains (settled decision outcome waits.now) f)) }
    ensures same { OnErr result (Same facts.old facts.new) }
    ensures there { ((f : Fact) → Contains (settled decision outcome waits.now) f → Has facts.old f) → IsOk result }
{
    let lacking = lacking(facts, waits, decision, outcome);
    if lacking == 0 {
        return Ok(());
    }
    if lacking > u32::MAX as usize {
        return Err(NoMemory);
    }
    room(facts, lacking as u32)?;
    note_all(facts, waits, decision, outcome);
    Ok(())
}

// How many of these facts are not there yet.
fn lacking(facts: &Facts, waits: &[Wait], decision: u16, outcome: u32) -> usize
    ensures { Lacking facts.now (settled decision outcome waits.now) result }
{
    let mut count = 0;
    for w in waits {
        count += lacks(facts, *w, decision, outcome);
    }
    if has(facts, Fact::Outcome(decision, outcome)) {
        count
    } else {
        count + 1
    }
}

// 1 where the pair's p-use is to be noted and not there yet, else 0.
#[inline]
fn lacks(facts: &Facts, w: Wait, decision: u16, outcome: u32) -> usize
    ensures adds { (m : ℕ) (rest : List Wait) → Lacking facts.now (puses decision outcome rest) m → Lacking facts.now (puses decision outcome (w ∷ rest)) (result + m) }
    ensures small { result ≤ 1 }
{
    if w.decision != decision {
        return 0;
    }
    if has(facts, Fact::PUse(w.definition, w.user, outcome)) {
        return 0;
    }
    1
}

// Notes these facts, for which there is room.
fn note_all(facts: &mut Facts, waits: &[Wait], decision: u16, outcome: u32)
    requires { HasRoom facts.old (settled decision outcome waits.now) facts.old.spare }
    ensures { Gains facts.old facts.new (λ f. Contains (settled decision outcome waits.now) f) }
{
    put(facts, Fact::Outcome(decision, outcome));
    for w in waits {
        put_puse(facts, *w, decision, outcome);
    }
}

// Notes the pair's p-use, where it is one of the decision.
#[inline]
fn put_puse(facts: &mut Facts, w: Wait, decision: u16, outcome: u32)
    requires { w.decision ≡ decision → Has facts.old (fact.PUse w.definition w.user outcome) ⊎ (0 < facts.old.spare) }
    ensures noted { Gains facts.old facts.new (λ f. Contains (puses decision outcome (w ∷ [])) f) }
    ensures kept { (w.decision ≡ decision → Has facts.old (fact.PUse w.definition w.user outcome)) → facts.old.spare ≤ facts.new.spare }
    ensures spare { facts.old.spare ≤ facts.new.spare + 1 }
{
    if w.decision == decision {
        put(facts, Fact::PUse(w.definition, w.user, outcome));
    }
}

// Notes a fact that is there, or for which there is room.
#[inline]
fn put(facts: &mut Facts, fact: Fact)
    requires { Has facts.old fact ⊎ (0 < facts.old.spare) }
    ensures noted { Gains facts.old facts.new (λ f. f ≡ fact) }
    ensures kept { Has facts.old fact → facts.old.spare ≤ facts.new.spare }
    ensures spare { facts.old.spare ≤ facts.new.spare + 1 }
{
    if !has(facts, fact) {
        add(facts, fact).unwrap();
    }
}

// Whether the fact is in the set.
#[inline(always)]
fn has(facts: &Facts, fact: Fact) -> bool
    ensures { IsTrue result ↔ Has facts.now fact }
{
    facts.has(fact)
}

// Makes room for so many more facts, and changes none.
#[inline(always)]
fn room(facts: &mut Facts, n: u32) -> Result<(), NoMemory>
    ensures room { OnOk result (n ≤ facts.new.spare) }
    ensures same { Same facts.old facts.new }
{
    facts.room(n)
}

// Adds a fact. After an `Err` the facts are the same.
#[inline(always)]
fn add(facts: &mut Facts, fact: Fact) -> Result<(), NoMemory>
    ensures added { OnOk result (Gains facts.old facts.new (λ f. f ≡ fact)) }
    ensures same { OnErr result (Same facts.old facts.new) }
    ensures succeeds { 0 < facts.old.spare → IsOk result }
    ensures spare { facts.old.spare ≤ facts.new.spare + 1 }
{
    facts.add(fact)
}
