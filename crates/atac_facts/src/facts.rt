//! Sets of facts, as words of 64 bits.

ghost use Rattle.std.specs.Prelude.{◌≡◌, ◌≢◌, ◌<◌, ◌≤◌, ◌+◌, ◌*◌, ◌^◌, ℕ, [], true, false, length, OnOk, OnErr, IfOk, IfErr, IsOk, IfSome, IfNone, IsTrue, ◌||◌};
ghost use Rattle.std.specs.Int.{bit_at};
ghost use Rattle.atac_facts.specs.Facts.{key_of, place_of, fits, rank, IsKey};
ghost use Rattle.atac_facts.specs.declared.fact.Fact.{Fact};
ghost use Rattle.atac_facts.specs.Sets.{FactSet, holds, HasBit, IsLeastBit, IsLeastFrom, IsLeast, IsAfter, IsNext, word_at, start_of, Joins};
ghost use Rattle.atac_facts.specs.Pairs.{IsAt, IsGapFor, IsTaken};

use crate::fact::Fact;
use c_base::place::NoMemory;
use std::alloc::Global;
use std::marker::Model;

/// A finite set of facts.
///
/// It is kept as words of 64 bits in the order of their keys: each fact has a bit in the word of its key.
#[derive(Drop)]
pub struct Facts {
    words: Vec<(u64, u64)>,
}

impl Model for Facts {
    ghost use Rattle.std.specs.Prelude.{◌-◌, vec_capacity, vec_len};
    ghost use Rattle.atac_facts.specs.Sets.{FactSet, AreKeys};
    ghost use Rattle.atac_facts.specs.Pairs.{IsStrictlySorted};

    ghost Value = { FactSet };

    ghost view = { λ f. record { words = f.words.items; spare = vec_capacity f.words - vec_len f.words } };

    ghost invariant = { λ f. IsStrictlySorted f.words.items × AreKeys f.words.items };
}

impl Facts {
    /// No fact.
    pub fn new(alloc: Global) -> Facts
        ensures { (fact : Fact) → holds result fact ≡ false }
    {
        Facts {
            words: Vec::new(alloc),
        }
    }

    // Where the word of a key is, or where it would go.
    fn search(&self, key: u64) -> Result<usize, usize>
        ensures found { IfOk result (IsAt self.now.words key) }
        ensures absent { IfErr result (IsGapFor self.now.words key) }
    {
        if let Some(last) = self.words.last() {
            if last.0 < key {
                return Err(self.words.len());
            }
            if last.0 == key {
                return Ok(self.words.len() - 1);
            }
        }
        self.words.binary_search_by_key(&key, |&(key, _)| key)
    }

    /// Adds a fact.
    pub fn add(&mut self, fact: Fact) -> Result<(), NoMemory>
        ensures there { OnOk result (holds self.new fact ≡ true) }
        ensures others { (other : Fact) → other ≢ fact → holds self.new other ≡ holds self.old other }
        ensures err { OnErr result ((other : Fact) → holds self.new other ≡ holds self.old other) }
        ensures succeeds { 0 < self.old.spare → IsOk result }
        ensures spends { self.old.spare ≤ self.new.spare + 1 }
    {
        let key = fact.key();
        let bit = 1u64 << fact.place();
        match self.search(key) {
            Ok(at) => {
                let bits = self.words[at].1;
                self.words[at] = (key, bits | bit);
                Ok(())
            }
            Err(at) => {
                self.words.insert(at, (key, bit))?;
                Ok(())
            }
        }
    }

    // Adds the bits of a word.
    fn join_word(&mut self, key: u64, bits: u64) -> Result<(), NoMemory>
        requires { IsKey key }
        ensures ok { OnOk result (Joins self.old.words self.new.words key bits) }
        ensures err { OnErr result (self.new.words ≡ self.old.words) }
    {
        match self.search(key) {
            Ok(at) => {
                let old = self.words[at].1;
                self.words[at] = (key, old | bits);
                Ok(())
            }
            Err(at) => {
                self.words.insert(at, (key, bits))?;
                Ok(())
            }
        }
    }

    /// Whether the fact is in the set.
    pub fn has(&self, fact: Fact) -> bool
        ensures { result ≡ holds self.now fact }
    {
        match self.search(fact.key()) {
            Ok(at) => self.words[at].1 >> fact.place() & 1 == 1,
            Err(_) => false,
        }
    }

    // The least bit from a key and a place on.
    fn least_from(&self, key: u64, place: u32) -> Option<(u64, u32)>
        requires { place < 64 }
        ensures some { IfSome result (λ x. IsLeast self.now.words key place x.0 x.1) }
        ensures none { IfNone result ((k b : ℕ) → HasBit self.now.words k b → key * 64 + place ≤ k * 64 + b → ⊥) }
    {
        match self.search(key) {
            Ok(at) => match next_bit(self.words[at].1, place) {
                Some(bit) => Some((key, bit)),
                None => first_bit(&self.words, at + 1),
            },
            Err(at) => first_bit(&self.words, at),
        }
    }

    /// The least fact after the last one, or the least of all where no last one is given.
    pub fn after(&self, last: Option<Fact>) -> Option<Fact>
        ensures some { IfSome result (λ fact. IsNext self.now last fact) }
        ensures none { IfNone result ((other : Fact) → IsTrue (holds self.now other) → IsAfter last other → ⊥) }
    {
        let (key, place) = place_after(last);
        let (key, bit) = self.least_from(key, place)?;
        Some(fact_at(key, bit))
    }

    /// Makes room for further facts, so that so many calls of `add` take no memory.
    pub fn room(&mut self, n: u32) -> Result<(), NoMemory>
        ensures ok { OnOk result (n ≤ self.new.spare) }
        ensures same { (fact : Fact) → holds self.new fact ≡ holds self.old fact }
    {
        match self.words.reserve(n as usize) {
            Ok(()) => Ok(()),
            Err(_) => Err(NoMemory),
        }
    }
}

// The word with the lesser key of both lists' first, and what is left of each. Of equal keys the first list's comes first.
fn first_word<'a>(
    a: &'a [(u64, u64)],
    b: &'a [(u64, u64)],
) -> Option<((u64, u64), &'a [(u64, u64)], &'a [(u64, u64)])>
    ensures some { IfSome result (λ x. IsTaken a.now b.now x.0 x.1.now x.2.now) }
    ensures shorter { IfSome result (λ x. length x.1.now + length x.2.now < length a.now + length b.now) }
    ensures none { IfNone result ((a.now ≡ []) × (b.now ≡ [])) }
{
    match (a.split_first(), b.split_first()) {
        (None, None) => None,
        (Some((p, rest)), None) => Some((*p, rest, b)),
        (None, Some((q, rest))) => Some((*q, a, rest)),
        (Some((p, rest_a)), Some((q, rest_b))) => {
            if q.0 < p.0 {
                return Some((*q, a, rest_b));
            }
            Some((*p, rest_a, b))
        }
    }
}

// The facts of both sets. Words come in the order of their keys, so each is joined at the end.
fn union(alloc: Global, a: &Facts, b: &Facts) -> Result<Facts, NoMemory>
    ensures { IfOk result (λ both. (fact : Fact) → holds both fact ≡ (holds a.now fact || holds b.now fact)) }
{
    let mut both = Facts {
        words: Vec::new(alloc),
    };
    let mut rest_a = a.words.as_slice();
    let mut rest_b = b.words.as_slice();
    while let Some(((key, bits), next_a, next_b)) = first_word(rest_a, rest_b) {
        both.join_word(key, bits)?;
        rest_a = next_a;
        rest_b = next_b;
    }
    Ok(both)
}

/// Adds all facts of a set. Where memory is wanted, `into` has its old facts.
pub fn union_into(into: &mut Facts, from: &Facts) -> Result<(), NoMemory>
    ensures ok { OnOk result ((fact : Fact) → holds into.new fact ≡ (holds into.old fact || holds from.now fact)) }
    ensures err { OnErr result (into.new ≡ into.old) }
{
    let both = union(*into.words.allocator(), into, from)?;
    *into = both;
    Ok(())
}

// The first place after that of the last fact, or the first of all.
fn place_after(last: Option<Fact>) -> (u64, u32)
    ensures value { result.0 * 64 + result.1 ≡ start_of last }
    ensures small { result.1 < 64 }
{
    let Some(fact) = last else {
        return (0, 0);
    };
    let key = fact.key();
    let place = fact.place();
    if place == 63 {
        (key + 1, 0)
    } else {
        (key, place + 1)
    }
}

// The least bit of a word from a place on.
fn next_bit(bits: u64, place: u32) -> Option<u32>
    requires { place < 64 }
    ensures some { IfSome result (λ bit. IsLeastBit bits place bit) }
    ensures none { IfNone result ((i : ℕ) → place ≤ i → bit_at bits i ≡ 0) }
{
    let rest = bits >> place;
    if rest == 0 {
        return None;
    }
    Some(place + rest.trailing_zeros())
}

// The least bit of the words from a place on.
fn first_bit(words: &[(u64, u64)], start: usize) -> Option<(u64, u32)>
    ensures some { IfSome result (λ x. (i : ℕ) × IsLeastFrom words.now start x.0 x.1 i) }
    ensures none { IfNone result ((j : ℕ) → start ≤ j → j < length words.now → (b : ℕ) → bit_at (word_at words.now j) b ≡ 0) }
{
    for i in start..words.len() {
        let (key, bits) = words[i];
        if let Some(bit) = next_bit(bits, 0) {
            return Some((key, bit));
        }
    }
    None
}

// The fact that has a key and a place.
fn fact_at(key: u64, place: u32) -> Fact
    requires right { IsKey key }
    requires small { place < 64 }
    ensures key { key_of result ≡ key }
    ensures place { place_of result ≡ place }
    ensures fits { fits result ≡ true }
{
    match key >> 58 {
        0 => Fact::Block((key * 64 + place as u64) as u16),
        1 => {
            let rest = key - (1 << 58);
            Fact::Outcome(
                (rest >> 26) as u16,
                ((rest % (1 << 26)) * 64 + place as u64) as u32,
            )
        }
        2 => {
            let rest = key - (2 << 58);
            Fact::Pair(
                (rest >> 10) as u16,
                ((rest % (1 << 10)) * 64 + place as u64) as u16,
            )
        }
        _ => {
            let rest = key - (3 << 58);
            Fact::PUse(
                (rest >> 42) as u16,
                ((rest >> 26) % (1 << 16)) as u16,
                ((rest % (1 << 26)) * 64 + place as u64) as u32,
            )
        }
    }
}
