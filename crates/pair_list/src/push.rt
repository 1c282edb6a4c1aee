//! Pairs, appended in order while the items that they stand for are within the limit.

ghost use Rattle.std.specs.Prelude.{◌≡◌, ◌+◌, ◌<◌, ◌≤◌, ◌++◌, ◌∷◌, ◌==◌, [], ℕ, suc, length, IfOk, IfErr, OnOk};
ghost use Rattle.std.specs.Int.{bit_at};
ghost use Rattle.std.proofs.Math.ListN.{get_or};
ghost use Rattle.pair_list.specs.PairLists.{owned, weight, items_in, picked};
ghost use Rattle.pair_list.specs.declared.pairs.ListRefusal.TheVariants.{TooManyPairs};

use crate::pairs::{ListRefusal, Pair};
use c_sites::lists::UseSite;
use c_sites::numbered::Sites;

// How many items a pair with the use stands for.
fn owned(sites: &Sites, used: &UseSite) -> u32
    ensures { result ≡ owned sites.now used.now.owner }
{
    match used.owner {
        None => 1,
        Some(k) => {
            if k == 0 {
                return 0;
            }
            if k > sites.decisions() {
                return 0;
            }
            sites.decision(k).labels.len()
        }
    }
}

fn weight(sites: &Sites, u: u16) -> u32
    requires { (1 ≤ u) × (u ≤ length sites.now.lists.uses.items) }
    ensures { result ≡ weight sites.now u }
{
    owned(sites, sites.use_site(u))
}

// Appends a pair.
#[tactic(auto, using(crate::proofs::Picking::items_push))]
fn push_pair(
    pairs: &mut Vec<Pair>,
    count: u64,
    pair: Pair,
    sites: &Sites,
    limit: u32,
) -> Result<u64, ListRefusal>
    requires site { (1 ≤ pair.used) × (pair.used ≤ length sites.now.lists.uses.items) }
    requires within { count ≤ limit }
    requires count { count ≡ items_in sites.now pairs.old.items }
    ensures pairs { OnOk result (pairs.new.items ≡ pairs.old.items ++ pair ∷ []) }
    ensures within { IfOk result (λ now. now ≤ limit) }
    ensures count { IfOk result (λ now. now ≡ items_in sites.now pairs.new.items) }
    ensures more { IfErr result (λ e. e ≡ TooManyPairs → limit < items_in sites.now (pairs.old.items ++ pair ∷ [])) }
{
    let now = count + weight(sites, pair.used) as u64;
    if now > limit as u64 {
        return Err(ListRefusal::TooManyPairs);
    }
    match pairs.push(pair) {
        Ok(()) => Ok(now),
        Err(_) => Err(ListRefusal::NoMemory),
    }
}

fn is_hit(word: u64, j: u32) -> bool
    requires { j < 64 }
    ensures { result ≡ (bit_at word j == 1) }
{
    (word >> j) & 1 == 1
}

/// Appends the pairs of a definition with the uses, from the low one on, whose words have its bit.
#[tactic(auto, using(crate::proofs::Picking::picked_hit, crate::proofs::Picking::picked_missed))]
pub fn push_hits(
    pairs: &mut Vec<Pair>,
    count: u64,
    hits: &[u64],
    low: u16,
    j: u32,
    def: u16,
    sites: &Sites,
    limit: u32,
) -> Result<u64, ListRefusal>
    requires bit { j < 64 }
    requires low { 1 ≤ low }
    requires uses { low + length hits.now ≤ length sites.now.lists.uses.items + 1 }
    requires few { length sites.now.lists.uses.items ≤ 16383 }
    requires within { count ≤ limit }
    requires count { count ≡ items_in sites.now pairs.old.items }
    ensures pairs { OnOk result (pairs.new.items ≡ pairs.old.items ++ picked def low j hits.now (length hits.now)) }
    ensures within { IfOk result (λ now. now ≤ limit) }
    ensures count { IfOk result (λ now. now ≡ items_in sites.now pairs.new.items) }
    ensures more { IfErr result (λ e. e ≡ TooManyPairs → (n : ℕ) × (n < length hits.now) × (limit < items_in sites.now (pairs.old.items ++ picked def low j hits.now (suc n)))) }
{
    let mut now = count;
    for n in 0..hits.len() {
        let hit = is_hit(hits[n], j);
        if hit {
            let used = low + n as u16;
            match push_pair(pairs, now, Pair { def, used }, sites, limit) {
                Ok(more) => now = more,
                Err(e) => return Err(e),
            }
        }
    }
    Ok(now)
}
