//! Marks, a bit of a word for each of 64: which of them reach which rows.

ghost use Rattle.std.specs.Prelude.{◌≡◌, ◌<◌, ◌^◌, ◌++◌, ◌∷◌, ◌⊎◌, ◌↔◌, [], ℕ, length, Contains, IfOk, OnOk, MatchOption};
ghost use Rattle.std.specs.Int.{bit_at};
ghost use Rattle.std.proofs.Math.ListN.{get_or};
ghost use Rattle.flow_marks.specs.Paths.{IsStep};
ghost use Rattle.flow_marks.specs.Words.{HasBit, Arrives, Puts, Spread};

use crate::flow::FlowRow;
use c_base::place::NoMemory;
use std::alloc::Global;

fn take(waiting: &mut Vec<u32>) -> Option<u32>
    ensures { MatchOption result (waiting.old.items ≡ []) (λ row. waiting.old.items ≡ waiting.new.items ++ row ∷ []) }
{
    waiting.pop()
}

fn wait(waiting: &mut Vec<u32>, row: u32) -> Result<(), NoMemory>
    ensures { OnOk result (waiting.new.items ≡ waiting.old.items ++ row ∷ []) }
{
    waiting.push(row)?;
    Ok(())
}

// What a row lets out.
fn let_out(gives: u64, held: u64, stops: u64) -> u64
    ensures { (i : ℕ) → (bit_at result i ≡ 1) ↔ ((bit_at gives i ≡ 1) ⊎ ((bit_at held i ≡ 1) × (bit_at stops i ≡ 1 → ⊥))) }
{
    gives | (held & (held ^ stops))
}

// Gives a row the marks of a word.
fn put(held: &mut Vec<u64>, waiting: &mut Vec<u32>, word: u64, to: u32) -> Result<(), NoMemory>
    requires { to < length held.old.items }
    ensures puts { OnOk result (Puts word to held.old.items waiting.old.items held.new.items waiting.new.items) }
    ensures fits { OnOk result (get_or held.new.items to 0 < 2 ^ 64) }
{
    let old = held[to as usize];
    let new = old | word;
    if new == old {
        return Ok(());
    }
    wait(waiting, to)?;
    held[to as usize] = new;
    Ok(())
}

// Gives them to each of these rows.
#[tactic(auto, using(crate::proofs::Passing::spread_start))]
fn spread(
    held: &mut Vec<u64>,
    waiting: &mut Vec<u32>,
    word: u64,
    next: &[u32],
) -> Result<(), NoMemory>
    requires { (to : ℕ) → Contains next.now to → to < length held.old.items }
    ensures { OnOk result (Spread word next.now held.old.items waiting.old.items held.new.items waiting.new.items (length next.now)) }
{
    for to in next {
        put(held, waiting, word, *to)?;
    }
    Ok(())
}

// The rows that give marks.
fn givers(alloc: Global, gives: &[u64]) -> Result<Vec<u32>, NoMemory>
    requires { length gives.now < 2 ^ 32 }
    ensures all { IfOk result (λ rows. (row : ℕ) → (get_or gives.now row 0 ≡ 0 → ⊥) → Contains rows.items row) }
    ensures within { IfOk result (λ rows. (row : ℕ) → Contains rows.items row → row < length gives.now) }
{
    let mut rows = Vec::new(alloc);
    for row in 0..gives.len() {
        if gives[row] != 0 {
            wait(&mut rows, row as u32)?;
        }
    }
    Ok(rows)
}

// The same, the first of them on top: what it gives goes along with what later ones give, so they needn't be gone through again.
fn givers_in_turn(alloc: Global, gives: &[u64]) -> Result<Vec<u32>, NoMemory>
    requires { length gives.now < 2 ^ 32 }
    ensures all { IfOk result (λ rows. (row : ℕ) → (get_or gives.now row 0 ≡ 0 → ⊥) → Contains rows.items row) }
    ensures within { IfOk result (λ rows. (row : ℕ) → Contains rows.items row → row < length gives.now) }
{
    let mut rows = givers(alloc, gives)?;
    rows.reverse();
    Ok(rows)
}

fn nothing(alloc: Global, rows: usize) -> Result<Vec<u64>, NoMemory>
    ensures size { IfOk result (λ held. length held.items ≡ rows) }
    ensures none { IfOk result (λ held. (row : ℕ) → get_or held.items row 0 ≡ 0) }
{
    match vec![in alloc; 0u64; rows] {
        Err(_) => Err(NoMemory),
        Ok(held) => Ok(held),
    }
}

/// Which marks reach which rows. A row is taken again only where more marks have come to it.
pub fn arrivals(
    alloc: Global,
    flow: &[FlowRow],
    gives: &[u64],
    stops: &[u64],
) -> Result<Vec<u64>, NoMemory>
    requires few { length flow.now < 2 ^ 32 }
    requires gives { length gives.now ≡ length flow.now }
    requires stops { length stops.now ≡ length flow.now }
    requires in_range { (row to : ℕ) → IsStep flow.now row to → to < length flow.now }
    ensures size { IfOk result (λ held. length held.items ≡ length flow.now) }
    ensures sound { IfOk result (λ held. (row i : ℕ) → HasBit held.items row i → Arrives flow.now gives.now stops.now row i) }
    ensures complete { IfOk result (λ held. (row i : ℕ) → Arrives flow.now gives.now stops.now row i → HasBit held.items row i) }
{
    let mut held = nothing(alloc, flow.len())?;
    let mut waiting = givers_in_turn(alloc, gives)?;
    while let Some(from) = take(&mut waiting) {
        let row = from as usize;
        let word = let_out(gives[row], held[row], stops[row]);
        let it = &flow[row];
        spread(&mut held, &mut waiting, word, &it.next)?;
    }
    Ok(held)
}
