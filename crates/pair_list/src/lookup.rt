//! Which of 64 marks have a name or a variable, looked up.

ghost use Rattle.std.specs.Prelude.{◌≡◌, ◌↔◌, ◌<◌, ◌≤◌, ◌+◌, ◌^◌, ◌⊎◌, ℕ, true, length, Contains, Some, List};
ghost use Rattle.std.specs.Int.{bit_at};
ghost use Rattle.pair_list.specs.declared.marks.Mark.{Mark as MarkOf};
ghost use Rattle.pair_list.specs.declared.tables.By.{By as ByOf};
ghost use Rattle.pair_list.specs.declared.tables.By.TheVariants.{Name, Variable};
ghost use Rattle.pair_list.specs.Marks.{Meets};
ghost use Rattle.pair_list.specs.Masks.{MarkAt, IsMask};
ghost use Rattle.pair_list.specs.Tables.{key_of, IsTable, AreTables};

use crate::marks::Mark;
use crate::tables::Tables;
use c_base::numbers::NumberList;
use c_sites::lists::{DefSite, UseSite};

// The marks that are looked up by this key.
fn word_of(words: &[u64], low: u32, key: u32) -> u64
    ensures { (by : ByOf) (marks : List MarkOf) (start : ℕ) → IsTable by marks start low 64 words.now → IsMask marks start (λ m. key ≡ key_of by m) result }
{
    if key < low {
        return 0;
    }
    let k = (key - low) as usize;
    if k < words.len() { words[k] } else { 0 }
}

/// The marks of a variable.
pub fn of_variable(tables: &Tables, variable: u32) -> u64
    ensures { (marks : List MarkOf) (start : ℕ) → AreTables marks start tables.now → IsMask marks start (λ m. variable ≡ m.variable) result }
{
    word_of(&tables.variables, tables.low_variable, variable)
}

// The marks of a name.
fn of_name(tables: &Tables, name: u32) -> u64
    ensures { (marks : List MarkOf) (start : ℕ) → AreTables marks start tables.now → IsMask marks start (λ m. name ≡ m.name) result }
{
    word_of(&tables.names, tables.low_name, name)
}

fn or_word(word: u64, more: u64) -> u64
    ensures { (i : ℕ) → (bit_at result i ≡ 1) ↔ ((bit_at word i ≡ 1) ⊎ (bit_at more i ≡ 1)) }
{
    word | more
}

fn and_word(word: u64, more: u64) -> u64
    ensures { (i : ℕ) → (bit_at result i ≡ 1) ↔ ((bit_at word i ≡ 1) × (bit_at more i ≡ 1)) }
{
    word & more
}

// The marks of names.
fn of_names(tables: &Tables, names: &NumberList) -> u64
    ensures { (marks : List MarkOf) (start : ℕ) → AreTables marks start tables.now → IsMask marks start (λ m. Contains names.now m.name) result }
{
    let mut word = 0;
    for i in 0..names.len() {
        let more = of_name(tables, names.get(i));
        word = or_word(word, more);
    }
    word
}

/// The marks that a definition ends.
pub fn ended(tables: &Tables, def: &DefSite) -> u64
    ensures { (marks : List MarkOf) (start : ℕ) → AreTables marks start tables.now → IsMask marks start (λ m. (def.now.variable ≡ Some m.variable) × Contains def.now.names m.name × (m.strong ≡ true)) result }
{
    match def.variable {
        None => 0,
        Some(variable) => {
            let strong = and_word(tables.strong, of_variable(tables, variable));
            if strong == 0 {
                return 0;
            }
            let names = of_names(tables, &def.names);
            and_word(names, strong)
        }
    }
}

/// Those marks of a word that a use meets.
pub fn met(tables: &Tables, came: u64, used: &UseSite) -> u64
    ensures { (marks : List MarkOf) (start : ℕ) → AreTables marks start tables.now → (i : ℕ) → (bit_at result i ≡ 1) ↔ ((i < 64) × (bit_at came i ≡ 1) × MarkAt marks (start + i) (λ m. Meets used.now m)) }
{
    match used.variable {
        None => 0,
        Some(variable) => {
            let of = and_word(came, of_variable(tables, variable));
            if of == 0 {
                return 0;
            }
            let names = of_names(tables, &used.names);
            and_word(names, of)
        }
    }
}
