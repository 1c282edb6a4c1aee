//! The tables of 64 marks: made, filled and cleared again.

ghost use Rattle.std.specs.Prelude.{◌≡◌, ◌↔◌, ◌<◌, ◌≤◌, ◌+◌, ◌*◌, ◌^◌, ℕ, true, length, IfOk, Some, slice_get};
ghost use Rattle.std.specs.Int.{bit_at};
ghost use Rattle.pair_list.specs.declared.marks.Mark.{Mark as MarkOf};
ghost use Rattle.pair_list.specs.declared.tables.By.TheVariants.{Name, Variable};
ghost use Rattle.flow_marks.specs.Words.{HasBit};
ghost use Rattle.pair_list.specs.Masks.{MarkAt, IsMask};
ghost use Rattle.pair_list.specs.Hits.{AddsBits};
ghost use Rattle.pair_list.specs.Tables.{key_of as key, Covers, IsTable, IsEmpty, IsLeft, AreTables, AreEmpty};

use crate::hits::add_bits;
use crate::marks::Mark;
use crate::masks::{strong_marks, with_bit};
use crate::reached::zeros;
use crate::tables::{By, Tables};
use c_base::place::NoMemory;
use std::alloc::Global;

fn key_of(by: By, mark: &Mark) -> u32
    ensures { result ≡ key by mark.now }
{
    match by {
        By::Name => mark.name,
        By::Variable => mark.variable,
    }
}

// None of the marks is below.
fn least(marks: &[Mark], by: By) -> u32
    ensures { (i : ℕ) (m : MarkOf) → slice_get marks.now i ≡ Some m → result ≤ key by m }
{
    let mut low = u32::MAX;
    for i in 0..marks.len() {
        let one = key_of(by, &marks[i]);
        if one < low {
            low = one;
        }
    }
    low
}

// None of the marks is above.
fn greatest(marks: &[Mark], by: By) -> u32
    ensures { (i : ℕ) (m : MarkOf) → slice_get marks.now i ≡ Some m → key by m ≤ result }
{
    let mut high = 0;
    for i in 0..marks.len() {
        let one = key_of(by, &marks[i]);
        if one > high {
            high = one;
        }
    }
    high
}

fn size_of(low: u32, high: u32) -> usize
    ensures { high < low + result }
{
    if high < low {
        0
    } else {
        (high - low) as usize + 1
    }
}

/// Tables for these marks, with none in them.
pub fn empty_tables(alloc: Global, marks: &[Mark]) -> Result<Tables, NoMemory>
    ensures { IfOk result (λ t. AreEmpty marks.now t) }
{
    let low_name = least(marks, By::Name);
    let high_name = greatest(marks, By::Name);
    let names = zeros(alloc, size_of(low_name, high_name))?;
    let low_variable = least(marks, By::Variable);
    let high_variable = greatest(marks, By::Variable);
    let variables = zeros(alloc, size_of(low_variable, high_variable))?;
    Ok(Tables {
        low_name,
        names,
        low_variable,
        variables,
        strong: 0,
    })
}

fn one_bit(i: u32) -> u64
    requires { i < 64 }
    ensures { (j : ℕ) → (bit_at result j ≡ 1) ↔ (j ≡ i) }
{
    with_bit(0, i, true)
}

// The bit of one mark.
fn enter(words: &mut Vec<u64>, low: u32, by: By, marks: &[Mark], at: usize, i: u32)
    requires bit { i < 64 }
    requires covers { Covers by marks.now low (length words.old.items) }
    ensures { AddsBits (λ k j. (j ≡ i) × MarkAt marks.now at (λ m. key by m ≡ low + k)) words.old.items words.new.items }
{
    if at < marks.len() {
        let k = (key_of(by, &marks[at]) - low) as usize;
        let bit = one_bit(i);
        add_bits(words, k, bit);
    }
}

// The bits of 64 marks.
fn fill(words: &mut Vec<u64>, low: u32, by: By, marks: &[Mark], start: usize)
    requires start { start < 2 ^ 63 }
    requires empty { IsEmpty by marks.now low words.old.items }
    ensures { IsTable by marks.now start low 64 words.new.items }
{
    for i in 0..64u32 {
        enter(words, low, by, marks, start + i as usize, i);
    }
}

// The word of one mark has no bit.
fn blank(words: &mut Vec<u64>, low: u32, by: By, marks: &[Mark], at: usize)
    requires { Covers by marks.now low (length words.old.items) }
    ensures size { length words.new.items ≡ length words.old.items }
    ensures kept { (k j : ℕ) → HasBit words.new.items k j → HasBit words.old.items k j }
    ensures gone { (k j : ℕ) → HasBit words.new.items k j → MarkAt marks.now at (λ m. key by m ≡ low + k) → ⊥ }
{
    if at < marks.len() {
        let k = (key_of(by, &marks[at]) - low) as usize;
        words[k] = 0;
    }
}

// No bits.
fn clear(words: &mut Vec<u64>, low: u32, by: By, marks: &[Mark], start: usize)
    requires start { start < 2 ^ 63 }
    requires table { IsTable by marks.now start low 64 words.old.items }
    ensures { IsEmpty by marks.now low words.new.items }
{
    for i in 0..64u32 {
        blank(words, low, by, marks, start + i as usize);
    }
}

/// Puts 64 marks from that index on into the tables.
pub fn fill_tables(tables: &mut Tables, marks: &[Mark], start: usize)
    requires start { start < 2 ^ 63 }
    requires empty { AreEmpty marks.now tables.old }
    ensures { AreTables marks.now start tables.new }
{
    let low_name = tables.low_name;
    fill(&mut tables.names, low_name, By::Name, marks, start);
    let low_variable = tables.low_variable;
    fill(
        &mut tables.variables,
        low_variable,
        By::Variable,
        marks,
        start,
    );
    tables.strong = strong_marks(marks, start);
}

/// Takes them out again.
pub fn clear_tables(tables: &mut Tables, marks: &[Mark], start: usize)
    requires start { start < 2 ^ 63 }
    requires tables { AreTables marks.now start tables.old }
    ensures { AreEmpty marks.now tables.new }
{
    let low_name = tables.low_name;
    clear(&mut tables.names, low_name, By::Name, marks, start);
    let low_variable = tables.low_variable;
    clear(
        &mut tables.variables,
        low_variable,
        By::Variable,
        marks,
        start,
    );
}
