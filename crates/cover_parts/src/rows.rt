//! The live instances, and for each of their cells its last definition.

ghost use Rattle.std.specs.Prelude.{◌≡◌, ◌↔◌, ◌+◌, ◌<◌, ℕ, suc, length, take, drop, ◌++◌, [], ◌∷◌, map, slice_index_or, slice_get, slice_set, replicate, Some, None, IsTrue, IsSome, IfOk, OnOk, OnErr};
ghost use Rattle.cover_parts.specs.Rows.{words_in, slot_of, Ascending, IsPlace};

use c_base::place::NoMemory;
use c_events::events::Cell;
use std::alloc::{AllocError, Global};
use std::marker::Model;

/// The last definition of each cell of an instance, where there is one. A single word stands in place, so that a
/// scalar takes no memory of its own.
#[derive(Drop)]
pub enum Words {
    One(Option<u16>),
    Many(Vec<Option<u16>>),
}

/// A live instance: its number, and its cells' words.
#[derive(Drop)]
pub struct Row {
    pub number: u64,
    pub words: Words,
}

impl Words {
    /// How many words: one for each cell.
    #[inline(always)]
    pub fn len(&self) -> usize
        ensures { result ≡ length (words_in self.now) }
    {
        match self {
            Words::One(_) => 1,
            Words::Many(words) => words.len(),
        }
    }

    /// The word of the cell with that index, from 0; None where there is no such cell.
    #[inline(always)]
    pub fn get(&self, index: usize) -> Option<Option<u16>>
        ensures { result ≡ slice_get (words_in self.now) index }
    {
        match self {
            Words::One(word) => { if index == 0 { Some(*word) } else { None } }
            Words::Many(words) => {
                if index < words.len() {
                    Some(words[index])
                } else {
                    None
                }
            }
        }
    }

    /// Puts a definition into the word of the cell with that index, from 0; false where there is no such cell.
    #[inline(always)]
    pub fn set(&mut self, index: usize, definition: u16) -> bool
        ensures is { words_in self.new ≡ slice_set (words_in self.old) index (Some definition) }
        ensures there { IsTrue result ↔ (index < length (words_in self.old)) }
    {
        match self {
            Words::One(_) => {
                if index == 0 {
                    *self = Words::One(Some(definition));
                    true
                } else {
                    false
                }
            }
            Words::Many(words) => {
                if index < words.len() {
                    words[index] = Some(definition);
                    true
                } else {
                    false
                }
            }
        }
    }
}

/// The words of the instances that live, in the order of their numbers.
#[derive(Drop)]
pub struct Rows {
    alloc: Global,
    top: u64,
    held: u64,
    rows: Vec<Row>,
}

impl Model for Rows {
    ghost use Rattle.std.specs.Prelude.{◌≡◌, map};
    ghost use Rattle.cover_parts.specs.Rows.{Table, slot_of, cell_count, Ascending};

    ghost Value = { Table };

    ghost view = { λ r. record { top = r.top; live = map slot_of r.rows.items } };

    ghost invariant = { λ r. Ascending 0 r.top (map slot_of r.rows.items) × (r.held ≡ cell_count (map slot_of r.rows.items)) };
}

impl Rows {
    ghost use Rattle.std.specs.Prelude.{◌≡◌, ◌↔◌, ◌++◌, ◌∷◌, [], ◌<◌, OnOk, OnErr, IsTrue, IsSome, replicate, None};
    ghost use Rattle.cover_parts.specs.Rows.{Table, IsTable, cell_count, word_of, put, without, IsPlace};

    /// No instance was made yet.
    pub fn new(alloc: Global) -> Rows
        ensures { result ≡ record { top = 0; live = [] } }
    {
        Rows {
            alloc,
            top: 0,
            held: 0,
            rows: Vec::new(alloc),
        }
    }

    /// Forgets all instances. Their numbers may begin again.
    pub fn clear(&mut self)
        ensures { self.new ≡ record { top = 0; live = [] } }
    {
        self.rows.clear();
        self.top = 0;
        self.held = 0;
    }

    /// How many words the live instances have together.
    pub fn held(&self) -> u64
        ensures { result ≡ cell_count self.now.live }
    {
        self.held
    }

    /// The word of a cell: its last definition, where it has one. None where its instance does not live or has no such cell.
    #[inline(always)]
    pub fn word(&self, at: Cell) -> Option<Option<u16>>
        ensures is { result ≡ word_of self.now.live at }
        ensures table { IsTable self.now }
    {
        match self.place(at.instance) {
            None => None,
            Some(i) => self.rows[i].words.get(at.index as usize),
        }
    }

    /// Keeps a definition as the last one of a cell; false where its instance does not live or has no such cell.
    #[inline(always)]
    pub fn define(&mut self, at: Cell, definition: u16) -> bool
        ensures is { self.new ≡ record { top = self.old.top; live = put at definition self.old.live } }
        ensures there { IsTrue result ↔ IsSome (word_of self.old.live at) }
        ensures table { IsTable self.old }
    {
        match self.place(at.instance) {
            None => false,
            Some(i) => {
                let row = &mut self.rows[i];
                row.words.set(at.index as usize, definition)
            }
        }
    }

    /// Makes an instance of so many cells, which have no definition. `NoMemory` where its number is not above that of each
    /// one made before, where memory is wanted, or where 64 bits do not count all words: then nothing has changed.
    pub fn make(&mut self, instance: u64, cells: u32) -> Result<(), NoMemory>
        ensures above { OnOk result (self.old.top < instance) }
        ensures made { OnOk result (self.new ≡ record { top = instance; live = self.old.live ++ record { number = instance; words = replicate cells None } ∷ [] }) }
        ensures kept { OnErr result (self.new ≡ self.old) }
        ensures table { IsTable self.old }
    {
        if instance <= self.top {
            return Err(NoMemory);
        }
        let Some(held) = self.held.checked_add(cells as u64) else {
            return Err(NoMemory);
        };
        let Ok(words) = no_words(self.alloc, cells) else {
            return Err(NoMemory);
        };
        let pushed = self.rows.push(Row {
            number: instance,
            words,
        });
        match pushed {
            Ok(()) => {
                self.top = instance;
                self.held = held;
                Ok(())
            }
            Err(_) => Err(NoMemory),
        }
    }

    /// Ends an instance, where it lives: its words are forgotten.
    pub fn end(&mut self, instance: u64)
        ensures is { self.new ≡ record { top = self.old.top; live = without instance self.old.live } }
        ensures table { IsTable self.old }
    {
        if let Some(i) = self.place(instance) {
            let ended = taken(&mut self.rows, i);
            self.held -= ended.words.len() as u64;
            drop(ended);
        }
    }

    // Where a live instance stands.
    #[inline(always)]
    fn place(&self, number: u64) -> Option<usize>
        ensures { IsPlace number self.now.live result }
    {
        place_in(&self.rows, number)
    }
}

// As many words without definition.
#[inline]
fn no_words(alloc: Global, count: u32) -> Result<Words, AllocError>
    ensures { IfOk result (λ w. words_in w ≡ replicate count None) }
{
    if count == 1 {
        return Ok(Words::One(None));
    }
    Ok(Words::Many(vec![in alloc; None; count as usize]?))
}

// Where an instance stands in a list in which the numbers ascend.
#[inline(always)]
fn place_in(rows: &[Row], number: u64) -> Option<usize>
    requires { (top : ℕ) × Ascending 0 top (map slot_of rows.now) }
    ensures { IsPlace number (map slot_of rows.now) result }
{
    // The first ones, which never end, stand at their number less one.
    let first = number.wrapping_sub(1);
    if first < rows.len() as u64 && rows[first as usize].number == number {
        return Some(first as usize);
    }
    place_behind(rows, number)
}

// The same for one that does not stand at its number less one.
#[inline(always)]
fn place_behind(rows: &[Row], number: u64) -> Option<usize>
    requires { (top : ℕ) × Ascending 0 top (map slot_of rows.now) }
    ensures { IsPlace number (map slot_of rows.now) result }
{
    let count = rows.len();
    if count == 0 {
        return None;
    }
    // The active call's own stand as far from the last one as their numbers, where none between them has ended.
    let back = rows[count - 1].number.wrapping_sub(number);
    if back < count as u64 {
        let near = count - 1 - back as usize;
        if rows[near].number == number {
            return Some(near);
        }
    }
    searched(rows, number)
}

// The same by halves.
#[inline(never)]
fn searched(rows: &[Row], number: u64) -> Option<usize>
    requires { (top : ℕ) × Ascending 0 top (map slot_of rows.now) }
    ensures { IsPlace number (map slot_of rows.now) result }
{
    let mut low = 0;
    let mut high = rows.len();
    // The first look is near the end, where the active call's own stand.
    let mut look = high.saturating_sub(4);
    while low < high {
        let found = rows[look].number;
        if found == number {
            return Some(look);
        }
        if found < number {
            low = look + 1;
        } else {
            high = look;
        }
        look = low + (high - low) / 2;
    }
    None
}

// Takes an instance out: nearly always the last one.
#[inline]
fn taken(rows: &mut Vec<Row>, i: usize) -> Row
    requires { i < length rows.old.items }
    ensures value { result ≡ slice_index_or rows.old.items i result }
    ensures rest { rows.new.items ≡ take i rows.old.items ++ drop (suc i) rows.old.items }
{
    if i + 1 == rows.len() {
        rows.pop().unwrap()
    } else {
        rows.remove(i)
    }
}
