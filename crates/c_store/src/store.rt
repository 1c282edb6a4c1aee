//! The live instances, read, written, made and ended.

ghost use Rattle.std.specs.Prelude.{◌≡◌, suc, length, take, drop, ◌++◌, slice_index_or, ◌+◌, ◌*◌, ◌<◌, ◌^◌, map, ℕ, IfOk, Some, OnOk, replicate, None};
ghost use Rattle.c_store.specs.Held.{cells_in};
ghost use Rattle.c_store.specs.Cells.{slot_of, cell_of, is_inside, is_same, is_one_array, literal_cells, signed_char, IsPlace, Ascending, Slot, element_in, read_in};

mod copying;

use crate::instance::{Held, Instance};
use crate::value::{Fault, MakeErr, Order, Pointer, Value};
use std::alloc::{AllocError, Global};
use std::marker::Model;

/// The live instances, and how many were made.
#[derive(Drop)]
pub struct Store {
    alloc: Global,
    most: u32,
    used: u32,
    count: u64,
    instances: Vec<Instance>,
}

impl Model for Store {
    ghost use Rattle.std.specs.Prelude.{map, ◌≡◌, ◌<◌, ◌≤◌, ◌^◌};
    ghost use Rattle.c_store.specs.Cells.{Cells, slot_of, cell_count, Ascending};

    ghost Value = { Cells };

    ghost view = { λ s. record { most = s.most; count = s.count; live = map slot_of s.instances.items } };

    ghost invariant = { λ s. Ascending 0 s.count (map slot_of s.instances.items) × (s.used ≡ cell_count (map slot_of s.instances.items)) × (s.used ≤ s.most) × (s.most < 2 ^ 32) };
}

impl Store {
    ghost use Rattle.std.specs.Prelude.{◌≡◌, [], OnErr, OnOk, IfOk, ◌<◌, ◌≤◌, ◌-◌, ◌+◌, ◌*◌, ◌^◌, length, true, false, replicate, None};
    ghost use Rattle.c_store.specs.Held.{cells_in};
    ghost use Rattle.c_store.specs.Cells.{Cells, IsStore, IsLive, IsPointer, cell_count, read_of, write_of, made, ended, selected, stepped, compared, differed, literal_cells, IsWritten, IsMade, IsPlace, IsElement, cell_of};

    /// An empty store, in which at most so many cells may live. It costs a few machine instructions.
    pub fn new(alloc: Global, most: u32) -> Store
        ensures { result ≡ record { most = most; count = 0; live = [] } }
    {
        Store {
            alloc,
            most,
            used: 0,
            count: 0,
            instances: Vec::new(alloc),
        }
    }

    /// How many cells live. It costs a few machine instructions.
    #[inline(always)]
    pub fn live(&self) -> u32
        ensures count { result ≡ cell_count self.now.live }
        ensures sound { IsStore self.now }
    {
        self.used
    }

    /// The value of a cell: first its instance must live, then the element lie in it, then the cell have a value. It costs a few machine instructions beside the look-up of the instance, which is at once where all that were made before it live, or all that were made after it, and else takes the logarithm of the live ones.
    #[inline(always)]
    pub fn read(&self, at: Pointer) -> Result<Value, Fault>
        ensures { result ≡ read_of self.now at }
    {
        let Some(i) = self.place(at.instance) else {
            return Err(Fault::Dangling);
        };
        value_in(&self.instances[i].cells, at)
    }

    /// Gives a cell a value: first its instance must live, then the element lie in it, then the instance be no literal's. It costs what a read costs.
    #[inline(always)]
    pub fn write(&mut self, at: Pointer, value: Value) -> Result<(), Fault>
        ensures is { IsWritten result self.new (write_of self.old at value) }
        ensures kept { OnErr result (self.new ≡ self.old) }
    {
        let i = self.element(at)?;
        let instance = &mut self.instances[i];
        if !instance.writable {
            return Err(Fault::WriteLiteral);
        }
        instance.cells.set(cell(at) as usize, value);
        Ok(())
    }

    /// Makes an instance of cells without value, and gives its number. On average it costs what the cells cost.
    pub fn make(&mut self, cells: u32) -> Result<u64, MakeErr>
        requires { self.old.count < 2 ^ 64 - 1 }
        ensures is { IsMade result self.new (made self.old true (replicate cells None)) }
        ensures kept { OnErr result (self.new ≡ self.old) }
    {
        if cells > self.most - self.used {
            return Err(MakeErr::Room);
        }
        match no_values(self.alloc, cells) {
            Ok(values) => self.keep(true, values),
            Err(_) => Err(MakeErr::NoMemory),
        }
    }

    /// Makes the instance of a string literal: the bytes as signed chars and a zero, not writable. On average it costs what the bytes cost.
    pub fn make_literal(&mut self, bytes: &[u8]) -> Result<u64, MakeErr>
        requires { self.old.count < 2 ^ 64 - 1 }
        ensures is { IsMade result self.new (made self.old false (literal_cells bytes.now)) }
        ensures kept { OnErr result (self.new ≡ self.old) }
    {
        if bytes.len() >= (self.most - self.used) as usize {
            return Err(MakeErr::Room);
        }
        match literal(self.alloc, bytes) {
            Ok(values) => self.keep(false, Held::Many(values)),
            Err(_) => Err(MakeErr::NoMemory),
        }
    }

    /// Ends an instance. It costs what its cells and its look-up cost, and a step for each live one that was made later.
    pub fn end(&mut self, instance: u64)
        requires { IsLive instance self.old }
        ensures { self.new ≡ ended self.old instance }
    {
        if let Some(i) = self.place(instance) {
            let ended = taken(&mut self.instances, i);
            self.used -= ended.cells.len() as u32;
            drop(ended);
        }
    }

    /// The part of an element that begins at the offset, as an array of `length` elements of `size` cells. It costs what a read costs.
    #[inline]
    pub fn select(&self, at: Pointer, offset: u32, length: u32, size: u32) -> Result<Pointer, Fault>
        requires { offset + length * size ≤ at.size }
        ensures { result ≡ selected self.now at offset length size }
    {
        let _i = self.element(at)?;
        let base = cell(at) + offset as u64;
        Ok(Pointer {
            instance: at.instance,
            base: base as u32,
            length,
            size,
            index: 0,
        })
    }

    /// The pointer as many elements further on, from the array's first to one past its last. It costs a few machine instructions.
    #[inline]
    pub fn step_pointer(&self, from: Value, by: i128) -> Result<Value, Fault>
        requires { IsPointer from }
        ensures { result ≡ stepped from by }
    {
        let Value::At(at) = from else {
            return Err(Fault::Null);
        };
        let back = at.index as i128;
        if by < -back || by > at.length as i128 - back {
            return Err(Fault::OutOfBounds);
        }
        Ok(Value::At(Pointer {
            index: (back + by) as u32,
            ..at
        }))
    }

    /// Compares two pointers: `==` and `!=` their cells, the others their places in one array. It costs a few machine instructions.
    #[inline]
    pub fn compare(&self, order: Order, a: Value, b: Value) -> Result<bool, Fault>
        requires left { IsPointer a }
        requires right { IsPointer b }
        ensures { result ≡ compared order a b }
    {
        match order {
            Order::Lt => Ok(self.difference(a, b)? < 0),
            Order::Gt => Ok(self.difference(a, b)? > 0),
            Order::Le => Ok(self.difference(a, b)? <= 0),
            Order::Ge => Ok(self.difference(a, b)? >= 0),
            Order::Eq => Ok(same(a, b)),
            Order::Ne => Ok(!same(a, b)),
        }
    }

    /// How many elements of one array the left pointer stands after the right. It costs a few machine instructions.
    #[inline]
    pub fn difference(&self, a: Value, b: Value) -> Result<i128, Fault>
        requires left { IsPointer a }
        requires right { IsPointer b }
        ensures { result ≡ differed a b }
    {
        match (a, b) {
            (Value::At(p), Value::At(q)) => {
                if one_array(p, q) {
                    Ok(p.index as i128 - q.index as i128)
                } else {
                    Err(Fault::OtherArray)
                }
            }
            _ => Err(Fault::Null),
        }
    }

    // A new instance of these cells, for which there is room.
    fn keep(&mut self, writable: bool, cells: Held) -> Result<u64, MakeErr>
        requires fewer { self.old.count < 2 ^ 64 - 1 }
        requires room { cell_count self.old.live + length (cells_in cells) ≤ self.old.most }
        ensures is { IsMade result self.new (made self.old writable (cells_in cells)) }
        ensures kept { OnErr result (self.new ≡ self.old) }
    {
        let number = self.count + 1;
        let used = self.used + cells.len() as u32;
        let pushed = self.instances.push(Instance {
            number,
            writable,
            cells,
        });
        match pushed {
            Ok(()) => {
                self.count = number;
                self.used = used;
                Ok(number)
            }
            Err(_) => Err(MakeErr::NoMemory),
        }
    }

    // Where the instance stands whose cells hold the pointer's element.
    #[inline(always)]
    fn element(&self, at: Pointer) -> Result<usize, Fault>
        ensures element { IsElement at self.now.live result }
        ensures small { IfOk result (λ i. cell_of at + at.size < 2 ^ 32) }
    {
        match self.place(at.instance) {
            None => Err(Fault::Dangling),
            Some(i) => {
                if inside(at, self.instances[i].cells.len()) {
                    Ok(i)
                } else {
                    Err(Fault::OutOfBounds)
                }
            }
        }
    }

    // Where a live instance stands.
    #[inline(always)]
    fn place(&self, number: u64) -> Option<usize>
        ensures { IsPlace number self.now.live result }
    {
        place_in(&self.instances, number)
    }
}

// The same in a list in which the numbers ascend.
#[inline(always)]
fn place_in(instances: &[Instance], number: u64) -> Option<usize>
    requires { (top : ℕ) × Ascending 0 top (map slot_of instances.now) }
    ensures { IsPlace number (map slot_of instances.now) result }
{
    // The first ones, which never end, stand at their number less one.
    let first = number.wrapping_sub(1);
    if first < instances.len() as u64 && instances[first as usize].number == number {
        return Some(first as usize);
    }
    place_behind(instances, number)
}

// The same for one that does not stand at its number less one.
#[inline(always)]
fn place_behind(instances: &[Instance], number: u64) -> Option<usize>
    requires { (top : ℕ) × Ascending 0 top (map slot_of instances.now) }
    ensures { IsPlace number (map slot_of instances.now) result }
{
    let count = instances.len();
    if count == 0 {
        return None;
    }
    // The active call's own stand as far from the last one as their numbers, where none between them has ended.
    let back = instances[count - 1].number.wrapping_sub(number);
    if back < count as u64 {
        let near = count - 1 - back as usize;
        if instances[near].number == number {
            return Some(near);
        }
    }
    searched(instances, number)
}

// The same by halves.
#[inline(never)]
fn searched(instances: &[Instance], number: u64) -> Option<usize>
    requires { (top : ℕ) × Ascending 0 top (map slot_of instances.now) }
    ensures { IsPlace number (map slot_of instances.now) result }
{
    let mut low = 0;
    let mut high = instances.len();
    // The first look is near the end, where the active call's own stand.
    let mut look = high.saturating_sub(4);
    while low < high {
        let found = instances[look].number;
        if found == number {
            return Some(look);
        }
        if found < number {
            low = look + 1;
        } else {
            high = look;
        }
        look = low + (high - low) / 2;
    }
    None
}

// Takes an instance out: nearly always the last one.
#[inline]
fn taken(instances: &mut Vec<Instance>, i: usize) -> Instance
    requires { i < length instances.old.items }
    ensures value { result ≡ slice_index_or instances.old.items i result }
    ensures rest { instances.new.items ≡ take i instances.old.items ++ drop (suc i) instances.old.items }
{
    if i + 1 == instances.len() {
        instances.pop().unwrap()
    } else {
        instances.remove(i)
    }
}

// The value of the pointer's cell, of an instance with these cells.
#[inline(always)]
fn value_in(cells: &Held, at: Pointer) -> Result<Value, Fault>
    ensures { (s : Slot) → s.cells ≡ cells_in cells.now → result ≡ read_in (element_in (Some s) at) at }
{
    match cells {
        Held::Unset => {
            if inside(at, 1) {
                Err(Fault::Uninitialised)
            } else {
                Err(Fault::OutOfBounds)
            }
        }
        Held::One(value) => {
            if inside(at, 1) {
                Ok(*value)
            } else {
                Err(Fault::OutOfBounds)
            }
        }
        Held::Many(cells) => {
            if !inside(at, cells.len()) {
                return Err(Fault::OutOfBounds);
            }
            match &cells[cell(at) as usize] {
                None => Err(Fault::Uninitialised),
                Some(value) => Ok(*value),
            }
        }
    }
}

// The cell that a pointer stands at, counted from its instance's first.
#[inline(always)]
fn cell(at: Pointer) -> u64
    ensures value { result ≡ cell_of at }
    ensures small { result + at.size < 2 ^ 64 }
{
    at.base as u64 + at.index as u64 * at.size as u64
}

// The pointer stands at an element of its array, whose cells are among as many as counted.
#[inline(always)]
fn inside(at: Pointer, cells: usize) -> bool
    ensures { result ≡ is_inside at cells }
{
    let from = cell(at);
    at.index < at.length && from < cells as u64 && from + at.size as u64 <= cells as u64
}

// As many cells without value.
#[inline]
fn no_values(alloc: Global, count: u32) -> Result<Held, AllocError>
    ensures { IfOk result (λ h. cells_in h ≡ replicate count None) }
{
    if count == 1 {
        return Ok(Held::Unset);
    }
    Ok(Held::Many(vec![in alloc; None; count as usize]?))
}

// The cells of a string literal.
fn literal(alloc: Global, bytes: &[u8]) -> Result<Vec<Option<Value>>, AllocError>
    ensures { IfOk result (λ v. v.items ≡ literal_cells bytes.now) }
{
    let mut cells = Vec::with_capacity(alloc, bytes.len().saturating_add(1))?;
    for byte in bytes {
        cells.push(Some(Value::Int(signed_char(*byte))))?;
    }
    cells.push(Some(Value::Int(0)))?;
    Ok(cells)
}

// The char of a byte.
fn signed_char(byte: u8) -> i128
    ensures { result ≡ signed_char byte }
{
    if byte < 128 {
        byte as i128
    } else {
        byte as i128 - 256
    }
}

// The pointers go through one array.
#[inline(always)]
fn one_array(p: Pointer, q: Pointer) -> bool
    ensures { result ≡ is_one_array p q }
{
    p.instance == q.instance && p.base == q.base && p.length == q.length && p.size == q.size
}

// Both are null, or both stand at one cell of one instance.
#[inline(always)]
fn same(a: Value, b: Value) -> bool
    ensures { result ≡ is_same a b }
{
    match (a, b) {
        (Value::Null, Value::Null) => true,
        (Value::At(p), Value::At(q)) => p.instance == q.instance && cell(p) == cell(q),
        _ => false,
    }
}
