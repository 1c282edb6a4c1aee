//! One instance and its cells.

ghost use Rattle.std.specs.Prelude.{◌≡◌, ◌<◌, ◌≤◌, ◌+◌, length, take, drop, slice_set, slice_index_or, Some};
ghost use Rattle.c_store.specs.Held.{cells_in};
ghost use Rattle.c_store.specs.Copies.{with_part};

use crate::value::Value;

/// The cells of an instance: a single one stands in place, so that a scalar takes no memory of its own.
#[derive(Drop)]
pub enum Held {
    Unset,
    One(Value),
    Many(Vec<Option<Value>>),
}

/// An instance: its number, whether it may be written, and its cells.
#[derive(Drop)]
pub struct Instance {
    pub number: u64,
    pub writable: bool,
    pub cells: Held,
}

impl Held {
    /// How many cells. It costs a few machine instructions.
    #[inline(always)]
    pub fn len(&self) -> usize
        ensures { result ≡ length (cells_in self.now) }
    {
        match self {
            Held::Unset | Held::One(_) => 1,
            Held::Many(cells) => cells.len(),
        }
    }

    /// Gives a cell a value. It costs a few machine instructions.
    #[inline(always)]
    pub fn set(&mut self, index: usize, value: Value)
        requires { index < length (cells_in self.old) }
        ensures { cells_in self.new ≡ slice_set (cells_in self.old) index (Some value) }
    {
        match self {
            Held::Many(cells) => cells[index] = Some(value),
            _ => *self = Held::One(value),
        }
    }

    /// Makes the cells from `dest` on equal to those of the other from `start` on. It costs a few machine instructions for each.
    #[inline]
    pub fn copy_from(&mut self, from: &Held, start: usize, dest: usize, size: usize)
        requires first { start < length (cells_in from.now) }
        requires source { start + size ≤ length (cells_in from.now) }
        requires at { dest < length (cells_in self.old) }
        requires target { dest + size ≤ length (cells_in self.old) }
        ensures { cells_in self.new ≡ with_part (cells_in self.old) dest (take size (drop start (cells_in from.now))) }
    {
        if size == 1 {
            self.put(dest, from.get(start));
        } else if let Held::Many(to) = self
            && let Held::Many(from) = from
        {
            to[dest..dest + size].copy_from_slice(&from[start..start + size]);
        }
    }

    /// Makes the cells from `dest` on equal to those from `start` on, as they were. It costs a few machine instructions for each.
    #[inline]
    pub fn copy_within(&mut self, start: usize, dest: usize, size: usize)
        requires first { start < length (cells_in self.old) }
        requires source { start + size ≤ length (cells_in self.old) }
        requires at { dest < length (cells_in self.old) }
        requires target { dest + size ≤ length (cells_in self.old) }
        ensures { cells_in self.new ≡ with_part (cells_in self.old) dest (take size (drop start (cells_in self.old))) }
    {
        // One cell is copied onto itself.
        if let Held::Many(cells) = self {
            cells.copy_within(start..start + size, dest);
        }
    }

    // A cell's value, if it has one.
    fn get(&self, index: usize) -> Option<Value>
        requires { index < length (cells_in self.now) }
        ensures { result ≡ slice_index_or (cells_in self.now) index result }
    {
        match self {
            Held::Unset => None,
            Held::One(value) => Some(*value),
            Held::Many(cells) => cells[index],
        }
    }

    // Gives a cell a value, or none.
    fn put(&mut self, index: usize, value: Option<Value>)
        requires { index < length (cells_in self.old) }
        ensures { cells_in self.new ≡ slice_set (cells_in self.old) index value }
    {
        match self {
            Held::Many(cells) => cells[index] = value,
            _ => {
                *self = match value {
                    None => Held::Unset,
                    Some(value) => Held::One(value),
                }
            }
        }
    }
}
