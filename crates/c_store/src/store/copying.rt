//! The cells of one element, copied to another.

ghost use Rattle.std.specs.Prelude.{◌≡◌, ◌<◌, OnErr, Ok, length, map};
ghost use Rattle.c_store.specs.Cells.{Slot, IsElement, IsWritten, cell_of, element_of, replace, slot_of};
ghost use Rattle.c_store.specs.Copies.{cells_at, copy_of, reach_of, with_part};

use super::{Store, cell};
use crate::instance::{Held, Instance};
use crate::value::{Fault, Pointer};
use std::mem;

impl Store {
    /// Whether an element's cells may be read, if they have values: first its instance must live, then the element lie in it. It costs what a read costs.
    #[inline(always)]
    pub fn reach_cells(&self, at: Pointer) -> Result<(), Fault>
        ensures { result ≡ reach_of self.now at }
    {
        let _i = self.element(at)?;
        Ok(())
    }

    /// Makes the cells of an element equal to those of another of its size, as they were: beside a cell without value there is one without value. First the element that is read must live and lie in its instance, then the one that is written, whose instance must be no literal's. It takes no memory, and costs two look-ups and a few machine instructions for each cell.
    pub fn copy(&mut self, from: Pointer, to: Pointer) -> Result<(), Fault>
        requires { from.size ≡ to.size }
        ensures is { IsWritten result self.new (copy_of self.old from to) }
        ensures kept { OnErr result (self.new ≡ self.old) }
    {
        let i = self.element(from)?;
        let j = self.element(to)?;
        if !self.instances[j].writable {
            return Err(Fault::WriteLiteral);
        }
        copy_cells(&mut self.instances, i, j, from, to);
        Ok(())
    }
}

// Copies the cells of an element of the instance at one place to an element of that at another, or at the same.
fn copy_cells(instances: &mut [Instance], i: usize, j: usize, from: Pointer, to: Pointer)
    requires i_in { i < length instances.old }
    requires j_in { j < length instances.old }
    requires source { IsElement from (map slot_of instances.old) (Ok i) }
    requires target { IsElement to (map slot_of instances.old) (Ok j) }
    requires size { from.size ≡ to.size }
    ensures { (s t : Slot) → element_of (map slot_of instances.old) from ≡ Ok s → element_of (map slot_of instances.old) to ≡ Ok t → map slot_of instances.new ≡ replace to.instance (record t { cells = with_part t.cells (cell_of to) (cells_at s from) }) (map slot_of instances.old) }
{
    let start = cell(from) as usize;
    let dest = cell(to) as usize;
    let size = from.size as usize;
    if i == j {
        instances[j].cells.copy_within(start, dest, size);
    } else {
        let mut held = mem::replace(&mut instances[j].cells, Held::Unset);
        held.copy_from(&instances[i].cells, start, dest, size);
        instances[j].cells = held;
    }
}
