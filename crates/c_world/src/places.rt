//! Pointers to instances and to their cells.

ghost use Rattle.std.specs.Prelude.{◌≡◌, ℕ, IfOk};
ghost use Rattle.c_syntax.specs.View.{type_of};
ghost use Rattle.c_tables.specs.Tables.{tables_shape};
ghost use Rattle.c_meaning.specs.State.{State};
ghost use Rattle.c_meaning.specs.Layout.{cells};
ghost use Rattle.c_meaning.specs.Firsts.{cell_at};
ghost use Rattle.c_meaning.specs.Places.{whole, first_cell, next_cell, first_of, object_at, has_part};
ghost use Rattle.c_base.specs.Kept.{kept};
ghost use Rattle.c_world.specs.Steps.{found};

use c_base::place::NoMemory;
use c_compute::layout::cells;
use c_events::events::Cell;
use c_meaning::end::Stop;
use c_store::value::{Fault, Pointer};
use c_syntax::tree::CType;
use c_tables::tables::Tables;

/// A pointer to the whole of an instance of so many cells.
#[inline(always)]
pub fn whole(instance: u64, size: u32) -> Pointer
    ensures { result ≡ whole instance size }
{
    Pointer {
        instance,
        base: 0,
        length: 1,
        size,
        index: 0,
    }
}

/// A pointer to the first of an instance's cells, of which there are so many.
#[inline(always)]
pub fn first_cell(instance: u64, length: u32) -> Pointer
    ensures { result ≡ first_cell instance length }
{
    Pointer {
        instance,
        base: 0,
        length,
        size: 1,
        index: 0,
    }
}

/// A pointer to the next cell. There is no memory for an index of more than 32 bits.
#[inline(always)]
pub fn next_cell(at: Pointer) -> Result<Pointer, NoMemory>
    ensures { IfOk result (λ q. q ≡ next_cell at) }
{
    if at.index == u32::MAX {
        return Err(NoMemory);
    }
    Ok(Pointer {
        instance: at.instance,
        base: at.base,
        length: at.length,
        size: at.size,
        index: at.index + 1,
    })
}

/// The cell that a pointer stands at, as events name it. There is no memory for a cell's number of more than 32 bits.
#[inline(always)]
pub fn cell_at(at: Pointer) -> Result<Cell, NoMemory>
    ensures { IfOk result (λ c. c ≡ cell_at at) }
{
    let index = u64::from(at.base) + u64::from(at.index) * u64::from(at.size);
    if index > u64::from(u32::MAX) {
        return Err(NoMemory);
    }
    Ok(Cell {
        instance: at.instance,
        index: index as u32,
    })
}

/// A pointer to the first cell of the element at that place. There is no memory for a cell's number of more than 32 bits.
#[inline(always)]
pub fn first_of(at: Pointer) -> Result<Pointer, NoMemory>
    ensures { IfOk result (λ q. q ≡ first_of at) }
{
    let cell = cell_at(at)?;
    Ok(Pointer {
        instance: at.instance,
        base: cell.index,
        length: at.size,
        size: 1,
        index: 0,
    })
}

/// How many cells an object of the type has; 4,294,967,295 where it has more. A scalar's is known at once.
#[inline(always)]
pub fn cells_in(tables: &Tables, kind: &CType) -> u32
    ensures { result ≡ kept (cells (tables_shape tables.now) (type_of kind.now)) }
{
    match kind {
        CType::Int(_) | CType::Pointer(_) => 1,
        CType::Array(_, _) | CType::Struct(_) | CType::Void => cells(tables, kind),
    }
}

/// A pointer to the whole of an instance of so many cells; NoResult where no object has so many.
#[inline(always)]
pub fn object_at(instance: u64, cells: u32) -> Result<Pointer, Stop>
    ensures { (n : ℕ) (s : State) → cells ≡ kept n → object_at n instance s ≡ found result s }
{
    if cells > 1_048_576 {
        return Err(Stop::Fault(Fault::NoResult));
    }
    Ok(whole(instance, cells))
}

/// Whether so many elements of that size, from the offset on, lie in the element at that place.
#[inline(always)]
pub fn has_part(at: Pointer, offset: u32, length: u32, size: u32) -> bool
    ensures { result ≡ has_part at offset length size }
{
    offset <= 1_048_576
        && size <= 1_048_576
        && u64::from(offset) + u64::from(length) * u64::from(size) <= u64::from(at.size)
}
