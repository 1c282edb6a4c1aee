// The room of each type, and of a structure.

ghost use Rattle.std.specs.Prelude.{◌≡◌, ◌+◌, ◌*◌, ◌≤◌, map};
ghost use Rattle.c_syntax.specs.View.{type_of};
ghost use Rattle.c_type_rules.specs.Layouts.{extent_of, measure_of, measures, limited, onward, bytes, stricter, round_up, scalar, int_align, repeated, numbered, measure, empty, joined, closed, known, followed, structure_measure};

use crate::extent::{Align, Layout, Measured};
use c_base::place::IntKind;
use c_syntax::tree::CType;

/// The room of the type (C89, 3.3.3.4), over the room of each structure, the first of which has the number 1. Incomplete is a
/// void, a structure without a row, and what has an incomplete one inside; too large is what has more than 1048576 cells.
pub fn measured(kind: &CType, structures: &[Measured]) -> Measured
    ensures { measure_of result ≡ measure (measures structures.now) (type_of kind.now) }
{
    match kind {
        CType::Int(kind) => Measured::Known(scalar(int_align(*kind))),
        CType::Pointer(_) => Measured::Known(scalar(Align::Eight)),
        CType::Array(of, length) => repeated(measured(of, structures), *length),
        CType::Struct(number) => numbered(structures, *number),
        CType::Void => Measured::Incomplete,
    }
}

/// The room of a structure with these fields (C89, 3.5.2.1): each field in order, at a multiple of its alignment, and the whole
/// filled up to a multiple of the largest. The first field that is incomplete, or that makes it too large, decides.
pub fn structure_measured(fields: &[CType], structures: &[Measured]) -> Measured
    ensures { measure_of result ≡ structure_measure (measures structures.now) (map type_of fields.now) }
{
    let mut so_far = nothing_yet();
    for i in 0..fields.len() {
        so_far = followed(so_far, measured(&fields[i], structures));
    }
    match so_far {
        Measured::Known(layout) => Measured::Known(closed(layout)),
        stop => stop,
    }
}

// No field was laid out.
fn nothing_yet() -> Measured
    ensures { measure_of result ≡ known empty }
{
    Measured::Known(Layout {
        size: 0,
        align: Align::One,
        cells: 0,
    })
}

// What was laid out so far, and a field behind it.
fn followed(so_far: Measured, field: Measured) -> Measured
    ensures { measure_of result ≡ followed (measure_of so_far) (measure_of field) }
{
    match (so_far, field) {
        (Measured::Known(so_far), Measured::Known(field)) => joined(so_far, field),
        (Measured::Known(_), stop) => stop,
        (stop, _) => stop,
    }
}

// The field at a multiple of its alignment.
fn joined(so_far: Layout, field: Layout) -> Measured
    ensures { measure_of result ≡ limited (joined (extent_of so_far) (extent_of field)) }
{
    let start = rounded(so_far.size, field.align, so_far.cells);
    let cells = so_far.cells + field.cells;
    if cells <= 1_048_576 {
        let align = stricter(so_far.align, field.align);
        Measured::Known(Layout {
            size: start + field.size,
            align,
            cells,
        })
    } else {
        Measured::TooLarge
    }
}

// Filled up to a multiple of the largest alignment.
fn closed(so_far: Layout) -> Layout
    ensures { extent_of result ≡ closed (extent_of so_far) }
{
    let size = rounded(so_far.size, so_far.align, so_far.cells);
    Layout {
        size,
        align: so_far.align,
        cells: so_far.cells,
    }
}

// The bytes, and what is missing to a multiple of the alignment; no more than that many cells have.
#[tactic(auto, using(crate::proofs::Rounded::room_left))]
fn rounded(size: u64, align: Align, cells: u32) -> u64
    requires { size ≤ 8 * cells }
    ensures value { result ≡ round_up size (bytes align) }
    ensures small { result ≤ 8 * cells }
{
    let bytes = bytes(align);
    let above = size % bytes;
    if above == 0 {
        size
    } else {
        size + (bytes - above)
    }
}

// The larger of the two.
fn stricter(a: Align, b: Align) -> Align
    ensures { result ≡ stricter a b }
{
    if bytes(a) < bytes(b) { b } else { a }
}

// How many bytes it is.
fn bytes(align: Align) -> u64
    ensures { result ≡ bytes align }
{
    match align {
        Align::One => 1,
        Align::Two => 2,
        Align::Four => 4,
        Align::Eight => 8,
    }
}

// An integer's or a pointer's room.
fn scalar(align: Align) -> Layout
    ensures { extent_of result ≡ scalar align }
{
    let size = bytes(align);
    Layout {
        size,
        align,
        cells: 1,
    }
}

// As many bytes as the type is wide.
fn int_align(kind: IntKind) -> Align
    ensures { result ≡ int_align kind }
{
    match kind {
        IntKind::Char | IntKind::UChar => Align::One,
        IntKind::Short | IntKind::UShort => Align::Two,
        IntKind::Int | IntKind::UInt => Align::Four,
        IntKind::Long | IntKind::ULong => Align::Eight,
    }
}

// So many of them.
fn repeated(element: Measured, length: u32) -> Measured
    ensures { measure_of result ≡ onward (measure_of element) (λ e. limited (repeated length e)) }
{
    match element {
        Measured::Known(element) => array(element, length),
        stop => stop,
    }
}

// The elements, one behind the other.
fn array(element: Layout, length: u32) -> Measured
    ensures { measure_of result ≡ limited (repeated length (extent_of element)) }
{
    let cells = u64::from(length) * u64::from(element.cells);
    if cells <= 1_048_576 {
        let size = u64::from(length) * element.size;
        Measured::Known(Layout {
            size,
            align: element.align,
            cells: cells as u32,
        })
    } else {
        Measured::TooLarge
    }
}

// The room in the row of the structure with that number, the first of which is 1.
fn numbered(structures: &[Measured], number: u32) -> Measured
    ensures { measure_of result ≡ numbered (measures structures.now) number }
{
    if number == 0 {
        return Measured::Incomplete;
    }
    match structures.get(number as usize - 1) {
        Some(measured) => *measured,
        None => Measured::Incomplete,
    }
}
