// What is known of an expression.

ghost use Rattle.std.specs.Prelude.{◌≡◌, None, IfOk};
ghost use Rattle.c_type_rules.specs.Kinds.{type_in};
ghost use Rattle.c_syntax.specs.View.{type_of, note_shape};
ghost use Rattle.c_tree.specs.Operators.{left_side};
ghost use Rattle.c_tree.specs.Sorts.{no_sort, a_value, a_place, plainly, naming, valuing, note_of, value_note, cleared, null, changeable};
ghost use Rattle.c_checker.specs.RulingView.{ruled_of};
ghost use Rattle.c_checker.specs.SortView.{sort_of, typing_of};

use crate::ruling::{Ruling, settled_if};
use c_base::place::NoMemory;
use c_constants::constants::{Constant, is_null};
use c_syntax::tree::{CType, Note};
use c_tree::complaints::NOT_A_LEFT_SIDE;
use c_type_rules::judged::Operand;
use c_type_rules::kinds::copy;
use std::alloc::Global;

/// What is known of an expression: its type, where no complaint stands inside; what is known of its value (C89, 3.4); and
/// whether it is a place (C89, 3.2.2.1).
#[derive(Drop)]
pub struct Sort {
    pub kind: Option<CType>,
    pub constant: Constant,
    pub place: bool,
}

/// What is known of a form: the sort of the expression, the number of what it names, and whether its note holds its value.
#[derive(Drop)]
pub struct Typing {
    pub sort: Sort,
    pub names: Option<u32>,
    pub valued: bool,
}

impl Sort {
    /// Nothing is known.
    pub fn none() -> Sort
        ensures { sort_of result ≡ no_sort }
    {
        Sort {
            kind: None,
            constant: Constant::No,
            place: false,
        }
    }

    /// A value of that type.
    pub fn value(kind: Option<CType>, constant: Constant) -> Sort
        ensures { sort_of result ≡ a_value (type_in kind) constant }
    {
        Sort {
            kind,
            constant,
            place: false,
        }
    }

    /// A place of that type.
    pub fn place(kind: Option<CType>, constant: Constant) -> Sort
        ensures { sort_of result ≡ a_place (type_in kind) constant }
    {
        Sort {
            kind,
            constant,
            place: true,
        }
    }

    /// It, if no complaint came in the expression.
    pub fn cleared(self, clean: bool) -> Sort
        ensures { sort_of result ≡ cleared clean (sort_of self) }
    {
        if clean { self } else { Sort::none() }
    }

    /// Whether it is a null constant (C89, 3.2.2.3).
    pub fn is_null(&self) -> bool
        ensures { result ≡ null (sort_of self.now) }
    {
        is_null(self.constant)
    }

    /// What may be changed, or have its address taken: a place.
    pub fn changeable(self) -> Ruling
        ensures { ruled_of result ≡ changeable (sort_of self) }
    {
        settled_if(self.place, NOT_A_LEFT_SIDE, self.kind)
    }

    /// The left side of an assignment is a place; nothing is said of it where a complaint stands inside the right one.
    pub fn left_side(self, right: &Sort) -> Ruling
        ensures { ruled_of result ≡ left_side (sort_of self) (sort_of right.now) }
    {
        match right.kind {
            None => Ruling::Unsettled,
            Some(_) => self.changeable(),
        }
    }

    /// It, as an operand.
    pub fn operand(self) -> Operand
        ensures kind { type_in result.kind ≡ (sort_of self).kind }
        ensures null { result.null ≡ null (sort_of self) }
    {
        let null = self.is_null();
        Operand {
            kind: self.kind,
            null,
        }
    }
}

impl Typing {
    /// Of an expression that names nothing.
    pub fn plainly(sort: Sort) -> Typing
        ensures { typing_of result ≡ plainly (sort_of sort) }
    {
        Typing {
            sort,
            names: None,
            valued: false,
        }
    }

    /// Of an expression that names what has that number.
    pub fn naming(sort: Sort, number: Option<u32>) -> Typing
        ensures { typing_of result ≡ naming (sort_of sort) number }
    {
        Typing {
            sort,
            names: number,
            valued: false,
        }
    }

    /// Of an expression whose note holds its value.
    pub fn valuing(sort: Sort) -> Typing
        ensures { typing_of result ≡ valuing (sort_of sort) }
    {
        Typing {
            sort,
            names: None,
            valued: true,
        }
    }
}

/// The same type once more, if there is one.
pub fn copied(kind: &Option<CType>, alloc: Global) -> Result<Option<CType>, NoMemory>
    ensures { IfOk result (λ k. type_in k ≡ type_in kind.now) }
{
    match kind {
        None => Ok(None),
        Some(kind) => Ok(Some(copy(kind, alloc)?)),
    }
}

/// The note of an expression of that type, if there is one.
pub fn note(
    alloc: Global,
    kind: &Option<CType>,
    constant: Constant,
    names: Option<u32>,
    valued: bool,
) -> Result<Note, NoMemory>
    ensures { IfOk result (λ n. note_shape n ≡ note_of (type_in kind.now) constant names valued) }
{
    match kind {
        None => Ok(Note::Bare),
        Some(kind) => {
            let kind = copy(kind, alloc)?;
            if valued {
                Ok(value_note(kind, constant))
            } else {
                Ok(Note::Typed(kind, names))
            }
        }
    }
}

// With its value, if it is known.
fn value_note(kind: CType, constant: Constant) -> Note
    ensures { note_shape result ≡ value_note (type_of kind) constant }
{
    match constant {
        Constant::Known(_, value) => Note::Known(kind, value),
        _ => Note::Typed(kind, None),
    }
}
