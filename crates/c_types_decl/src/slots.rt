// What a list may hold.

ghost use Rattle.std.specs.Prelude.{◌≡◌, map, take, OnOk, IfOk};
ghost use Rattle.c_syntax.specs.View.{type_of};
ghost use Rattle.c_tree.specs.Rulings.{rule, of_kind};
ghost use Rattle.c_tables.specs.Tables.{field_shape};
ghost use Rattle.c_tree.specs.Initialisers.{list_rule, slot, slot_rule, further};
ghost use Rattle.c_checker.specs.CheckerView.{state_of};
ghost use Rattle.c_types_decl.specs.SlotsView.{type_behind, slots_of, is_full, field_types, slots_with};

use c_base::place::{NoMemory, Pos};
use c_checker::checker::Checker;
use c_syntax::tree::CType;
use c_tables::tables::FieldRow;
use c_tree::complaints::WRONG_TYPE;
use c_type_rules::kinds::copy;
use std::alloc::Global;

/// What a list may still hold: so many of a type, these types in order, or anything, where that isn't known.
#[derive(Clone, Copy)]
pub enum Slots<'a> {
    Repeated(&'a CType, u32),
    These(&'a [CType]),
    Anything,
}

impl<'a> Slots<'a> {
    /// The next item's type.
    pub fn kind(self) -> Option<&'a CType>
        ensures { type_behind result ≡ slot (slots_of self.entry) }
    {
        match self {
            Slots::Repeated(_, 0) | Slots::Anything => None,
            Slots::Repeated(kind, _) => Some(kind),
            Slots::These(kinds) => kinds.first(),
        }
    }

    /// What it may hold behind the next item; behind an item too many, anything.
    pub fn further(self) -> Slots<'a>
        ensures { slots_of result ≡ further (slots_of self.entry) }
    {
        match self {
            Slots::Repeated(_, 0) | Slots::Anything => Slots::Anything,
            Slots::Repeated(kind, count) => Slots::Repeated(kind, count - 1),
            Slots::These(kinds) => match kinds.split_first() {
                None => Slots::Anything,
                Some((_, rest)) => Slots::These(rest),
            },
        }
    }

    // Whether there is no room for a further item.
    fn is_full(self) -> bool
        ensures { result ≡ is_full (slots_of self.entry) }
    {
        match self {
            Slots::Repeated(_, count) => count == 0,
            Slots::These(kinds) => kinds.is_empty(),
            Slots::Anything => false,
        }
    }
}

/// The next item has room; the first one too many has the complaint.
pub fn judge_slot(checker: &mut Checker, slots: Slots, pos: Pos) -> Result<(), NoMemory>
    ensures { OnOk result (state_of checker.new ≡ rule (slot_rule (slots_of slots.entry)) (state_of checker.old).at pos (state_of checker.old)) }
{
    checker.demand(!slots.is_full(), WRONG_TYPE, checker.at, pos)
}

/// A list stands for an array or a structure.
pub fn judge_list(checker: &mut Checker, kind: Option<&CType>, pos: Pos) -> Result<(), NoMemory>
    ensures { OnOk result (state_of checker.new ≡ rule (of_kind (type_behind kind.entry) list_rule) (state_of checker.old).at pos (state_of checker.old)) }
{
    match kind {
        None | Some(CType::Array(_, _)) | Some(CType::Struct(_)) => Ok(()),
        Some(_) => checker.complain(WRONG_TYPE, checker.at, pos),
    }
}

/// The types of a structure's first fields, at most so many; none of another type.
pub fn first_fields(
    checker: &Checker,
    kind: Option<&CType>,
    most: usize,
) -> Result<Vec<CType>, NoMemory>
    ensures { IfOk result (λ v. map type_of v.items ≡ take most (field_types (type_behind kind.entry) (state_of checker.now))) }
{
    match kind {
        Some(CType::Struct(n)) => {
            if *n == 0 || *n > checker.tables.structures() {
                Ok(Vec::new(checker.alloc))
            } else {
                first_kinds(&checker.tables.structure(*n).fields, most, checker.alloc)
            }
        }
        _ => Ok(Vec::new(checker.alloc)),
    }
}

// The types of the first fields, at most so many.
fn first_kinds(fields: &[FieldRow], most: usize, alloc: Global) -> Result<Vec<CType>, NoMemory>
    ensures { IfOk result (λ v. map type_of v.items ≡ take most (map (λ f. f.kind) (map field_shape fields.now))) }
{
    let mut kinds = Vec::new(alloc);
    for i in 0..fields.len().min(most) {
        let kind = copy(&fields[i].kind, alloc)?;
        if kinds.push(kind).is_err() {
            return Err(NoMemory);
        }
    }
    Ok(kinds)
}

/// What a list for that type may hold; for a structure these types.
pub fn slots_with<'a>(kind: Option<&'a CType>, fields: &'a [CType]) -> Slots<'a>
    ensures { slots_of result ≡ slots_with (type_behind kind.entry) (map type_of fields.now) }
{
    match kind {
        Some(CType::Array(of, length)) => Slots::Repeated(of, *length),
        Some(CType::Struct(_)) => Slots::These(fields),
        _ => Slots::Anything,
    }
}
