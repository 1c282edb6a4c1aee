// The recursion over initialisers.

ghost use Rattle.std.specs.Prelude.{◌≡◌, OnOk};
ghost use Rattle.c_type_rules.specs.Kinds.{type_in};
ghost use Rattle.c_syntax.specs.View.{init_shape, init_list};
ghost use Rattle.c_tree.specs.Initialisers.{list_end, init_pos, type_init, type_inits};
ghost use Rattle.c_checker.specs.CheckerView.{state_of};
ghost use Rattle.c_types_decl.specs.Braces.{in_braces};
ghost use Rattle.c_types_decl.specs.SlotsView.{type_behind, slots_of};

use crate::slots::{Slots, first_fields, judge_list, judge_slot, slots_with};
use crate::values::type_one;
use c_base::place::{NoMemory, Pos};
use c_checker::checker::Checker;
use c_syntax::tree::{CType, Init};

/// Types an initialiser in place, for an object of that type, if it is known; `constant` says that its values must be
/// constants, as those in lists always must (C89, 3.5.7).
pub fn type_init(
    checker: &mut Checker,
    constant: bool,
    kind: &Option<CType>,
    init: &mut Init,
) -> Result<(), NoMemory>
    ensures tree { OnOk result (init_shape init.new ≡ (type_init constant (type_in kind.now) (init_shape init.old) (state_of checker.old)).init) }
    ensures state { OnOk result (state_of checker.new ≡ (type_init constant (type_in kind.now) (init_shape init.old) (state_of checker.old)).state) }
{
    match kind {
        None => type_for(checker, constant, None, init),
        Some(kind) => type_for(checker, constant, Some(kind), init),
    }
}

// The same, with the type behind a reference.
#[cycle(initialisers)]
fn type_for(
    checker: &mut Checker,
    constant: bool,
    kind: Option<&CType>,
    init: &mut Init,
) -> Result<(), NoMemory>
    ensures tree { OnOk result (init_shape init.new ≡ (type_init constant (type_behind kind.entry) (init_shape init.old) (state_of checker.old)).init) }
    ensures state { OnOk result (state_of checker.new ≡ (type_init constant (type_behind kind.entry) (init_shape init.old) (state_of checker.old)).state) }
{
    match init {
        Init::One(node) => {
            type_one(checker, constant, kind, node)?;
            Ok(())
        }
        Init::List(pos, items, last) => {
            type_list(checker, kind, *pos, items)?;
            checker.steps(list_end(*last));
            Ok(())
        }
    }
}

// The items of a list, from its brace on.
#[cycle(initialisers)]
fn type_list(
    checker: &mut Checker,
    kind: Option<&CType>,
    pos: Pos,
    items: &mut Vec<Init>,
) -> Result<(), NoMemory>
    ensures tree { OnOk result (init_list items.new.items ≡ (in_braces (type_behind kind.entry) pos (init_list items.old.items) (state_of checker.old)).inits) }
    ensures state { OnOk result (state_of checker.new ≡ (in_braces (type_behind kind.entry) pos (init_list items.old.items) (state_of checker.old)).state) }
{
    let fields = first_fields(checker, kind, items.len())?;
    judge_list(checker, kind, pos)?;
    checker.step();
    type_items(checker, slots_with(kind, &fields), items)?;
    Ok(())
}

// The items, each with the comma or brace behind it; their values must be constants.
#[cycle(initialisers)]
fn type_items(checker: &mut Checker, slots: Slots, items: &mut Vec<Init>) -> Result<(), NoMemory>
    ensures tree { OnOk result (init_list items.new.items ≡ (type_inits (slots_of slots.entry) (init_list items.old.items) (state_of checker.old)).inits) }
    ensures state { OnOk result (state_of checker.new ≡ (type_inits (slots_of slots.entry) (init_list items.old.items) (state_of checker.old)).state) }
{
    let mut slots = slots;
    for i in 0..items.len() {
        let item = &mut items[i];
        judge_slot(checker, slots, init_pos(item))?;
        type_for(checker, true, slots.kind(), item)?;
        checker.step();
        slots = slots.further();
    }
    Ok(())
}

// Where an initialiser begins.
fn init_pos(init: &Init) -> Pos
    ensures { result ≡ init_pos (init_shape init.now) }
{
    match init {
        Init::One(node) => node.pos,
        Init::List(pos, _, _) => *pos,
    }
}

// Behind the last comma of a list stands its brace.
fn list_end(comma: bool) -> u32
    ensures { result ≡ list_end comma }
{
    if comma { 1 } else { 0 }
}
