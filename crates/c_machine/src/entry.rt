// Where the statements of a `switch` are begun (C89, 3.6.4.2).
ghost use Rattle.std.specs.Prelude.{◌≡◌, ◌-◌, map, IfOk};
ghost use Rattle.c_syntax.specs.View.{node_shape, label_shape, item_list};
ghost use Rattle.c_store.specs.declared.value.Value.{Value};
ghost use Rattle.c_meaning.specs.Statements.{is_reached, passed, chosen_entry};
ghost use Rattle.c_walk.specs.Stating.{case_count, has_default};
ghost use Rattle.c_machine.specs.Forms.{entry_shape};

use c_base::place::NoMemory;
use c_compute::constants::{case_count, case_number};
use c_store::value::Value;
use c_syntax::tree::{Item, Label, Node};

/// At the case of that number, of those that are left; or at the default.
#[derive(Clone, Copy, Drop)]
pub enum Entry {
    Case(u32),
    Default,
}

/// Where the value begins the statements.
pub fn entry_of(chosen: &Node, items: &[Item], value: Value) -> Result<Entry, NoMemory>
    ensures { IfOk result (λ e. entry_shape e ≡ chosen_entry (node_shape chosen.now) (item_list items.now) value) }
{
    let number = case_number(chosen, items, value)?;
    let count = case_count(items)?;
    if number <= count {
        Ok(Entry::Case(number))
    } else {
        Ok(Entry::Default)
    }
}

fn cases_in(labels: &[Label]) -> u64
    ensures { result ≡ case_count (map label_shape labels.now) }
{
    let mut count = 0;
    for label in labels {
        if let Label::Case(_, _) = label {
            count += 1;
        }
    }
    count
}

fn default_in(labels: &[Label]) -> bool
    ensures { result ≡ has_default (map label_shape labels.now) }
{
    for label in labels {
        if let Label::Default(_) = label {
            return true;
        }
    }
    false
}

/// Whether the statements are begun at one with these labels.
#[inline(always)]
pub fn is_reached(entry: Entry, labels: &[Label]) -> bool
    ensures { result ≡ is_reached (entry_shape entry) (map label_shape labels.now) }
{
    match entry {
        Entry::Case(number) => u64::from(number) <= cases_in(labels),
        Entry::Default => default_in(labels),
    }
}

/// Behind labels that were passed by, where it isn't reached.
#[inline(always)]
pub fn passed(entry: Entry, labels: &[Label]) -> Entry
    ensures { entry_shape result ≡ passed (entry_shape entry) (map label_shape labels.now) }
{
    match entry {
        Entry::Case(number) => Entry::Case(left_of(number, cases_in(labels))),
        Entry::Default => Entry::Default,
    }
}

fn left_of(number: u32, passed: u64) -> u32
    ensures { result ≡ number - passed }
{
    if passed < u64::from(number) {
        number - passed as u32
    } else {
        0
    }
}
