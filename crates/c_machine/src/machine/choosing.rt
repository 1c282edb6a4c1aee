//! What an `if` or a `switch` has chosen (C89, 3.6.4).

ghost use Rattle.std.specs.Prelude.{◌≡◌, ◌+◌, ◌≤◌, false, IfOk};
ghost use Rattle.c_syntax.specs.View.{form_shape};
ghost use Rattle.c_store.specs.declared.value.Value.{Value};
ghost use Rattle.c_meaning.specs.Firsts.{quiet};
ghost use Rattle.c_meaning.specs.Statements.{items_flow};
ghost use Rattle.c_plan.specs.Parts.{items_left};
ghost use Rattle.c_machine.specs.Forms.{entry_shape};
ghost use Rattle.c_machine.specs.Todo.{chosen_flow, switch_flow, Leaves, OnMore, open_scopes, all_weights, machine_size};

use super::Machine;
use crate::entry::{Entry, entry_of, is_reached, passed};
use crate::parts::{Step, Waiting};
use c_base::place::NoMemory;
use c_meaning::end::Flow;
use c_plan::placed::Placed;
use c_plan::sequence::{Cut, Sequence};
use c_store::value::Value;
use c_syntax::tree::StmtForm;

impl<'p> Machine<'p> {
    // What an `if` has chosen (C89, 3.6.4.1).
    #[inline(always)]
    pub(super) fn choose(&mut self, placed: Placed<'p>, holds: bool) -> Step
        ensures left { Leaves result self.new self.old (λ t k. chosen_flow t k (form_shape placed.entry.stmt.now.form) placed.entry.before holds) }
        ensures scopes { open_scopes self.new.waiting.items ≡ open_scopes self.old.waiting.items }
        ensures size { OnMore result (machine_size self.new ≤ 1 + all_weights self.old.waiting.items) }
    {
        if holds {
            match placed.first() {
                None => self.untyped(),
                Some(first) => self.open_at(first),
            }
        } else {
            match placed.other() {
                None => self.leave(Flow::Next),
                Some(other) => self.open_at(other),
            }
        }
    }

    // What the value of a `switch` has chosen (C89, 3.6.4.2).
    pub(super) fn switch(&mut self, placed: Placed<'p>, value: Value) -> Result<Step, NoMemory>
        ensures left { IfOk result (λ a. Leaves a self.new self.old (λ t k. switch_flow t k (form_shape placed.entry.stmt.now.form) placed.entry.before value)) }
        ensures scopes { IfOk result (λ a. open_scopes self.new.waiting.items ≡ open_scopes self.old.waiting.items) }
        ensures size { IfOk result (λ a. OnMore a (machine_size self.new ≤ 2 + all_weights self.old.waiting.items)) }
    {
        let StmtForm::Switch(chosen, items) = &placed.stmt.form else {
            return Ok(self.untyped());
        };
        let entry = entry_of(chosen, items, value)?;
        match placed.items() {
            None => Ok(self.untyped()),
            Some(sequence) => {
                self.wait(Waiting::Switch)?;
                let step = self.list_from(entry, sequence)?;
                Ok(step)
            }
        }
    }

    // The statements of a list from an entry on.
    fn list_from(&mut self, mut entry: Entry, mut sequence: Sequence<'p>) -> Result<Step, NoMemory>
        ensures left { IfOk result (λ a. Leaves a self.new self.old (λ t k. items_flow t k (entry_shape entry) false (items_left sequence.entry) (quiet sequence.entry.before))) }
        ensures scopes { IfOk result (λ a. open_scopes self.new.waiting.items ≡ open_scopes self.old.waiting.items) }
        ensures size { IfOk result (λ a. OnMore a (machine_size self.new ≤ 1 + all_weights self.old.waiting.items)) }
    {
        loop {
            match sequence.cut() {
                Cut::Done => return Ok(self.leave(Flow::Next)),
                Cut::First(labels, first, rest) => {
                    if is_reached(entry, labels) {
                        self.wait(Waiting::Rest(rest))?;
                        return Ok(self.open_at(first));
                    }
                    entry = passed(entry, labels);
                    sequence = rest;
                }
            }
        }
    }
}
