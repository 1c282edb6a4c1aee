//! The items of a program so far.

ghost use Rattle.std.specs.Prelude.{◌≡◌, true, OnOk, IfOk, map};
ghost use Rattle.c_walk.specs.ItemView.{item_shape, place_shape, outcomes_shape};
ghost use Rattle.c_walk.specs.Walked.{with_block, with_decision, next_decision, with_def, with_use};
ghost use Rattle.c_walk.specs.Stating.{with_variable};
ghost use Rattle.c_walk.specs.WalkerView.{walked};
ghost use Rattle.c_walk.specs.Units.{no_items};

use crate::around::Around;
use crate::items::{Direct, Item, Outcomes};
use c_base::place::{NoMemory, Pos};
use std::alloc::Global;

/// The items so far, how many decisions are among them, and how many variables were declared so far.
#[derive(Drop)]
pub struct Walker {
    alloc: Global,
    items: Vec<Item>,
    decisions: u32,
    variables: u32,
}

impl Walker {
    /// No item.
    pub fn new(alloc: Global) -> Walker
        ensures { walked result ≡ no_items }
    {
        Walker {
            alloc,
            items: Vec::new(alloc),
            decisions: 0,
            variables: 0,
        }
    }

    /// What makes memory here.
    pub fn alloc(&self) -> Global {
        self.alloc
    }

    /// A block at that place.
    pub fn block(&mut self, pos: Pos) -> Result<(), NoMemory>
        ensures { OnOk result (walked self.new ≡ with_block pos (walked self.old)) }
    {
        match self.items.push(Item::Block(pos)) {
            Ok(()) => Ok(()),
            Err(_) => Err(NoMemory),
        }
    }

    /// A decision at that place, with these outcomes.
    pub fn decision(&mut self, pos: Pos, outcomes: Outcomes) -> Result<(), NoMemory>
        ensures { OnOk result (walked self.new ≡ with_decision pos (outcomes_shape outcomes) (walked self.old)) }
    {
        let number = self.next_decision()?;
        match self.items.push(Item::Decision(pos, outcomes)) {
            Ok(()) => {
                self.decisions = number;
                Ok(())
            }
            Err(_) => Err(NoMemory),
        }
    }

    /// The number that the next decision will have.
    pub fn next_decision(&self) -> Result<u32, NoMemory>
        ensures { IfOk result (λ n. n ≡ next_decision (walked self.now)) }
    {
        match self.decisions.checked_add(1) {
            Some(number) => Ok(number),
            None => Err(NoMemory),
        }
    }

    /// A definition at that place.
    pub fn def(&mut self, around: Around, pos: Pos, place: Option<Direct>) -> Result<(), NoMemory>
        ensures { OnOk result (walked self.new ≡ with_def true around pos (place_shape place) (walked self.old)) }
    {
        match self.items.push(Item::Def(pos, around.function, place)) {
            Ok(()) => Ok(()),
            Err(_) => Err(NoMemory),
        }
    }

    /// A use at that place.
    pub fn used(&mut self, around: Around, pos: Pos, place: Option<Direct>) -> Result<(), NoMemory>
        ensures { OnOk result (walked self.new ≡ with_use true around pos (place_shape place) (walked self.old)) }
    {
        let item = Item::Used(pos, around.function, place, around.owner);
        match self.items.push(item) {
            Ok(()) => Ok(()),
            Err(_) => Err(NoMemory),
        }
    }

    /// The next variable is declared.
    pub fn declare(&mut self) -> Result<(), NoMemory>
        ensures { OnOk result (walked self.new ≡ with_variable (walked self.old)) }
    {
        match self.variables.checked_add(1) {
            Some(variables) => {
                self.variables = variables;
                Ok(())
            }
            None => Err(NoMemory),
        }
    }

    /// How many variables were declared, which is the number of the last one.
    pub fn variables(&self) -> u32
        ensures { result ≡ (walked self.now).variables }
    {
        self.variables
    }

    /// The items.
    pub fn into_items(self) -> Vec<Item>
        ensures { map item_shape result.items ≡ (walked self).items }
    {
        let Walker {
            alloc: _,
            items,
            decisions: _,
            variables: _,
        } = self;
        items
    }
}
