//! What a step came to, for what waits for it.

ghost use Rattle.std.specs.Prelude.{◌≡◌, ℕ, ◌<◌, ◌+◌, ◌*◌, List, IfOk, OnOk};
ghost use Rattle.c_events.specs.declared.events.Event.{Event};
ghost use Rattle.c_tables.specs.Tables.{tables_shape};
ghost use Rattle.c_meaning.specs.Knot.{Knot};
ghost use Rattle.c_world.specs.World.{state_of};
ghost use Rattle.c_eval.specs.Rest.{rest, rest_after, size, size_after, Lower};
ghost use Rattle.c_eval_once.specs.Forms.{Kept};

use super::Work;
use crate::frame::{Focus, Step};
use c_base::place::NoMemory;
use c_tables::tables::Tables;
use c_world::world::World;

#[tactic(auto, using(crate::proofs::Steps::lower_up, crate::proofs::Steps::lower_less))]
impl<'p> Work<'p> {
    // A place or a value that a step came to goes to what waits for it.
    #[inline(always)]
    pub(super) fn settle(
        &mut self,
        tables: &'p Tables,
        world: &mut World<'p>,
        step: Step,
    ) -> Result<Step, NoMemory>
        ensures rest { IfOk result (λ a. (k : Knot) (h : List Event) → rest_after (tables_shape tables.now) k a self.new (state_of world.new h) ≡ rest_after (tables_shape tables.now) k step self.old (state_of world.old h)) }
        ensures falls { IfOk result (λ a. (m : ℕ) → Lower step (4 * world.old.turns + size_after step self.old) m → Lower a (4 * world.new.turns + size_after a self.new) m) }
        ensures kept { OnOk result (Kept world.old world.new) }
    {
        let Step::More = step else {
            return Ok(step);
        };
        match self.focus {
            Focus::At(at) => {
                let step = self.give_place(tables, world, at)?;
                let step = self.settle_value(tables, world, step)?;
                Ok(step)
            }
            Focus::Given(value) => {
                let step = self.give(tables, world, value)?;
                Ok(step)
            }
            Focus::Value(_) | Focus::Place(_) => Ok(Step::More),
        }
    }

    // The same of a value.
    #[inline(always)]
    fn settle_value(
        &mut self,
        tables: &'p Tables,
        world: &mut World<'p>,
        step: Step,
    ) -> Result<Step, NoMemory>
        ensures rest { IfOk result (λ a. (k : Knot) (h : List Event) → rest_after (tables_shape tables.now) k a self.new (state_of world.new h) ≡ rest_after (tables_shape tables.now) k step self.old (state_of world.old h)) }
        ensures falls { IfOk result (λ a. (m : ℕ) → Lower step (4 * world.old.turns + size_after step self.old) m → Lower a (4 * world.new.turns + size_after a self.new) m) }
        ensures kept { OnOk result (Kept world.old world.new) }
    {
        let Step::More = step else {
            return Ok(step);
        };
        match self.focus {
            Focus::Given(value) => {
                let step = self.give(tables, world, value)?;
                Ok(step)
            }
            Focus::At(_) | Focus::Value(_) | Focus::Place(_) => Ok(Step::More),
        }
    }
}
