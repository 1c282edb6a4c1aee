//! Local declarations (C89, 3.5).

ghost use Rattle.std.specs.Prelude.{◌≡◌, ◌+◌, ◌*◌, ◌≤◌, IfOk, OnOk};
ghost use Rattle.c_syntax.specs.View.{item_list};
ghost use Rattle.c_world.specs.World.{Same};
ghost use Rattle.c_plan.specs.Parts.{names_ahead};
ghost use Rattle.c_machine.specs.Todo.{block_flow, LeavesIn, Tied, OnMore, IsOn, all_weights, machine_size};

use super::Machine;
use crate::initial::declare_one;
use crate::parts::{Declared, Step, Waiting};
use c_base::place::NoMemory;
use c_plan::block::{Ahead, Block};
use c_plan::plan::Plan;
use c_world::world::World;

impl<'p> Machine<'p> {
    // Declarators and declarations (C89, 3.5), and the statements behind them.
    pub(super) fn declare(
        &mut self,
        plan: &'p Plan<'p>,
        world: &mut World<'p>,
        mut block: Block<'p>,
    ) -> Result<Step, NoMemory>
        requires program { world.old.program.now ≡ plan.now.program.now }
        requires tied { Tied self.old world.old }
        ensures left { IfOk result (λ a. LeavesIn plan.now.program.now a self.new world.new self.old world.old (λ t k. block_flow t k (names_ahead block.entry) (item_list block.entry.items.now.items) block.entry.before)) }
        ensures goes { IfOk result (λ a. IsOn a self.new) }
        ensures tied { IfOk result (λ a. OnMore a (Tied self.new world.new)) }
        ensures size { IfOk result (λ a. OnMore a (12 * world.new.turns + machine_size self.new ≤ 12 * world.old.turns + 1 + all_weights self.old.waiting.items)) }
        ensures same { OnOk result (Same world.old world.new) }
    {
        loop {
            match block.next() {
                Ahead::Done(sequence) => {
                    let step = self.list(sequence)?;
                    return Ok(step);
                }
                Ahead::Name(declarator, rest) => {
                    match declare_one(world, declarator, rest.before)? {
                        Declared::Done => block = rest,
                        Declared::Stopped(why) => return Ok(self.stop(why)),
                        Declared::Value(node, used) => {
                            self.wait(Waiting::Names(rest))?;
                            return Ok(self.work_at(node, used));
                        }
                    }
                }
            }
        }
    }
}
