//! Statements, begun (C89, 3.6).

ghost use Rattle.std.specs.Prelude.{◌≡◌, ◌+◌, ◌*◌, ◌<◌, ◌≤◌, false, IfOk, OnOk};
ghost use Rattle.c_syntax.specs.View.{node_shape, stmt_shape, form_shape, maybe_node, item_list};
ghost use Rattle.c_syntax.specs.Shape.{simply, return};
ghost use Rattle.c_meaning.specs.Firsts.{quiet};
ghost use Rattle.c_meaning.specs.Results.{turn, then_do};
ghost use Rattle.c_meaning.specs.Statements.{scoped, flow, form_flow};
ghost use Rattle.c_plan.specs.Parts.{names_ahead};
ghost use Rattle.c_machine.specs.Todo.{again_flow, body_turn, loop_of, block_flow, LeavesIn, UsesIn, Tied, OnMore, open_scopes, all_weights, machine_size};
ghost use Rattle.c_world.specs.World.{Same};

use super::Machine;
use crate::parts::{Purpose, Step, Turning, Use, Waiting};
use c_base::place::NoMemory;
use c_compute::operators::is_true;
use c_eval_direct::direct::direct;
use c_eval_once::reply::Answer;
use c_machine_direct::marks::log_marks;
use c_meaning::end::{Flow, Stop};
use c_plan::block::Block;
use c_plan::placed::Placed;
use c_plan::plan::Plan;
use c_syntax::tree::{Node, StmtForm};
use c_world::world::World;

impl<'p> Machine<'p> {
    // A statement (C89, 3.6): its probes, and then its turn.
    pub(super) fn open(
        &mut self,
        plan: &'p Plan<'p>,
        world: &mut World<'p>,
        placed: Placed<'p>,
    ) -> Result<Step, NoMemory>
        requires program { world.old.program.now ≡ plan.now.program.now }
        requires tied { Tied self.old world.old }
        ensures left { IfOk result (λ a. LeavesIn plan.now.program.now a self.new world.new self.old world.old (λ t k. flow t k false (stmt_shape placed.entry.stmt.now) (quiet placed.entry.before))) }
        ensures tied { IfOk result (λ a. OnMore a (Tied self.new world.new)) }
        ensures falls { IfOk result (λ a. OnMore a (12 * world.new.turns + machine_size self.new < 12 * world.old.turns + all_weights self.old.waiting.items)) }
        ensures same { OnOk result (Same world.old world.new) }
    {
        if !log_marks(world, &placed.stmt.probes)? {
            return Ok(self.untyped());
        }
        let step = self.take_turn(plan, world, placed)?;
        Ok(step)
    }

    // The turn of a statement, and its beginning.
    #[inline(always)]
    fn take_turn(
        &mut self,
        plan: &'p Plan<'p>,
        world: &mut World<'p>,
        placed: Placed<'p>,
    ) -> Result<Step, NoMemory>
        requires program { world.old.program.now ≡ plan.now.program.now }
        requires tied { Tied self.old world.old }
        ensures left { IfOk result (λ a. LeavesIn plan.now.program.now a self.new world.new self.old world.old (λ t k s. turn s (form_flow t k (form_shape placed.entry.stmt.now.form) (quiet placed.entry.before)))) }
        ensures tied { IfOk result (λ a. OnMore a (Tied self.new world.new)) }
        ensures falls { IfOk result (λ a. OnMore a (12 * world.new.turns + machine_size self.new < 12 * world.old.turns + all_weights self.old.waiting.items)) }
        ensures same { OnOk result (Same world.old world.new) }
    {
        if world.turn() {
            let step = self.begin(plan, world, placed)?;
            return Ok(step);
        }
        Ok(self.stop(Stop::Turns))
    }

    // A statement, whose turn was taken.
    #[inline(always)]
    fn begin(
        &mut self,
        plan: &'p Plan<'p>,
        world: &mut World<'p>,
        placed: Placed<'p>,
    ) -> Result<Step, NoMemory>
        requires program { world.old.program.now ≡ plan.now.program.now }
        requires tied { Tied self.old world.old }
        ensures left { IfOk result (λ a. LeavesIn plan.now.program.now a self.new world.new self.old world.old (λ t k. form_flow t k (form_shape placed.entry.stmt.now.form) (quiet placed.entry.before))) }
        ensures tied { IfOk result (λ a. OnMore a (Tied self.new world.new)) }
        ensures size { IfOk result (λ a. OnMore a (12 * world.new.turns + machine_size self.new ≤ 12 * world.old.turns + 2 + all_weights self.old.waiting.items)) }
        ensures same { OnOk result (Same world.old world.new) }
    {
        match &placed.stmt.form {
            StmtForm::Compound(body) => {
                let block = Block::of(body, placed.inner(), placed.before);
                let step = self.compound(plan, world, block)?;
                Ok(step)
            }
            StmtForm::Plain(node) => {
                let step = self.plain(plan, world, node)?;
                Ok(step)
            }
            StmtForm::If(test, _, _) => {
                let step = self.choice(plan, world, test, placed)?;
                Ok(step)
            }
            StmtForm::While(_, _) => {
                let step = self.begin_loop(plan, world, placed)?;
                Ok(step)
            }
            StmtForm::Do(_, _) => {
                let step = self.begin_do(plan, world, placed)?;
                Ok(step)
            }
            StmtForm::For(first, _, _, _) => {
                let step = self.begin_for(plan, world, first, placed)?;
                Ok(step)
            }
            StmtForm::Switch(chosen, _) => {
                Ok(self.work_at(chosen, Use::Stmt(Purpose::Switch, placed)))
            }
            StmtForm::Break => Ok(self.leave(Flow::Break)),
            StmtForm::Continue => Ok(self.leave(Flow::Continue)),
            StmtForm::Return(node) => {
                let step = self.give(plan, world, node)?;
                Ok(step)
            }
        }
    }

    // A compound statement (C89, 3.6.2), in a scope of its own.
    fn compound(
        &mut self,
        plan: &'p Plan<'p>,
        world: &mut World<'p>,
        block: Block<'p>,
    ) -> Result<Step, NoMemory>
        requires program { world.old.program.now ≡ plan.now.program.now }
        requires tied { Tied self.old world.old }
        ensures left { IfOk result (λ a. LeavesIn plan.now.program.now a self.new world.new self.old world.old (λ t k s. scoped s (block_flow t k (names_ahead block.entry) (item_list block.entry.items.now.items) block.entry.before))) }
        ensures tied { IfOk result (λ a. OnMore a (Tied self.new world.new)) }
        ensures size { IfOk result (λ a. OnMore a (12 * world.new.turns + machine_size self.new ≤ 12 * world.old.turns + 2 + all_weights self.old.waiting.items)) }
        ensures same { OnOk result (Same world.old world.new) }
    {
        world.begin_scope()?;
        self.wait(Waiting::Scope)?;
        let step = self.declare(plan, world, block)?;
        Ok(step)
    }

    // An expression statement (C89, 3.6.3).
    #[inline(always)]
    fn plain(
        &mut self,
        plan: &'p Plan<'p>,
        world: &mut World<'p>,
        node: &'p Option<Node>,
    ) -> Result<Step, NoMemory>
        requires program { world.old.program.now ≡ plan.now.program.now }
        requires tied { Tied self.old world.old }
        ensures left { IfOk result (λ a. LeavesIn plan.now.program.now a self.new world.new self.old world.old (λ t k. form_flow t k (simply (maybe_node node.now)) (quiet 0))) }
        ensures tied { IfOk result (λ a. OnMore a (Tied self.new world.new)) }
        ensures size { IfOk result (λ a. OnMore a (12 * world.new.turns + machine_size self.new ≤ 12 * world.old.turns + 1 + all_weights self.old.waiting.items)) }
        ensures same { OnOk result (Same world.old world.new) }
    {
        match node {
            None => {
                let step = self.pass(plan, world, Flow::Next)?;
                Ok(step)
            }
            Some(node) => match direct(world.tables(), world, node) {
                None => Ok(self.work_at(node, Use::Discard)),
                Some(Answer::NoMemory) => Err(NoMemory),
                Some(Answer::Stopped(why)) => Ok(self.stop(why)),
                Some(Answer::Value(_)) => {
                    let step = self.pass(plan, world, Flow::Next)?;
                    Ok(step)
                }
            },
        }
    }

    // The test of an `if` (C89, 3.6.4.1).
    #[inline(always)]
    fn choice(
        &mut self,
        plan: &'p Plan<'p>,
        world: &mut World<'p>,
        test: &'p Node,
        placed: Placed<'p>,
    ) -> Result<Step, NoMemory>
        requires program { world.old.program.now ≡ plan.now.program.now }
        requires tied { Tied self.old world.old }
        ensures left { IfOk result (λ a. UsesIn plan.now.program.now a self.new world.new self.old world.old (node_shape test.now) (Use.Stmt Purpose.Choose placed.entry)) }
        ensures tied { IfOk result (λ a. OnMore a (Tied self.new world.new)) }
        ensures size { IfOk result (λ a. OnMore a (12 * world.new.turns + machine_size self.new ≤ 12 * world.old.turns + 1 + all_weights self.old.waiting.items)) }
        ensures same { OnOk result (Same world.old world.new) }
    {
        match direct(world.tables(), world, test) {
            None => Ok(self.work_at(test, Use::Stmt(Purpose::Choose, placed))),
            Some(Answer::NoMemory) => Err(NoMemory),
            Some(Answer::Stopped(why)) => Ok(self.stop(why)),
            Some(Answer::Value(value)) => Ok(self.choose(placed, is_true(value))),
        }
    }

    // A `for` (C89, 3.6.5.3): its first part, and then the loop.
    #[inline(always)]
    fn begin_for(
        &mut self,
        plan: &'p Plan<'p>,
        world: &mut World<'p>,
        first: &'p Option<Node>,
        placed: Placed<'p>,
    ) -> Result<Step, NoMemory>
        requires program { world.old.program.now ≡ plan.now.program.now }
        requires tied { Tied self.old world.old }
        ensures left { IfOk result (λ a. LeavesIn plan.now.program.now a self.new world.new self.old world.old (λ t k s. then_do (form_flow t k (simply (maybe_node first.now)) (quiet 0) s) (λ f. again_flow t k (loop_of t (form_shape placed.entry.stmt.now.form) placed.entry.before)))) }
        ensures tied { IfOk result (λ a. OnMore a (Tied self.new world.new)) }
        ensures size { IfOk result (λ a. OnMore a (12 * world.new.turns + machine_size self.new ≤ 12 * world.old.turns + 1 + all_weights self.old.waiting.items)) }
        ensures same { OnOk result (Same world.old world.new) }
    {
        match first {
            None => {
                let step = self.begin_loop(plan, world, placed)?;
                Ok(step)
            }
            Some(node) => {
                let step = self.then_loop(plan, world, node, placed)?;
                Ok(step)
            }
        }
    }

    // The first part of a `for`, and the loop.
    #[inline(always)]
    fn then_loop(
        &mut self,
        plan: &'p Plan<'p>,
        world: &mut World<'p>,
        node: &'p Node,
        placed: Placed<'p>,
    ) -> Result<Step, NoMemory>
        requires program { world.old.program.now ≡ plan.now.program.now }
        requires tied { Tied self.old world.old }
        ensures left { IfOk result (λ a. UsesIn plan.now.program.now a self.new world.new self.old world.old (node_shape node.now) (Use.Stmt Purpose.Again placed.entry)) }
        ensures tied { IfOk result (λ a. OnMore a (Tied self.new world.new)) }
        ensures size { IfOk result (λ a. OnMore a (12 * world.new.turns + machine_size self.new ≤ 12 * world.old.turns + 1 + all_weights self.old.waiting.items)) }
        ensures same { OnOk result (Same world.old world.new) }
    {
        match direct(world.tables(), world, node) {
            None => Ok(self.work_at(node, Use::Stmt(Purpose::Again, placed))),
            Some(Answer::NoMemory) => Err(NoMemory),
            Some(Answer::Stopped(why)) => Ok(self.stop(why)),
            Some(Answer::Value(_)) => {
                let step = self.begin_loop(plan, world, placed)?;
                Ok(step)
            }
        }
    }

    // A loop from its test on, its turns at once where they can be.
    #[inline(never)]
    fn begin_loop(
        &mut self,
        plan: &'p Plan<'p>,
        world: &mut World<'p>,
        placed: Placed<'p>,
    ) -> Result<Step, NoMemory>
        requires program { world.old.program.now ≡ plan.now.program.now }
        requires tied { Tied self.old world.old }
        ensures left { IfOk result (λ a. LeavesIn plan.now.program.now a self.new world.new self.old world.old (λ t k. again_flow t k (loop_of t (form_shape placed.entry.stmt.now.form) placed.entry.before))) }
        ensures tied { IfOk result (λ a. OnMore a (Tied self.new world.new)) }
        ensures size { IfOk result (λ a. OnMore a (12 * world.new.turns + machine_size self.new ≤ 12 * world.old.turns + 1 + all_weights self.old.waiting.items)) }
        ensures same { OnOk result (Same world.old world.new) }
    {
        match Turning::of(placed) {
            None => {
                let step = self.again(plan, world, placed)?;
                Ok(step)
            }
            Some(turning) => {
                let step = self.again_at_once(plan, world, turning)?;
                Ok(step)
            }
        }
    }

    // A `do` (C89, 3.6.5.2), which begins with its body.
    #[inline(never)]
    fn begin_do(
        &mut self,
        plan: &'p Plan<'p>,
        world: &mut World<'p>,
        placed: Placed<'p>,
    ) -> Result<Step, NoMemory>
        requires program { world.old.program.now ≡ plan.now.program.now }
        requires tied { Tied self.old world.old }
        ensures left { IfOk result (λ a. LeavesIn plan.now.program.now a self.new world.new self.old world.old (λ t k. body_turn t k (form_shape placed.entry.stmt.now.form) placed.entry.before)) }
        ensures tied { IfOk result (λ a. OnMore a (Tied self.new world.new)) }
        ensures size { IfOk result (λ a. OnMore a (12 * world.new.turns + machine_size self.new ≤ 12 * world.old.turns + 1 + all_weights self.old.waiting.items)) }
        ensures same { OnOk result (Same world.old world.new) }
    {
        match Turning::of(placed) {
            None => {
                let step = self.turn_body(placed)?;
                Ok(step)
            }
            Some(turning) => {
                let step = self.body_at_once(plan, world, turning)?;
                Ok(step)
            }
        }
    }

    // A `return` (C89, 3.6.6.4).
    #[inline(always)]
    fn give(
        &mut self,
        plan: &'p Plan<'p>,
        world: &mut World<'p>,
        node: &'p Option<Node>,
    ) -> Result<Step, NoMemory>
        requires program { world.old.program.now ≡ plan.now.program.now }
        requires tied { Tied self.old world.old }
        ensures left { IfOk result (λ a. LeavesIn plan.now.program.now a self.new world.new self.old world.old (λ t k. form_flow t k (return (maybe_node node.now)) (quiet 0))) }
        ensures tied { IfOk result (λ a. OnMore a (Tied self.new world.new)) }
        ensures size { IfOk result (λ a. OnMore a (12 * world.new.turns + machine_size self.new ≤ 12 * world.old.turns + 1 + all_weights self.old.waiting.items)) }
        ensures same { OnOk result (Same world.old world.new) }
    {
        match node {
            None => {
                let step = self.pass(plan, world, Flow::Return(None))?;
                Ok(step)
            }
            Some(node) => match direct(world.tables(), world, node) {
                None => Ok(self.work_at(node, Use::Return)),
                Some(Answer::NoMemory) => Err(NoMemory),
                Some(Answer::Stopped(why)) => Ok(self.stop(why)),
                Some(Answer::Value(value)) => {
                    let step = self.pass(plan, world, Flow::Return(Some(value)))?;
                    Ok(step)
                }
            },
        }
    }
}
