//! Loops (C89, 3.6.5).

ghost use Rattle.std.specs.Prelude.{◌≡◌, ◌+◌, ◌*◌, ◌≤◌, option_map, IfOk, OnOk};
ghost use Rattle.c_syntax.specs.View.{node_shape, form_shape};
ghost use Rattle.c_world.specs.World.{Same};
ghost use Rattle.c_machine.specs.Forms.{test_in, step_in, found_node};
ghost use Rattle.c_machine.specs.Todo.{loop_of, again_flow, next_flow, behind_body, body_turn, tested_flow, Leaves, LeavesIn, UsesIn, Tied, OnMore, open_scopes, all_weights, machine_size};

use super::Machine;
use crate::parts::{Purpose, Step, Use, Waiting};
use c_base::place::NoMemory;
use c_compute::operators::is_true;
use c_eval_direct::direct::direct;
use c_eval_once::reply::Answer;
use c_meaning::end::Flow;
use c_plan::placed::Placed;
use c_plan::plan::Plan;
use c_syntax::tree::{Node, Stmt, StmtForm};
use c_world::world::World;

impl<'p> Machine<'p> {
    // The next turn of a loop (C89, 3.6.5): its test, where it has one, and else its body.
    #[inline(always)]
    pub(super) fn again(
        &mut self,
        plan: &'p Plan<'p>,
        world: &mut World<'p>,
        placed: Placed<'p>,
    ) -> Result<Step, NoMemory>
        requires program { world.old.program.now ≡ plan.now.program.now }
        requires tied { Tied self.old world.old }
        ensures left { IfOk result (λ a. LeavesIn plan.now.program.now a self.new world.new self.old world.old (λ t k. again_flow t k (loop_of t (form_shape placed.entry.stmt.now.form) placed.entry.before))) }
        ensures tied { IfOk result (λ a. OnMore a (Tied self.new world.new)) }
        ensures size { IfOk result (λ a. OnMore a (12 * world.new.turns + machine_size self.new ≤ 12 * world.old.turns + 1 + all_weights self.old.waiting.items)) }
        ensures same { OnOk result (Same world.old world.new) }
    {
        match test_of(placed.stmt) {
            None => Ok(self.untyped()),
            Some(None) => {
                let step = self.turn_body(placed)?;
                Ok(step)
            }
            Some(Some(test)) => {
                let step = self.test(plan, world, test, placed)?;
                Ok(step)
            }
        }
    }

    // The test, and what it chooses.
    #[inline(always)]
    fn test(
        &mut self,
        plan: &'p Plan<'p>,
        world: &mut World<'p>,
        test: &'p Node,
        placed: Placed<'p>,
    ) -> Result<Step, NoMemory>
        requires program { world.old.program.now ≡ plan.now.program.now }
        requires tied { Tied self.old world.old }
        ensures left { IfOk result (λ a. UsesIn plan.now.program.now a self.new world.new self.old world.old (node_shape test.now) (Use.Stmt Purpose.Test placed.entry)) }
        ensures tied { IfOk result (λ a. OnMore a (Tied self.new world.new)) }
        ensures size { IfOk result (λ a. OnMore a (12 * world.new.turns + machine_size self.new ≤ 12 * world.old.turns + 1 + all_weights self.old.waiting.items)) }
        ensures same { OnOk result (Same world.old world.new) }
    {
        match direct(world.tables(), world, test) {
            None => Ok(self.work_at(test, Use::Stmt(Purpose::Test, placed))),
            Some(Answer::NoMemory) => Err(NoMemory),
            Some(Answer::Stopped(why)) => Ok(self.stop(why)),
            Some(Answer::Value(value)) => {
                let step = self.turn_if(placed, is_true(value))?;
                Ok(step)
            }
        }
    }

    // The first or last part of a `for`, and the next turn.
    #[inline(always)]
    pub(super) fn then_again(
        &mut self,
        plan: &'p Plan<'p>,
        world: &mut World<'p>,
        node: &'p Node,
        placed: Placed<'p>,
    ) -> Result<Step, NoMemory>
        requires program { world.old.program.now ≡ plan.now.program.now }
        requires tied { Tied self.old world.old }
        ensures left { IfOk result (λ a. UsesIn plan.now.program.now a self.new world.new self.old world.old (node_shape node.now) (Use.Stmt Purpose.Again placed.entry)) }
        ensures tied { IfOk result (λ a. OnMore a (Tied self.new world.new)) }
        ensures size { IfOk result (λ a. OnMore a (12 * world.new.turns + machine_size self.new ≤ 12 * world.old.turns + 1 + all_weights self.old.waiting.items)) }
        ensures same { OnOk result (Same world.old world.new) }
    {
        match direct(world.tables(), world, node) {
            None => Ok(self.work_at(node, Use::Stmt(Purpose::Again, placed))),
            Some(Answer::NoMemory) => Err(NoMemory),
            Some(Answer::Stopped(why)) => Ok(self.stop(why)),
            Some(Answer::Value(_)) => {
                let step = self.again(plan, world, placed)?;
                Ok(step)
            }
        }
    }

    // The body of a loop.
    #[inline(always)]
    pub(super) fn turn_body(&mut self, placed: Placed<'p>) -> Result<Step, NoMemory>
        ensures left { IfOk result (λ a. Leaves a self.new self.old (λ t k. body_turn t k (form_shape placed.entry.stmt.now.form) placed.entry.before)) }
        ensures scopes { IfOk result (λ a. open_scopes self.new.waiting.items ≡ open_scopes self.old.waiting.items) }
        ensures size { IfOk result (λ a. OnMore a (machine_size self.new ≤ 1 + all_weights self.old.waiting.items)) }
    {
        match placed.first() {
            None => Ok(self.untyped()),
            Some(body) => {
                self.wait(Waiting::Loop(placed))?;
                Ok(self.open_at(body))
            }
        }
    }

    // The test of a loop holds or not.
    #[inline(always)]
    pub(super) fn turn_if(&mut self, placed: Placed<'p>, holds: bool) -> Result<Step, NoMemory>
        ensures left { IfOk result (λ a. Leaves a self.new self.old (λ t k. tested_flow t k (form_shape placed.entry.stmt.now.form) placed.entry.before holds)) }
        ensures scopes { IfOk result (λ a. open_scopes self.new.waiting.items ≡ open_scopes self.old.waiting.items) }
        ensures size { IfOk result (λ a. OnMore a (machine_size self.new ≤ 1 + all_weights self.old.waiting.items)) }
    {
        if holds {
            let step = self.turn_body(placed)?;
            return Ok(step);
        }
        Ok(self.leave(Flow::Next))
    }

    // What is behind the body of a loop: the last part of a `for`, and the next turn.
    #[inline(always)]
    pub(super) fn next_turn(
        &mut self,
        plan: &'p Plan<'p>,
        world: &mut World<'p>,
        placed: Placed<'p>,
    ) -> Result<Step, NoMemory>
        requires program { world.old.program.now ≡ plan.now.program.now }
        requires tied { Tied self.old world.old }
        ensures left { IfOk result (λ a. LeavesIn plan.now.program.now a self.new world.new self.old world.old (λ t k. next_flow t k (loop_of t (form_shape placed.entry.stmt.now.form) placed.entry.before))) }
        ensures tied { IfOk result (λ a. OnMore a (Tied self.new world.new)) }
        ensures size { IfOk result (λ a. OnMore a (12 * world.new.turns + machine_size self.new ≤ 12 * world.old.turns + 1 + all_weights self.old.waiting.items)) }
        ensures same { OnOk result (Same world.old world.new) }
    {
        match step_of(placed.stmt) {
            None => {
                let step = self.again(plan, world, placed)?;
                Ok(step)
            }
            Some(node) => {
                let step = self.then_again(plan, world, node, placed)?;
                Ok(step)
            }
        }
    }

    // A loop whose body was left.
    #[inline(always)]
    pub(super) fn leave_body(
        &mut self,
        plan: &'p Plan<'p>,
        world: &mut World<'p>,
        placed: Placed<'p>,
        flow: Flow,
    ) -> Result<Step, NoMemory>
        requires program { world.old.program.now ≡ plan.now.program.now }
        requires tied { Tied self.old world.old }
        ensures left { IfOk result (λ a. LeavesIn plan.now.program.now a self.new world.new self.old world.old (λ t k. behind_body t k (loop_of t (form_shape placed.entry.stmt.now.form) placed.entry.before) flow)) }
        ensures tied { IfOk result (λ a. OnMore a (Tied self.new world.new)) }
        ensures size { IfOk result (λ a. OnMore a (12 * world.new.turns + machine_size self.new ≤ 12 * world.old.turns + 1 + all_weights self.old.waiting.items)) }
        ensures same { OnOk result (Same world.old world.new) }
    {
        match flow {
            Flow::Next | Flow::Continue => {
                let step = self.next_turn(plan, world, placed)?;
                Ok(step)
            }
            Flow::Break => Ok(self.leave(Flow::Next)),
            Flow::Return(_) => Ok(self.leave(flow)),
        }
    }
}

// The test of a loop, which a `for` may leave out.
#[inline(always)]
fn test_of(stmt: &Stmt) -> Option<Option<&Node>>
    ensures { option_map found_node result ≡ test_in (form_shape stmt.now.form) }
{
    match &stmt.form {
        StmtForm::While(test, _) => Some(Some(test)),
        StmtForm::Do(_, test) => Some(Some(test)),
        StmtForm::For(_, test, _, _) => match test {
            None => Some(None),
            Some(test) => Some(Some(test)),
        },
        _ => None,
    }
}

// The last part of a `for`.
#[inline(always)]
fn step_of(stmt: &Stmt) -> Option<&Node>
    ensures { found_node result ≡ step_in (form_shape stmt.now.form) }
{
    match &stmt.form {
        StmtForm::For(_, _, step, _) => match step {
            None => None,
            Some(step) => Some(step),
        },
        _ => None,
    }
}
