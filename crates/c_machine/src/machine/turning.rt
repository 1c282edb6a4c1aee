//! Loops whose test, step and body are done at once (C89, 3.6.5).

ghost use Rattle.std.specs.Prelude.{◌≡◌, ◌+◌, ◌*◌, ◌<◌, true, Some, IfOk, IfSome, OnOk};
ghost use Rattle.c_syntax.specs.View.{node_shape, stmt_shape, form_shape};
ghost use Rattle.c_world.specs.World.{Same};
ghost use Rattle.c_eval_direct.specs.Direct.{is_direct};
ghost use Rattle.c_plan.specs.Parts.{first_in};
ghost use Rattle.c_machine_direct.specs.Forms.{is_direct_form};
ghost use Rattle.c_machine.specs.Todo.{loop_of, again_flow, next_flow, body_turn, LeavesIn, UsesIn, Tied, OnMore, all_weights, machine_size};

use super::Machine;
use crate::parts::{Active, Purpose, Step, Turning, Use};
use c_base::place::NoMemory;
use c_compute::operators::is_true;
use c_eval_direct::direct::value;
use c_eval_once::reply::Answer;
use c_machine_direct::forms::is_direct_loop;
use c_machine_direct::statements::{Way, statement};
use c_meaning::end::Flow;
use c_plan::placed::Placed;
use c_plan::plan::Plan;
use c_syntax::tree::{Node, Stmt, StmtForm};
use c_world::world::World;

impl<'p> Turning<'p> {
    /// The statement, if it is such a loop.
    pub(super) fn of(placed: Placed<'p>) -> Option<Turning<'p>>
        ensures { IfSome result (λ l. l.placed ≡ placed.entry) }
    {
        if is_direct_loop(&placed.stmt.form) {
            return Some(Turning { placed });
        }
        None
    }
}

impl<'p> Machine<'p> {
    // Behind the body: the step of a `for`, and the next turn.
    #[inline(never)]
    pub(super) fn next_at_once(
        &mut self,
        plan: &'p Plan<'p>,
        world: &mut World<'p>,
        turning: Turning<'p>,
    ) -> Result<Step, NoMemory>
        requires program { world.old.program.now ≡ plan.now.program.now }
        requires tied { Tied self.old world.old }
        ensures left { IfOk result (λ a. LeavesIn plan.now.program.now a self.new world.new self.old world.old (λ t k. next_flow t k (loop_of t (form_shape turning.entry.placed.stmt.now.form) turning.entry.placed.before))) }
        ensures tied { IfOk result (λ a. OnMore a (Tied self.new world.new)) }
        ensures falls { IfOk result (λ a. OnMore a (12 * world.new.turns + machine_size self.new < 12 * world.old.turns + 1 + all_weights self.old.waiting.items)) }
        ensures same { OnOk result (Same world.old world.new) }
    {
        match &turning.placed.stmt.form {
            StmtForm::While(_, _) | StmtForm::Do(_, _) => {
                let step = self.again_at_once(plan, world, turning)?;
                Ok(step)
            }
            StmtForm::For(_, _, node, _) => match node {
                None => {
                    let step = self.again_at_once(plan, world, turning)?;
                    Ok(step)
                }
                Some(node) => {
                    let step = self.step_at_once(plan, world, node, turning)?;
                    Ok(step)
                }
            },
            StmtForm::Compound(_)
            | StmtForm::Plain(_)
            | StmtForm::If(_, _, _)
            | StmtForm::Switch(_, _)
            | StmtForm::Break
            | StmtForm::Continue
            | StmtForm::Return(_) => unreachable!(),
        }
    }

    // The step of a `for`, and the next turn.
    #[inline(always)]
    fn step_at_once(
        &mut self,
        plan: &'p Plan<'p>,
        world: &mut World<'p>,
        node: &'p Node,
        turning: Turning<'p>,
    ) -> Result<Step, NoMemory>
        requires program { world.old.program.now ≡ plan.now.program.now }
        requires tied { Tied self.old world.old }
        requires direct { is_direct node.now.note node.now.form ≡ true }
        ensures left { IfOk result (λ a. UsesIn plan.now.program.now a self.new world.new self.old world.old (node_shape node.now) (Use.Stmt Purpose.Again turning.entry.placed)) }
        ensures tied { IfOk result (λ a. OnMore a (Tied self.new world.new)) }
        ensures falls { IfOk result (λ a. OnMore a (12 * world.new.turns + machine_size self.new < 12 * world.old.turns + 1 + all_weights self.old.waiting.items)) }
        ensures same { OnOk result (Same world.old world.new) }
    {
        match value(world.tables(), world, node) {
            Answer::NoMemory => Err(NoMemory),
            Answer::Stopped(why) => Ok(self.stop(why)),
            Answer::Value(_) => {
                let step = self.again_at_once(plan, world, turning)?;
                Ok(step)
            }
        }
    }

    // The next turn: the test, where there is one, and else the body.
    #[inline(always)]
    pub(super) fn again_at_once(
        &mut self,
        plan: &'p Plan<'p>,
        world: &mut World<'p>,
        turning: Turning<'p>,
    ) -> Result<Step, NoMemory>
        requires program { world.old.program.now ≡ plan.now.program.now }
        requires tied { Tied self.old world.old }
        ensures left { IfOk result (λ a. LeavesIn plan.now.program.now a self.new world.new self.old world.old (λ t k. again_flow t k (loop_of t (form_shape turning.entry.placed.stmt.now.form) turning.entry.placed.before))) }
        ensures tied { IfOk result (λ a. OnMore a (Tied self.new world.new)) }
        ensures falls { IfOk result (λ a. OnMore a (12 * world.new.turns + machine_size self.new < 12 * world.old.turns + 1 + all_weights self.old.waiting.items)) }
        ensures same { OnOk result (Same world.old world.new) }
    {
        match &turning.placed.stmt.form {
            StmtForm::While(test, _) => {
                let step = self.test_at_once(plan, world, test, turning)?;
                Ok(step)
            }
            StmtForm::Do(_, test) => {
                let step = self.test_at_once(plan, world, test, turning)?;
                Ok(step)
            }
            StmtForm::For(_, test, _, _) => match test {
                None => {
                    let step = self.body_at_once(plan, world, turning)?;
                    Ok(step)
                }
                Some(test) => {
                    let step = self.test_at_once(plan, world, test, turning)?;
                    Ok(step)
                }
            },
            StmtForm::Compound(_)
            | StmtForm::Plain(_)
            | StmtForm::If(_, _, _)
            | StmtForm::Switch(_, _)
            | StmtForm::Break
            | StmtForm::Continue
            | StmtForm::Return(_) => unreachable!(),
        }
    }

    // The test, and the body where it holds.
    #[inline(always)]
    fn test_at_once(
        &mut self,
        plan: &'p Plan<'p>,
        world: &mut World<'p>,
        test: &'p Node,
        turning: Turning<'p>,
    ) -> Result<Step, NoMemory>
        requires program { world.old.program.now ≡ plan.now.program.now }
        requires tied { Tied self.old world.old }
        requires direct { is_direct test.now.note test.now.form ≡ true }
        ensures left { IfOk result (λ a. UsesIn plan.now.program.now a self.new world.new self.old world.old (node_shape test.now) (Use.Stmt Purpose.Test turning.entry.placed)) }
        ensures tied { IfOk result (λ a. OnMore a (Tied self.new world.new)) }
        ensures falls { IfOk result (λ a. OnMore a (12 * world.new.turns + machine_size self.new < 12 * world.old.turns + 1 + all_weights self.old.waiting.items)) }
        ensures same { OnOk result (Same world.old world.new) }
    {
        match value(world.tables(), world, test) {
            Answer::NoMemory => Err(NoMemory),
            Answer::Stopped(why) => Ok(self.stop(why)),
            Answer::Value(value) => {
                if is_true(value) {
                    let step = self.body_at_once(plan, world, turning)?;
                    return Ok(step);
                }
                Ok(self.leave(Flow::Next))
            }
        }
    }

    // The body, and what is behind it.
    #[inline(always)]
    pub(super) fn body_at_once(
        &mut self,
        plan: &'p Plan<'p>,
        world: &mut World<'p>,
        turning: Turning<'p>,
    ) -> Result<Step, NoMemory>
        requires program { world.old.program.now ≡ plan.now.program.now }
        requires tied { Tied self.old world.old }
        ensures left { IfOk result (λ a. LeavesIn plan.now.program.now a self.new world.new self.old world.old (λ t k. body_turn t k (form_shape turning.entry.placed.stmt.now.form) turning.entry.placed.before)) }
        ensures tied { IfOk result (λ a. OnMore a (Tied self.new world.new)) }
        ensures falls { IfOk result (λ a. OnMore a (12 * world.new.turns + machine_size self.new < 12 * world.old.turns + 1 + all_weights self.old.waiting.items)) }
        ensures same { OnOk result (Same world.old world.new) }
    {
        match &turning.placed.stmt.form {
            StmtForm::While(_, body) => {
                let step = self.statement_at_once(plan, world, body, turning)?;
                Ok(step)
            }
            StmtForm::Do(body, _) => {
                let step = self.statement_at_once(plan, world, body, turning)?;
                Ok(step)
            }
            StmtForm::For(_, _, _, body) => {
                let step = self.statement_at_once(plan, world, body, turning)?;
                Ok(step)
            }
            StmtForm::Compound(_)
            | StmtForm::Plain(_)
            | StmtForm::If(_, _, _)
            | StmtForm::Switch(_, _)
            | StmtForm::Break
            | StmtForm::Continue
            | StmtForm::Return(_) => unreachable!(),
        }
    }

    // The statement that the body is.
    #[inline(always)]
    fn statement_at_once(
        &mut self,
        plan: &'p Plan<'p>,
        world: &mut World<'p>,
        body: &'p Stmt,
        turning: Turning<'p>,
    ) -> Result<Step, NoMemory>
        requires program { world.old.program.now ≡ plan.now.program.now }
        requires tied { Tied self.old world.old }
        requires direct { is_direct_form body.now.form ≡ true }
        requires first { first_in (form_shape turning.placed.stmt.now.form) ≡ Some (stmt_shape body.now) }
        ensures left { IfOk result (λ a. LeavesIn plan.now.program.now a self.new world.new self.old world.old (λ t k. body_turn t k (form_shape turning.entry.placed.stmt.now.form) turning.entry.placed.before)) }
        ensures tied { IfOk result (λ a. OnMore a (Tied self.new world.new)) }
        ensures falls { IfOk result (λ a. OnMore a (12 * world.new.turns + machine_size self.new < 12 * world.old.turns + 1 + all_weights self.old.waiting.items)) }
        ensures same { OnOk result (Same world.old world.new) }
    {
        match statement(world.tables(), world, body) {
            Way::NoMemory => Err(NoMemory),
            Way::Stopped(why) => Ok(self.stop(why)),
            Way::Left(flow) => match flow {
                Flow::Next | Flow::Continue => {
                    self.active = Active::Turn(turning);
                    Ok(Step::More)
                }
                Flow::Break => Ok(self.leave(Flow::Next)),
                Flow::Return(_) => Ok(self.leave(flow)),
            },
        }
    }
}
