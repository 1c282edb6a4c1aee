//! What a frame does with the value or the place that it waited for.

ghost use Rattle.std.specs.Prelude.{◌≡◌, ◌<◌, ◌≤◌, ◌+◌, ◌*◌, List, Option, Some, None, true, IfOk, OnOk};
ghost use Rattle.c_events.specs.declared.events.Event.{Event};
ghost use Rattle.c_syntax.specs.View.{note_shape, expr_shape};
ghost use Rattle.c_store.specs.declared.value.Value.{Value};
ghost use Rattle.c_tables.specs.Tables.{TablesShape, tables_shape};
ghost use Rattle.c_meaning.specs.State.{State};
ghost use Rattle.c_meaning.specs.Results.{Gives, then_do};
ghost use Rattle.c_meaning.specs.Knot.{Knot};
ghost use Rattle.c_meaning.specs.Expressions.{cast_value};
ghost use Rattle.c_meaning.specs.Constants.{kind_noted};
ghost use Rattle.c_world.specs.World.{state_of};
ghost use Rattle.c_eval.specs.Rest.{Val, Spot, to_value, does, on_operand, on_found, on_second, on_written, on_combined, on_copied, on_comma, left, rest, rest_after, weight, weights, size, size_after, Lower};
ghost use Rattle.c_eval_once.specs.Parts.{value, place};
ghost use Rattle.c_eval.specs.Forms.{takes_none, is_choosing};
ghost use Rattle.c_eval_once.specs.Forms.{Kept};

use super::Work;
use super::passing::pass_place;
use crate::frame::{Frame, Step, Wait};
use c_base::place::NoMemory;
use c_compute::operators::{is_true, target};
use c_eval_once::builtins::built_in;
use c_eval_once::leaf::{
    cast, combined, converted_by, element_at, field, field_behind, truth_at, unary,
};
use c_eval_once::reply::Reply;
use c_eval_once::telling::{fetch, load, stepped, write, write_combined};
use c_meaning::end::Stop;
use c_store::value::{Fault, Pointer, Value};
use c_syntax::tree::{Expr, Node, UnaryOp};
use c_tables::tables::Tables;
use c_world::world::World;

#[tactic(auto, using(crate::proofs::Steps::frames_push, crate::proofs::Steps::weights_push, crate::proofs::Steps::then_then, crate::proofs::Steps::lower, crate::proofs::Steps::last_then, crate::proofs::Roles::operand_spot, crate::proofs::Roles::second_spot, crate::proofs::Roles::second_none, crate::proofs::Roles::written_spot, crate::proofs::Roles::written_none, crate::proofs::Roles::combined_spot, crate::proofs::Roles::combined_none, crate::proofs::Roles::copied_value, crate::proofs::Roles::comma_spot, crate::proofs::Roles::found_value))]
impl<'p> Work<'p> {
    // A value or none, for one frame.
    pub(super) fn take(
        &mut self,
        tables: &'p Tables,
        world: &mut World<'p>,
        frame: Frame<'p>,
        value: Option<Value>,
    ) -> Result<Step, NoMemory>
        requires { weight frame ≡ 1 }
        ensures rest { IfOk result (λ a. (k : Knot) (h : List Event) → rest_after (tables_shape tables.now) k a self.new (state_of world.new h) ≡ does (tables_shape tables.now) k frame.entry (left (tables_shape tables.now) k self.old) (Val value) (state_of world.old h)) }
        ensures falls { IfOk result (λ a. Lower a (4 * world.new.turns + size_after a self.new) (4 * world.old.turns + 2 + weights self.old.stack.items)) }
        ensures kept { OnOk result (Kept world.old world.new) }
    {
        let Some(present) = value else {
            return Ok(self.take_none(frame));
        };
        let Frame { node, wait } = frame;
        match wait {
            Wait::Operand => {
                let step = self.take_operand(tables, world, node, present)?;
                Ok(step)
            }
            Wait::Second(first) => Ok(self.take_second(node, first, present)),
            Wait::Truth => Ok(self.now(Some(truth_at(present)))),
            Wait::Into(at) => {
                let step = self.take_written(world, node, at, present)?;
                Ok(step)
            }
            Wait::Combine(at, first) => {
                let step = self.take_combined(world, node, at, first, present)?;
                Ok(step)
            }
            Wait::Chosen => Ok(self.now(converted_by(node, value))),
            Wait::Comma => Ok(self.take_comma(node)),
            Wait::Argument(kinds, others, done) => {
                let step = self.take_argument(tables, world, node, kinds, others, done, present)?;
                Ok(step)
            }
            Wait::Place | Wait::Read | Wait::Copy(_) => {
                Ok(Step::Stopped(Stop::Fault(Fault::NoResult)))
            }
            Wait::Probe => unreachable!(),
        }
    }

    // No value, for one frame.
    fn take_none(&mut self, frame: Frame<'p>) -> Step
        ensures rest { (t : TablesShape) (k : Knot) (s : State) → rest_after t k result self.new s ≡ does t k frame.entry (left t k self.old) (Val None) s }
        ensures size { size_after result self.new ≤ 1 + weights self.old.stack.items }
    {
        if !takes_none(&frame) {
            return Step::Stopped(Stop::Fault(Fault::NoResult));
        }
        let Frame { node, wait } = frame;
        match wait {
            Wait::Operand => self.operand_none(node),
            Wait::Chosen => self.now(None),
            Wait::Comma => self.take_comma(node),
            _ => unreachable!(),
        }
    }

    // A cast to `void` and a comma need no value.
    fn operand_none(&mut self, node: &'p Node) -> Step
        ensures rest { (t : TablesShape) (k : Knot) (s : State) → rest_after t k result self.new s ≡ on_operand t k (note_shape node.now.note) (expr_shape node.now.form) (left t k self.old) (Val None) s }
        ensures size { size_after result self.new ≤ 1 + weights self.old.stack.items }
    {
        match &node.form {
            Expr::Cast(_, _) => self.cast(node, None),
            Expr::Comma(_, b) => self.turn_to(b),
            _ => Step::Stopped(Stop::Fault(Fault::NoResult)),
        }
    }

    fn cast(&mut self, node: &'p Node, value: Option<Value>) -> Step
        ensures rest { (t : TablesShape) (k : Knot) (s : State) → rest_after t k result self.new s ≡ then_do (cast_value (kind_noted (note_shape node.now.note)) (Gives value s)) (to_value (left t k self.old)) }
        ensures size { size_after result self.new ≤ 1 + weights self.old.stack.items }
    {
        match cast(node, value) {
            Ok(value) => self.now(value),
            Err(why) => Step::Stopped(why),
        }
    }

    // The first operand of an operator.
    #[inline(always)]
    pub(super) fn take_operand(
        &mut self,
        tables: &'p Tables,
        world: &mut World<'p>,
        node: &'p Node,
        value: Value,
    ) -> Result<Step, NoMemory>
        ensures rest { IfOk result (λ a. (k : Knot) (h : List Event) → rest_after (tables_shape tables.now) k a self.new (state_of world.new h) ≡ on_operand (tables_shape tables.now) k (note_shape node.now.note) (expr_shape node.now.form) (left (tables_shape tables.now) k self.old) (Val (Some value)) (state_of world.old h)) }
        ensures size { IfOk result (λ a. size_after a self.new ≤ 1 + weights self.old.stack.items) }
        ensures kept { OnOk result (Kept world.old world.new) }
        ensures turns { OnOk result (world.new.turns ≤ world.old.turns) }
    {
        match &node.form {
            Expr::Binary(_, _, b) | Expr::Index(_, b) => {
                let step = self.last(tables, world, node, Wait::Second(value), b)?;
                Ok(step)
            }
            Expr::Unary(UnaryOp::Deref, _) => Ok(self.settled(target(value))),
            Expr::Unary(op, a) => Ok(self.reply(unary(*op, a, value))),
            Expr::Cast(_, _) => Ok(self.cast(node, Some(value))),
            Expr::Arrow(a, name, _) => Ok(self.found(field_behind(tables, world, name, a, value))),
            Expr::And(_, _) | Expr::Or(_, _) | Expr::Cond(_, _, _) | Expr::Comma(_, _) => {
                let step = self.take_test(tables, world, node, value)?;
                Ok(step)
            }
            _ => Ok(Step::Stopped(Stop::Fault(Fault::NoResult))),
        }
    }

    // An operand behind which another one is evaluated or not.
    fn take_test(
        &mut self,
        tables: &'p Tables,
        world: &mut World<'p>,
        node: &'p Node,
        value: Value,
    ) -> Result<Step, NoMemory>
        requires { is_choosing node.now.form ≡ true }
        ensures rest { IfOk result (λ a. (k : Knot) (h : List Event) → rest_after (tables_shape tables.now) k a self.new (state_of world.new h) ≡ on_operand (tables_shape tables.now) k (note_shape node.now.note) (expr_shape node.now.form) (left (tables_shape tables.now) k self.old) (Val (Some value)) (state_of world.old h)) }
        ensures size { IfOk result (λ a. size_after a self.new ≤ 1 + weights self.old.stack.items) }
        ensures kept { OnOk result (Kept world.old world.new) }
        ensures turns { OnOk result (world.new.turns ≤ world.old.turns) }
    {
        match &node.form {
            Expr::And(_, b) => {
                if is_true(value) {
                    let step = self.last(tables, world, node, Wait::Truth, b)?;
                    Ok(step)
                } else {
                    Ok(self.now(Some(Value::Int(0))))
                }
            }
            Expr::Or(_, b) => {
                if is_true(value) {
                    Ok(self.now(Some(Value::Int(1))))
                } else {
                    let step = self.last(tables, world, node, Wait::Truth, b)?;
                    Ok(step)
                }
            }
            Expr::Cond(_, b, c) => {
                if is_true(value) {
                    let step = self.last(tables, world, node, Wait::Chosen, b)?;
                    Ok(step)
                } else {
                    let step = self.last(tables, world, node, Wait::Chosen, c)?;
                    Ok(step)
                }
            }
            Expr::Comma(_, b) => Ok(self.turn_to(b)),
            _ => unreachable!(),
        }
    }

    // The second operand of an operator.
    #[inline(always)]
    pub(super) fn take_second(&mut self, node: &'p Node, first: Value, value: Value) -> Step
        ensures rest { (t : TablesShape) (k : Knot) (s : State) → rest_after t k result self.new s ≡ on_second (expr_shape node.now.form) first (left t k self.old) (Val (Some value)) s }
        ensures size { size_after result self.new ≤ 1 + weights self.old.stack.items }
    {
        match &node.form {
            Expr::Binary(op, a, b) => self.reply(combined(*op, a, b, first, value)),
            Expr::Index(a, b) => self.settled(element_at(a, b, first, value)),
            _ => Step::Stopped(Stop::Fault(Fault::NoResult)),
        }
    }

    // The left side of a comma, whose right side is wanted as a place.
    fn take_comma(&mut self, node: &'p Node) -> Step
        ensures rest { (t : TablesShape) (k : Knot) (v : Option Value) (s : State) → rest_after t k result self.new s ≡ on_comma t k (expr_shape node.now.form) (left t k self.old) (Val v) s }
        ensures size { size_after result self.new ≤ 1 + weights self.old.stack.items }
    {
        match &node.form {
            Expr::Comma(_, b) => self.turn_to_place(b),
            _ => Step::Stopped(Stop::Fault(Fault::NoResult)),
        }
    }

    // The right side of `=`.
    #[inline(always)]
    pub(super) fn take_written(
        &mut self,
        world: &mut World<'p>,
        node: &'p Node,
        at: Pointer,
        value: Value,
    ) -> Result<Step, NoMemory>
        ensures rest { IfOk result (λ a. (t : TablesShape) (k : Knot) (h : List Event) → rest_after t k a self.new (state_of world.new h) ≡ on_written (expr_shape node.now.form) at (left t k self.old) (Val (Some value)) (state_of world.old h)) }
        ensures size { IfOk result (λ a. size_after a self.new ≤ 1 + weights self.old.stack.items) }
        ensures kept { OnOk result (Kept world.old world.new) }
        ensures turns { OnOk result (world.new.turns ≡ world.old.turns) }
    {
        match &node.form {
            Expr::Assign(None, a, _) => {
                let reply = write(world, a, at, value)?;
                Ok(self.reply(reply))
            }
            _ => Ok(Step::Stopped(Stop::Fault(Fault::NoResult))),
        }
    }

    // The right side of an assignment with an operator.
    #[inline(always)]
    pub(super) fn take_combined(
        &mut self,
        world: &mut World<'p>,
        node: &'p Node,
        at: Pointer,
        first: Value,
        value: Value,
    ) -> Result<Step, NoMemory>
        ensures rest { IfOk result (λ a. (t : TablesShape) (k : Knot) (h : List Event) → rest_after t k a self.new (state_of world.new h) ≡ on_combined (expr_shape node.now.form) at first (left t k self.old) (Val (Some value)) (state_of world.old h)) }
        ensures size { IfOk result (λ a. size_after a self.new ≤ 1 + weights self.old.stack.items) }
        ensures kept { OnOk result (Kept world.old world.new) }
        ensures turns { OnOk result (world.new.turns ≡ world.old.turns) }
    {
        match &node.form {
            Expr::Assign(Some(op), a, b) => {
                let reply = write_combined(world, *op, a, b, at, first, value)?;
                Ok(self.reply(reply))
            }
            _ => Ok(Step::Stopped(Stop::Fault(Fault::NoResult))),
        }
    }

    // A place, for one frame.
    pub(super) fn take_place(
        &mut self,
        tables: &'p Tables,
        world: &mut World<'p>,
        frame: Frame<'p>,
        at: Pointer,
    ) -> Result<Step, NoMemory>
        ensures rest { IfOk result (λ a. (k : Knot) (h : List Event) → rest_after (tables_shape tables.now) k a self.new (state_of world.new h) ≡ does (tables_shape tables.now) k frame.entry (left (tables_shape tables.now) k self.old) (Spot at) (state_of world.old h)) }
        ensures falls { IfOk result (λ a. Lower a (4 * world.new.turns + size_after a self.new) (4 * world.old.turns + (1 + (weight frame.entry + weights self.old.stack.items)))) }
        ensures kept { OnOk result (Kept world.old world.new) }
    {
        let Frame { node, wait } = frame;
        match wait {
            Wait::Read => match fetch(tables, world, node, at)? {
                Ok(value) => Ok(self.now(value)),
                Err(why) => Ok(Step::Stopped(why)),
            },
            Wait::Place => {
                let step = self.take_found(tables, world, node, at)?;
                Ok(step)
            }
            Wait::Copy(to) => {
                let step = self.take_copied(world, node, to, at)?;
                Ok(step)
            }
            Wait::Operand
            | Wait::Probe
            | Wait::Second(_)
            | Wait::Truth
            | Wait::Into(_)
            | Wait::Combine(_, _)
            | Wait::Chosen
            | Wait::Comma
            | Wait::Argument(_, _, _) => Ok(Step::Stopped(Stop::Fault(Fault::NoResult))),
        }
    }

    // The place of an operand.
    #[inline(always)]
    pub(super) fn take_found(
        &mut self,
        tables: &'p Tables,
        world: &mut World<'p>,
        node: &'p Node,
        at: Pointer,
    ) -> Result<Step, NoMemory>
        ensures rest { IfOk result (λ a. (k : Knot) (h : List Event) → rest_after (tables_shape tables.now) k a self.new (state_of world.new h) ≡ on_found (tables_shape tables.now) k (expr_shape node.now.form) (left (tables_shape tables.now) k self.old) (Spot at) (state_of world.old h)) }
        ensures size { IfOk result (λ a. size_after a self.new ≤ 1 + weights self.old.stack.items) }
        ensures kept { OnOk result (Kept world.old world.new) }
        ensures turns { OnOk result (world.new.turns ≤ world.old.turns) }
    {
        match &node.form {
            Expr::Assign(None, a, b) => {
                let step = self.take_assigned(tables, world, node, a, b, at)?;
                Ok(step)
            }
            Expr::Assign(Some(_), a, b) => match load(world, a, at)? {
                Reply::Stopped(why) => Ok(Step::Stopped(why)),
                Reply::Value(left) => {
                    let step = self.last(tables, world, node, Wait::Combine(at, left), b)?;
                    Ok(step)
                }
            },
            Expr::Step(op, a) => {
                let reply = stepped(world, *op, a, at)?;
                Ok(self.reply(reply))
            }
            Expr::Member(a, name, _) => Ok(self.found(field(tables, world, name, a, at))),
            Expr::Unary(UnaryOp::AddressOf, _) => Ok(self.now(Some(Value::At(at)))),
            _ => Ok(Step::Stopped(Stop::Fault(Fault::NoResult))),
        }
    }
}

// The frame can do with no value.
fn takes_none(frame: &Frame) -> bool
    ensures { result ≡ takes_none frame.now.wait }
{
    matches!(frame.wait, Wait::Operand | Wait::Chosen | Wait::Comma)
}
