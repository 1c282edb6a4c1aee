//! One expression, as far as it has come.

ghost use Rattle.std.specs.Prelude.{◌≡◌, ◌++◌, [], ◌∷◌, ℕ, ◌<◌, ◌≤◌, ◌+◌, ◌*◌, List, Option, Some, None, true, false, IfOk, OnOk};
ghost use Rattle.c_events.specs.declared.events.Event.{Event};
ghost use Rattle.c_syntax.specs.View.{node_shape};
ghost use Rattle.c_tables.specs.Tables.{TablesShape, tables_shape};
ghost use Rattle.c_meaning.specs.State.{State};
ghost use Rattle.c_meaning.specs.Results.{then_do};
ghost use Rattle.c_meaning.specs.Knot.{Knot};
ghost use Rattle.c_world.specs.World.{state_of};
ghost use Rattle.c_eval.specs.Rest.{Val, Spot, to_value, to_spot, waiting, left, rest, rest_after, wait_weight, weights, size, size_after, Lower};
ghost use Rattle.c_eval_once.specs.Parts.{value, place, replied};
ghost use Rattle.c_eval_once.specs.Forms.{Kept};

mod binary;
mod calling;
mod copying;
mod finishing;
mod first;
mod opening;
mod passing;
mod placing;
mod settling;
mod starting;
mod taking;

use crate::frame::{Focus, Frame, Step, Wait};
use c_base::place::NoMemory;
use c_eval_once::reply::Reply;
use c_meaning::end::Stop;
use c_store::value::{Fault, Pointer, Value};
use c_syntax::tree::Node;
use c_tables::tables::Tables;
use c_world::world::World;
use std::alloc::Global;
use std::mem;

/// One expression, as far as it has come, with what waits for its operands, the last one on top; and a list that is done
/// with, for the arguments of the next call.
#[derive(Drop)]
pub struct Work<'p> {
    pub focus: Focus<'p>,
    pub stack: Vec<Frame<'p>>,
    pub spare: Vec<Value>,
    pub alloc: Global,
}

#[tactic(auto, using(crate::proofs::Steps::frames_push, crate::proofs::Steps::weights_push, crate::proofs::Steps::then_gives))]
impl<'p> Work<'p> {
    /// An expression at its start.
    pub fn start(alloc: Global, node: &'p Node) -> Work<'p>
        ensures rest { (t : TablesShape) (k : Knot) (s : State) → rest t k result s ≡ value t k (node_shape node.now) s }
        ensures size { size result ≡ 0 }
    {
        Work {
            focus: Focus::Value(node),
            stack: Vec::new(alloc),
            spare: Vec::new(alloc),
            alloc,
        }
    }

    /// An expression at its start, in the place of this one.
    pub fn restart(&mut self, node: &'p Node)
        ensures rest { (t : TablesShape) (k : Knot) (s : State) → rest t k self.new s ≡ value t k (node_shape node.now) s }
        ensures size { size self.new ≡ 0 }
    {
        self.stack.clear();
        self.focus = Focus::Value(node);
    }

    /// What a called function gave, for what waits for it.
    pub fn resume(&mut self, given: Option<Value>)
        ensures rest { (t : TablesShape) (k : Knot) (s : State) → rest t k self.new s ≡ left t k self.old (Val given) s }
        ensures size { size self.new ≡ 1 + weights self.old.stack.items }
    {
        self.focus = Focus::Given(given);
    }

    /// One step: a node with the parentheses and probes round it and the operands that have none, or what is come to for what
    /// waits for it.
    pub fn step(&mut self, tables: &'p Tables, world: &mut World<'p>) -> Result<Step, NoMemory>
        ensures rest { IfOk result (λ a. (k : Knot) (h : List Event) → rest_after (tables_shape tables.now) k a self.new (state_of world.new h) ≡ rest (tables_shape tables.now) k self.old (state_of world.old h)) }
        ensures falls { IfOk result (λ a. Lower a (4 * world.new.turns + size_after a self.new) (4 * world.old.turns + size self.old)) }
        ensures kept { OnOk result (Kept world.old world.new) }
    {
        match self.focus {
            Focus::Value(node) => {
                let step = self.open(tables, world, node)?;
                let step = self.settle(tables, world, step)?;
                Ok(step)
            }
            Focus::Place(node) => {
                let step = self.open_place(tables, world, node)?;
                let step = self.settle(tables, world, step)?;
                Ok(step)
            }
            Focus::Given(value) => {
                let step = self.give(tables, world, value)?;
                Ok(step)
            }
            Focus::At(at) => {
                let step = self.give_place(tables, world, at)?;
                Ok(step)
            }
        }
    }

    // An empty list, in the room of the one that is done with.
    #[inline(always)]
    pub(super) fn list(&mut self) -> Vec<Value>
        ensures empty { result.items ≡ [] }
        ensures stack { self.new.stack ≡ self.old.stack }
    {
        let mut list = mem::replace(&mut self.spare, Vec::new(self.alloc));
        list.clear();
        list
    }

    // A frame on top.
    #[inline(always)]
    pub(super) fn push(&mut self, frame: Frame<'p>) -> Result<(), NoMemory>
        ensures pushed { OnOk result (self.new.stack.items ≡ self.old.stack.items ++ frame.entry ∷ []) }
        ensures focus { self.new.focus ≡ self.old.focus }
    {
        match self.stack.push(frame) {
            Ok(()) => Ok(()),
            Err(_) => Err(NoMemory),
        }
    }

    // An operand, whose value the node waits for.
    pub(super) fn go(
        &mut self,
        node: &'p Node,
        wait: Wait<'p>,
        operand: &'p Node,
    ) -> Result<Step, NoMemory>
        ensures rest { IfOk result (λ a. (t : TablesShape) (k : Knot) (s : State) → rest_after t k a self.new s ≡ then_do (value t k (node_shape operand.now) s) (λ v s. waiting t k node.now wait.entry (left t k self.old) (Val v) s)) }
        ensures size { IfOk result (λ a. size_after a self.new ≡ wait_weight wait.entry + weights self.old.stack.items) }
        ensures more { IfOk result (λ a. a ≡ Step.More) }
    {
        self.push(Frame { node, wait })?;
        self.focus = Focus::Value(operand);
        Ok(Step::More)
    }

    // An operand, whose place the node waits for.
    pub(super) fn go_to_place(
        &mut self,
        node: &'p Node,
        wait: Wait<'p>,
        operand: &'p Node,
    ) -> Result<Step, NoMemory>
        ensures rest { IfOk result (λ a. (t : TablesShape) (k : Knot) (s : State) → rest_after t k a self.new s ≡ then_do (place t k (node_shape operand.now) s) (λ q s. waiting t k node.now wait.entry (left t k self.old) (Spot q) s)) }
        ensures size { IfOk result (λ a. size_after a self.new ≡ wait_weight wait.entry + weights self.old.stack.items) }
        ensures more { IfOk result (λ a. a ≡ Step.More) }
    {
        self.push(Frame { node, wait })?;
        self.focus = Focus::Place(operand);
        Ok(Step::More)
    }

    // A node in the place of this one.
    pub(super) fn turn_to(&mut self, node: &'p Node) -> Step
        ensures rest { (t : TablesShape) (k : Knot) (s : State) → rest_after t k result self.new s ≡ then_do (value t k (node_shape node.now) s) (to_value (left t k self.old)) }
        ensures size { size_after result self.new ≡ weights self.old.stack.items }
        ensures more { result ≡ Step.More }
    {
        self.focus = Focus::Value(node);
        Step::More
    }

    pub(super) fn turn_to_place(&mut self, node: &'p Node) -> Step
        ensures rest { (t : TablesShape) (k : Knot) (s : State) → rest_after t k result self.new s ≡ then_do (place t k (node_shape node.now) s) (to_spot (left t k self.old)) }
        ensures size { size_after result self.new ≡ weights self.old.stack.items }
        ensures more { result ≡ Step.More }
    {
        self.focus = Focus::Place(node);
        Step::More
    }

    // A value, or none, which is the expression's where nothing waits.
    #[inline(always)]
    pub(super) fn now(&mut self, value: Option<Value>) -> Step
        ensures rest { (t : TablesShape) (k : Knot) (s : State) → rest_after t k result self.new s ≡ left t k self.old (Val value) s }
        ensures size { size_after result self.new ≤ 1 + weights self.old.stack.items }
    {
        if self.stack.is_empty() {
            return Step::Answer(value);
        }
        self.focus = Focus::Given(value);
        Step::More
    }

    // A place.
    #[inline(always)]
    pub(super) fn at(&mut self, at: Pointer) -> Step
        ensures rest { (t : TablesShape) (k : Knot) (s : State) → rest_after t k result self.new s ≡ left t k self.old (Spot at) s }
        ensures size { size_after result self.new ≡ 1 + weights self.old.stack.items }
        ensures more { result ≡ Step.More }
    {
        self.focus = Focus::At(at);
        Step::More
    }

    // A value, or a stop.
    #[inline(always)]
    pub(super) fn reply(&mut self, reply: Reply) -> Step
        ensures rest { (t : TablesShape) (k : Knot) (s : State) → rest_after t k result self.new s ≡ then_do (replied reply s) (λ v. to_value (left t k self.old) (Some v)) }
        ensures size { size_after result self.new ≤ 1 + weights self.old.stack.items }
    {
        match reply {
            Reply::Value(value) => self.now(Some(value)),
            Reply::Stopped(why) => Step::Stopped(why),
        }
    }
}
