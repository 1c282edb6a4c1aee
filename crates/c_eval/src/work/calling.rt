//! Calls and their arguments (C89, 3.3.2.2).

ghost use Rattle.std.specs.Prelude.{◌≡◌, ◌<◌, ◌≤◌, ◌+◌, ◌*◌, ◌++◌, ◌∷◌, map, drop, List, Some, None, IfOk, OnOk};
ghost use Rattle.c_events.specs.declared.events.Event.{Event};
ghost use Rattle.c_syntax.specs.View.{note_shape, node_list, type_of};
ghost use Rattle.c_store.specs.declared.value.Value.{Value};
ghost use Rattle.c_tables.specs.Tables.{tables_shape};
ghost use Rattle.c_meaning.specs.Results.{then_do};
ghost use Rattle.c_meaning.specs.Knot.{Knot};
ghost use Rattle.c_meaning.specs.Builtins.{called, params_of, as_parameter};
ghost use Rattle.c_meaning.specs.Expressions.{arguments};
ghost use Rattle.c_meaning.specs.Firsts.{quiet};
ghost use Rattle.c_world.specs.World.{state_of};
ghost use Rattle.c_eval.specs.Rest.{to_value, left, rest, rest_after, weights, size, size_after, Lower};
ghost use Rattle.c_eval_once.specs.Parts.{value};
ghost use Rattle.c_eval_once.specs.Forms.{Kept};

use super::Work;
use super::passing::pass_place;
use crate::frame::{Step, Wait};
use c_base::place::NoMemory;
use c_compute::operators::converted;
use c_eval_direct::direct::direct;
use c_eval_once::builtins::built_in;
use c_eval_once::reply::Answer;
use c_meaning::end::Stop;
use c_store::value::{Fault, Value};
use c_syntax::tree::{CType, Node, Note};
use c_tables::tables::Tables;
use c_world::world::World;

#[tactic(auto, using(crate::proofs::Steps::frames_push, crate::proofs::Steps::weights_push, crate::proofs::Steps::then_then, crate::proofs::Steps::lower, crate::proofs::Steps::needed_then, crate::proofs::Steps::at_place))]
impl<'p> Work<'p> {
    // A call, whose turn was taken: its arguments come first.
    pub(super) fn call(
        &mut self,
        tables: &'p Tables,
        world: &mut World<'p>,
        node: &'p Node,
        args: &'p [Node],
    ) -> Result<Step, NoMemory>
        ensures rest { IfOk result (λ a. (k : Knot) (h : List Event) → rest_after (tables_shape tables.now) k a self.new (state_of world.new h) ≡ then_do (then_do (arguments (tables_shape tables.now) k (node_list args.now) (params_of (tables_shape tables.now) (note_shape node.now.note)) (quiet 0) (state_of world.old h)) (called (tables_shape tables.now) k (note_shape node.now.note))) (to_value (left (tables_shape tables.now) k self.old))) }
        ensures falls { IfOk result (λ a. Lower a (4 * world.new.turns + size_after a self.new) (4 * world.old.turns + 2 + weights self.old.stack.items)) }
        ensures kept { OnOk result (Kept world.old world.new) }
    {
        let kinds = params(tables, &node.note);
        let done = self.list();
        let step = self.arguments(tables, world, node, kinds, args, done)?;
        Ok(step)
    }

    // The arguments to come, behind those that are done: the value of each that has no operands is taken at once.
    fn arguments(
        &mut self,
        tables: &'p Tables,
        world: &mut World<'p>,
        node: &'p Node,
        kinds: &'p [CType],
        others: &'p [Node],
        done: Vec<Value>,
    ) -> Result<Step, NoMemory>
        ensures rest { IfOk result (λ a. (k : Knot) (h : List Event) → rest_after (tables_shape tables.now) k a self.new (state_of world.new h) ≡ then_do (then_do (arguments (tables_shape tables.now) k (node_list others.now) (map type_of kinds.now) (quiet 0) (state_of world.old h)) (λ vs. called (tables_shape tables.now) k (note_shape node.now.note) (done.items ++ vs))) (to_value (left (tables_shape tables.now) k self.old))) }
        ensures size { IfOk result (λ a. size_after a self.new ≤ 1 + weights self.old.stack.items) }
        ensures kept { OnOk result (Kept world.old world.new) }
        ensures turns { OnOk result (world.new.turns ≤ world.old.turns) }
    {
        let mut kinds = kinds;
        let mut others = others;
        let mut done = done;
        loop {
            let Some((first, behind)) = others.split_first() else {
                let step = self.invoke(tables, world, node, done)?;
                return Ok(step);
            };
            match direct(tables, world, first) {
                None => {
                    let step = self.go(node, Wait::Argument(kinds, behind, done), first)?;
                    return Ok(step);
                }
                Some(Answer::NoMemory) => return Err(NoMemory),
                Some(Answer::Stopped(why)) => return Ok(Step::Stopped(why)),
                Some(Answer::Value(value)) => {
                    match done.push(parameter(kinds, value)) {
                        Err(_) => return Err(NoMemory),
                        Ok(()) => {}
                    }
                    kinds = behind_first(kinds);
                    others = behind;
                }
            }
        }
    }

    // An argument, behind those that are done.
    pub(super) fn take_argument(
        &mut self,
        tables: &'p Tables,
        world: &mut World<'p>,
        node: &'p Node,
        kinds: &'p [CType],
        others: &'p [Node],
        done: Vec<Value>,
        value: Value,
    ) -> Result<Step, NoMemory>
        ensures rest { IfOk result (λ a. (k : Knot) (h : List Event) → rest_after (tables_shape tables.now) k a self.new (state_of world.new h) ≡ then_do (then_do (arguments (tables_shape tables.now) k (node_list others.now) (drop 1 (map type_of kinds.now)) (quiet 0) (state_of world.old h)) (λ vs. called (tables_shape tables.now) k (note_shape node.now.note) (done.items ++ as_parameter (map type_of kinds.now) value ∷ vs))) (to_value (left (tables_shape tables.now) k self.old))) }
        ensures falls { IfOk result (λ a. Lower a (4 * world.new.turns + size_after a self.new) (4 * world.old.turns + 2 + weights self.old.stack.items)) }
        ensures kept { OnOk result (Kept world.old world.new) }
    {
        let mut done = done;
        match done.push(parameter(kinds, value)) {
            Err(_) => return Err(NoMemory),
            Ok(()) => {}
        }
        let step = self.arguments(tables, world, node, behind_first(kinds), others, done)?;
        Ok(step)
    }

    // A function with its arguments: one with a body is called, one that every program has gives its value.
    fn invoke(
        &mut self,
        tables: &'p Tables,
        world: &mut World<'p>,
        node: &'p Node,
        args: Vec<Value>,
    ) -> Result<Step, NoMemory>
        ensures rest { IfOk result (λ a. (k : Knot) (h : List Event) → rest_after (tables_shape tables.now) k a self.new (state_of world.new h) ≡ then_do (called (tables_shape tables.now) k (note_shape node.now.note) args.items (state_of world.old h)) (to_value (left (tables_shape tables.now) k self.old))) }
        ensures size { IfOk result (λ a. size_after a self.new ≤ 1 + weights self.old.stack.items) }
        ensures kept { OnOk result (Kept world.old world.new) }
        ensures turns { OnOk result (world.new.turns ≡ world.old.turns) }
    {
        let Note::Typed(_, Some(number)) = &node.note else {
            return Ok(Step::Stopped(Stop::Fault(Fault::NoResult)));
        };
        if *number == 0 || *number > tables.functions() {
            return Ok(Step::Stopped(Stop::Fault(Fault::NoResult)));
        }
        let row = tables.function(*number);
        if row.defined.is_some() {
            return Ok(Step::Call(*number, args));
        }
        let given = built_in(world, row.name.bytes(), &args)?;
        self.spare = args;
        match given {
            Ok(value) => Ok(self.now(value)),
            Err(why) => Ok(Step::Stopped(why)),
        }
    }
}

// The types of the parameters of the function that is called.
fn params<'p>(tables: &'p Tables, note: &Note) -> &'p [CType]
    ensures { map type_of result.now ≡ params_of (tables_shape tables.now) (note_shape note.now) }
{
    match note {
        Note::Typed(_, Some(number)) => {
            if *number == 0 || *number > tables.functions() {
                return &[];
            }
            &tables.function(*number).params
        }
        _ => &[],
    }
}

// The argument in the type of its parameter.
fn parameter(kinds: &[CType], value: Value) -> Value
    ensures { result ≡ as_parameter (map type_of kinds.now) value }
{
    match kinds.first() {
        None => value,
        Some(kind) => converted(kind, value),
    }
}

// The types behind the first.
fn behind_first(kinds: &[CType]) -> &[CType]
    ensures { map type_of result.now ≡ drop 1 (map type_of kinds.now) }
{
    match kinds.split_first() {
        None => kinds,
        Some((_, others)) => others,
    }
}
