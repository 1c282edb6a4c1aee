//! Places without probes (C89, 3.2.2.1).

ghost use Rattle.std.specs.Prelude.{◌≡◌, ◌<◌, ◌≤◌, ◌+◌, ◌*◌, List, Some, true, IfOk, OnOk};
ghost use Rattle.c_events.specs.declared.events.Event.{Event};
ghost use Rattle.c_syntax.specs.View.{node_shape, note_shape};
ghost use Rattle.c_tables.specs.Tables.{TablesShape, tables_shape};
ghost use Rattle.c_meaning.specs.State.{State};
ghost use Rattle.c_meaning.specs.Results.{then_do, settled};
ghost use Rattle.c_meaning.specs.Knot.{Knot};
ghost use Rattle.c_world.specs.World.{state_of};
ghost use Rattle.c_world.specs.Steps.{found};
ghost use Rattle.c_eval.specs.Rest.{to_spot, left, rest, rest_after, weights, size, size_after, Lower};
ghost use Rattle.c_eval_once.specs.Parts.{place, one_more};
ghost use Rattle.c_eval.specs.Forms.{has_place};
ghost use Rattle.c_eval_once.specs.Forms.{Kept, noted_place};

use super::Work;
use super::passing::pass_place;
use crate::frame::{Step, Wait};
use c_base::place::NoMemory;
use c_eval_once::builtins::built_in;
use c_eval_once::leaf::variable;
use c_meaning::end::Stop;
use c_store::value::{Fault, Pointer};
use c_syntax::tree::{Expr, Node, Note, UnaryOp};
use c_tables::tables::Tables;
use c_world::world::World;

#[tactic(auto, using(crate::proofs::Steps::frames_push, crate::proofs::Steps::weights_push, crate::proofs::Steps::then_then, crate::proofs::Steps::lower, crate::proofs::Steps::needed_then, crate::proofs::Steps::at_place))]
impl<'p> Work<'p> {
    // A place without probes, whose turn was taken.
    pub(super) fn begin_place(
        &mut self,
        tables: &'p Tables,
        world: &mut World<'p>,
        node: &'p Node,
    ) -> Result<Step, NoMemory>
        requires { has_place node.now.note node.now.form ≡ true }
        ensures rest { IfOk result (λ a. (k : Knot) (h : List Event) → rest_after (tables_shape tables.now) k a self.new (state_of world.new h) ≡ then_do (place (tables_shape tables.now) k (node_shape node.now) (one_more (state_of world.old h))) (to_spot (left (tables_shape tables.now) k self.old))) }
        ensures falls { IfOk result (λ a. Lower a (4 * world.new.turns + size_after a self.new) (4 * world.old.turns + 2 + weights self.old.stack.items)) }
        ensures kept { OnOk result (Kept world.old world.new) }
    {
        match &node.form {
            Expr::Name(_) => Ok(self.variable(tables, world, &node.note)),
            Expr::Unary(UnaryOp::Deref, a) | Expr::Index(a, _) | Expr::Arrow(a, _, _) => {
                let step = self.first(tables, world, node, a)?;
                Ok(step)
            }
            Expr::Member(a, _, _) => {
                let step = self.first_place(tables, world, node, a)?;
                Ok(step)
            }
            Expr::Comma(a, _) => {
                let step = self.go(node, Wait::Comma, a)?;
                Ok(step)
            }
            _ => unreachable!(),
        }
    }

    // A variable, whose turn was taken.
    #[inline(always)]
    fn variable(&mut self, tables: &'p Tables, world: &World<'p>, note: &'p Note) -> Step
        ensures rest { (k : Knot) (h : List Event) → rest_after (tables_shape tables.now) k result self.new (state_of world.now h) ≡ then_do (noted_place (tables_shape tables.now) (note_shape note.now) (state_of world.now h)) (to_spot (left (tables_shape tables.now) k self.old)) }
        ensures size { size_after result self.new ≤ 1 + weights self.old.stack.items }
    {
        match note {
            Note::Typed(kind, Some(number)) => self.found(variable(tables, world, kind, *number)),
            _ => Step::Stopped(Stop::Fault(Fault::NoResult)),
        }
    }

    // A place, or why the run stops.
    #[inline(always)]
    pub(super) fn found(&mut self, place: Result<Pointer, Stop>) -> Step
        ensures rest { (t : TablesShape) (k : Knot) (s : State) → rest_after t k result self.new s ≡ then_do (found place s) (to_spot (left t k self.old)) }
        ensures size { size_after result self.new ≤ 1 + weights self.old.stack.items }
    {
        match place {
            Ok(at) => self.at(at),
            Err(why) => Step::Stopped(why),
        }
    }

    // A place, or a fault.
    #[inline(always)]
    pub(super) fn settled(&mut self, place: Result<Pointer, Fault>) -> Step
        ensures rest { (t : TablesShape) (k : Knot) (s : State) → rest_after t k result self.new s ≡ then_do (settled place s) (to_spot (left t k self.old)) }
        ensures size { size_after result self.new ≤ 1 + weights self.old.stack.items }
    {
        match place {
            Ok(at) => self.at(at),
            Err(fault) => Step::Stopped(Stop::Fault(fault)),
        }
    }
}
