//! The parentheses and probes round a node, which are passed on the way in.

ghost use Rattle.std.specs.Prelude.{◌≡◌, ◌<◌, List, IfOk, OnOk};
ghost use Rattle.c_events.specs.declared.events.Event.{Event};
ghost use Rattle.c_syntax.specs.View.{node_shape};
ghost use Rattle.c_tables.specs.Tables.{TablesShape};
ghost use Rattle.c_meaning.specs.Results.{then_do};
ghost use Rattle.c_meaning.specs.Knot.{Knot};
ghost use Rattle.c_world.specs.World.{state_of};
ghost use Rattle.c_eval.specs.Rest.{to_value, left, rest, weights};
ghost use Rattle.c_eval_once.specs.Parts.{value, place};
ghost use Rattle.c_eval.specs.Forms.{passed_value, passed_place, IsBare, IsBarePlace};
ghost use Rattle.c_eval_once.specs.Forms.{Kept};

use super::Work;
use crate::frame::{Frame, Passed, Wait};
use c_base::place::NoMemory;
use c_eval_once::builtins::built_in;
use c_eval_once::telling::tell_block;
use c_meaning::end::Stop;
use c_store::value::Fault;
use c_syntax::tree::{Expr, ExprProbe, Node};
use c_tables::tables::Tables;
use c_world::world::World;

#[tactic(auto, using(crate::proofs::Steps::frames_push, crate::proofs::Steps::weights_push, crate::proofs::Steps::then_then, crate::proofs::Steps::lower))]
impl<'p> Work<'p> {
    // The node behind its parentheses and the probes of blocks, which are told, and of tests, which wait for its value.
    pub(super) fn pass(
        &mut self,
        world: &mut World<'p>,
        node: &'p Node,
    ) -> Result<Passed<'p>, NoMemory>
        ensures rest { IfOk result (λ r. (t : TablesShape) (k : Knot) (h : List Event) → then_do (passed_value t k r (state_of world.new h)) (to_value (left t k self.new)) ≡ then_do (value t k (node_shape node.now) (state_of world.old h)) (to_value (left t k self.old))) }
        ensures bare { IfOk result IsBare }
        ensures weights { OnOk result (weights self.new.stack.items ≡ weights self.old.stack.items) }
        ensures kept { OnOk result (Kept world.old world.new) }
        ensures turns { OnOk result (world.new.turns ≡ world.old.turns) }
    {
        let mut inner = node;
        loop {
            match &inner.form {
                Expr::Paren(next) => inner = next,
                Expr::Probe(probe, next) => match probe {
                    ExprProbe::Block(text) => {
                        if !tell_block(world, text)? {
                            return Ok(Passed::Stopped(Stop::Fault(Fault::NoResult)));
                        }
                        inner = next;
                    }
                    ExprProbe::Test(_) => {
                        self.push(Frame {
                            node: inner,
                            wait: Wait::Probe,
                        })?;
                        inner = next;
                    }
                    ExprProbe::Select(_, _) => {
                        self.push(Frame {
                            node: inner,
                            wait: Wait::Probe,
                        })?;
                        inner = next;
                    }
                    ExprProbe::Use(_) | ExprProbe::Def(_) => return Ok(Passed::Node(inner)),
                },
                _ => return Ok(Passed::Node(inner)),
            }
        }
    }
}

// The node behind its parentheses and the probes of blocks, which are told, of definitions and of uses.
pub(super) fn pass_place<'p>(world: &mut World<'p>, node: &'p Node) -> Result<Passed<'p>, NoMemory>
    ensures rest { IfOk result (λ r. (t : TablesShape) (k : Knot) (h : List Event) → passed_place t k r (state_of world.new h) ≡ place t k (node_shape node.now) (state_of world.old h)) }
    ensures bare { IfOk result IsBarePlace }
    ensures kept { OnOk result (Kept world.old world.new) }
    ensures turns { OnOk result (world.new.turns ≡ world.old.turns) }
{
    let mut inner = node;
    loop {
        match &inner.form {
            Expr::Paren(next) => inner = next,
            Expr::Probe(probe, next) => match probe {
                ExprProbe::Block(text) => {
                    if !tell_block(world, text)? {
                        return Ok(Passed::Stopped(Stop::Fault(Fault::NoResult)));
                    }
                    inner = next;
                }
                ExprProbe::Use(_) | ExprProbe::Def(_) => inner = next,
                ExprProbe::Test(_) | ExprProbe::Select(_, _) => return Ok(Passed::Node(inner)),
            },
            _ => return Ok(Passed::Node(inner)),
        }
    }
}
