//! Expressions whose value is taken at once, if they are direct.

ghost use Rattle.std.specs.Prelude.{◌≡◌, ◌≤◌, List, true, IfSome};
ghost use Rattle.c_events.specs.declared.events.Event.{Event};
ghost use Rattle.c_syntax.specs.View.{node_shape};
ghost use Rattle.c_tables.specs.Tables.{tables_shape};
ghost use Rattle.c_meaning.specs.Knot.{Knot};
ghost use Rattle.c_world.specs.World.{state_of};
ghost use Rattle.c_eval_once.specs.Parts.{value};
ghost use Rattle.c_eval_once.specs.Forms.{Kept, Meets, IsAtOnce, IsFewer};
ghost use Rattle.c_eval_direct.specs.Direct.{is_direct};

use crate::forms::{LEVELS, is_direct};
use crate::values::value_with;
use c_eval_once::at_once::at_once;
use c_eval_once::reply::Answer;
use c_syntax::tree::Node;
use c_tables::tables::Tables;
use c_world::world::World;

/// The value of a direct expression, whose turns are taken and whose events are logged; `None` for any other node, and nothing
/// is done.
#[inline(always)]
pub fn direct(tables: &Tables, world: &mut World, node: &Node) -> Option<Answer>
    ensures is { (k : Knot) (h : List Event) → IsAtOnce result (tables_shape tables.now) k (node_shape node.now) (state_of world.old h) (state_of world.new h) }
    ensures kept { Kept world.old world.new }
    ensures turns { world.new.turns ≤ world.old.turns }
    ensures fewer { IfSome result (λ a. IsFewer a world.new.turns world.old.turns) }
{
    match at_once(world, node) {
        Some(answer) => Some(answer),
        None => {
            if is_direct(node, LEVELS) {
                let mut aside = Answer::NoMemory;
                Some(value_with(tables, world, node, &mut aside))
            } else {
                None
            }
        }
    }
}

/// The value of a direct expression, whose turns are taken and whose events are logged.
#[inline(always)]
pub fn value(tables: &Tables, world: &mut World, node: &Node) -> Answer
    requires { is_direct node.now.note node.now.form ≡ true }
    ensures is { (k : Knot) (h : List Event) → Meets result (state_of world.new h) (value (tables_shape tables.now) k (node_shape node.now) (state_of world.old h)) }
    ensures kept { Kept world.old world.new }
    ensures turns { world.new.turns ≤ world.old.turns }
    ensures fewer { IsFewer result world.new.turns world.old.turns }
{
    let mut aside = Answer::NoMemory;
    value_with(tables, world, node, &mut aside)
}
