// The block probes before statements.
ghost use Rattle.std.specs.Prelude.{◌≡◌, List, IfOk, OnOk};
ghost use Rattle.c_events.specs.declared.events.Event.{Event};
ghost use Rattle.c_meaning.specs.declared.end.Flow.{Flow};
ghost use Rattle.c_meaning.specs.State.{State};
ghost use Rattle.c_meaning.specs.Results.{Got};
ghost use Rattle.c_meaning.specs.Statements.{marks_log};
ghost use Rattle.c_world.specs.World.{state_of, Same};
ghost use Rattle.c_eval_once.specs.Forms.{told};
ghost use Rattle.c_machine_direct.specs.Kept.{Kept};

use c_base::place::NoMemory;
use c_constants::probes::probe_number;
use c_events::events::Event;
use c_syntax::tree::ProbeMark;
use c_world::world::World;

/// Logs an event for each of these probes, in their order; `false` at one without a number.
#[inline(always)]
pub fn log_marks(world: &mut World<'_>, marks: &[ProbeMark]) -> Result<bool, NoMemory>
    ensures told { IfOk result (λ r. (h : List Event) (go : State → Got Flow) → told r (state_of world.new h) go ≡ marks_log marks.now (state_of world.old h) go) }
    ensures kept { OnOk result (Kept world.old world.new) }
    ensures same { OnOk result (Same world.old world.new) }
{
    if marks.is_empty() {
        return Ok(true);
    }
    let all = log_each(world, marks)?;
    Ok(all)
}

fn log_each(world: &mut World<'_>, marks: &[ProbeMark]) -> Result<bool, NoMemory>
    ensures told { IfOk result (λ r. (h : List Event) (go : State → Got Flow) → told r (state_of world.new h) go ≡ marks_log marks.now (state_of world.old h) go) }
    ensures kept { OnOk result (Kept world.old world.new) }
    ensures same { OnOk result (Same world.old world.new) }
{
    let mut rest = marks;
    while let Some((mark, others)) = rest.split_first() {
        match probe_number(mark.number.bytes()) {
            None => return Ok(false),
            Some(site) => world.log(Event::Block(site))?,
        }
        rest = others;
    }
    Ok(true)
}
