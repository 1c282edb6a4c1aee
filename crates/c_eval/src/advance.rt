//! The step of an expression, of which the probes are told.
ghost use Rattle.std.specs.Prelude.{◌≡◌, ◌+◌, ◌*◌, ◌++◌, List, [], IfOk, OnOk, OnErr};
ghost use Rattle.c_events.specs.declared.events.Event.{Event};
ghost use Rattle.c_meaning.specs.Knot.{Knot};
ghost use Rattle.c_meaning.specs.Lasting.{Keeps, IsFront, IsLater};
ghost use Rattle.c_meaning.specs.Runs.{active_name, stopped_end};
ghost use Rattle.c_world.specs.World.{state_of, tables_of};
ghost use Rattle.c_eval.specs.Rest.{rest, size};
ghost use Rattle.c_eval_once.specs.Forms.{Kept};
ghost use Rattle.c_eval.specs.Advance.{Grown, advance_of, ComesTo, size_beyond, Falls};

use crate::frame::Step;
use crate::work::Work;
use atac_base::probes::Probes;
use c_base::place::NoMemory;
use c_meaning::end::{End, Stop};
use c_store::value::Value;
use c_syntax::text::Text;
use c_world::world::World;
use std::alloc::Global;
use std::marker::Model;

/// How an advance leaves: there is more to do; the expression's value; it has none; a call of the function of that
/// number, counted from 1; the run ends.
#[derive(Drop)]
pub enum Advance {
    More,
    Value(Value),
    Nothing,
    Call(u32, Args),
    Stopped(End),
}

/// The arguments of a call in their order, each in the type of its parameter (C89, 3.3.2.2).
#[derive(Drop)]
pub struct Args {
    values: Vec<Value>,
}

impl Model for Args {
    ghost use Rattle.std.specs.Prelude.{List};
    ghost use Rattle.c_store.specs.declared.value.Value.{Value as Argument};

    ghost Value = { List Argument };

    ghost view = { λ a. a.values.items };
}

impl Args {
    /// The arguments.
    #[inline(always)]
    pub fn values(&self) -> &[Value]
        ensures { result.now ≡ self.now }
    {
        self.values.as_slice()
    }
}

impl<'p> Work<'p> {
    /// One step, of which the probes are told. An `Err` is want of memory, and the probes then stand for a front of the log
    /// at the end.
    #[inline(always)]
    pub fn advance<P: Probes>(
        &mut self,
        world: &mut World<'p>,
        probes: &mut P,
    ) -> Result<Advance, NoMemory>
        ensures rest { IfOk result (λ a. (k : Knot) (h l : List Event) → P.stands_for probes.old (h ++ l) → (l' : List Event) × P.stands_for probes.new (h ++ l') × ComesTo (tables_of world.old) k a self.new (state_of world.new l') (rest (tables_of world.old) k self.old (state_of world.old l))) }
        ensures front { OnErr result ((k : Knot) → Keeps IsLater IsLater IsLater IsLater k → (h l : List Event) → P.stands_for probes.old (h ++ l) → (l' : List Event) × P.stands_for probes.new (h ++ l') × Grown l' (rest (tables_of world.old) k self.old (state_of world.old l))) }
        ensures falls { IfOk result (λ a. Falls a (4 * world.new.turns + size_beyond a self.new) (4 * world.old.turns + size self.old)) }
        ensures kept { OnOk result (Kept world.old world.new) }
        ensures told { OnOk result (world.new.pending.items ≡ []) }
    {
        let step = self.step(world.tables(), world)?;
        let advance = tell(self.alloc, world, probes, step)?;
        Ok(advance)
    }
}

// Tells the probes of a step, and how it leaves.
#[inline(always)]
fn tell<P: Probes>(
    alloc: Global,
    world: &mut World<'_>,
    probes: &mut P,
    step: Step,
) -> Result<Advance, NoMemory>
    ensures told { OnOk result ((h l : List Event) → P.stands_for probes.old (h ++ l) → (l' : List Event) × P.stands_for probes.new (h ++ l') × (state_of world.new l' ≡ state_of world.old l)) }
    ensures front { OnErr result ((h l : List Event) → P.stands_for probes.old (h ++ l) → (l' : List Event) × P.stands_for probes.new (h ++ l') × IsFront l' (state_of world.old l).log) }
    ensures advance { IfOk result (λ a. (l : List Event) → a ≡ advance_of (tables_of world.old) (state_of world.old l) step) }
    ensures kept { OnOk result (Kept world.old world.new) }
    ensures turns { OnOk result (world.new.turns ≡ world.old.turns) }
    ensures empty { OnOk result (world.new.pending.items ≡ []) }
{
    world.tell(probes)?;
    let advance = advance_of(alloc, world, step)?;
    Ok(advance)
}

// How a step leaves, the end with it where the run stops.
#[inline(always)]
fn advance_of(alloc: Global, world: &World<'_>, step: Step) -> Result<Advance, NoMemory>
    ensures { IfOk result (λ a. (l : List Event) → a ≡ advance_of (tables_of world.now) (state_of world.now l) step) }
{
    match step {
        Step::More => Ok(Advance::More),
        Step::Answer(Some(value)) => Ok(Advance::Value(value)),
        Step::Answer(None) => Ok(Advance::Nothing),
        Step::Call(function, values) => Ok(Advance::Call(function, Args { values })),
        Step::Stopped(why) => {
            let end = stopped_end(alloc, world, why)?;
            Ok(Advance::Stopped(end))
        }
    }
}

/// The end of a run that stops: a fault has the name of the active function, for which an `Err` wants memory.
pub fn stopped_end(alloc: Global, world: &World<'_>, why: Stop) -> Result<End, NoMemory>
    ensures { IfOk result (λ e. (l : List Event) → e ≡ stopped_end (tables_of world.now) why (state_of world.now l)) }
{
    match why {
        Stop::Fault(fault) => {
            let name = active_name(alloc, world)?;
            Ok(End::Fault(fault, name))
        }
        Stop::Exited(status) => Ok(End::Exited(status)),
        Stop::Turns => Ok(End::Turns),
        Stop::Depth => Ok(End::Depth),
        Stop::Room => Ok(End::Room),
    }
}

// A copy of the name of the active function; no byte where none is active.
fn active_name(alloc: Global, world: &World<'_>) -> Result<Text, NoMemory>
    ensures { IfOk result (λ x. (l : List Event) → x ≡ active_name (tables_of world.now) (state_of world.now l)) }
{
    let tables = world.tables();
    let number = world.function();
    if number == 0 || number > tables.functions() {
        return Ok(Text::new(alloc));
    }
    tables.function(number).name.copy(alloc)
}
