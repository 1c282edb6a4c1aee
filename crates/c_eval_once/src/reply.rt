//! What is answered at once.

ghost use Rattle.std.specs.Prelude.{◌≡◌, Option, IfOk};
ghost use Rattle.c_store.specs.declared.value.Value.{Value};
ghost use Rattle.c_meaning.specs.State.{State};
ghost use Rattle.c_meaning.specs.Results.{Got, then_do};
ghost use Rattle.c_meaning.specs.Expressions.{gives};
ghost use Rattle.c_eval_once.specs.Parts.{replied};
ghost use Rattle.c_eval_once.specs.Forms.{Meets, Loads};

use c_base::place::NoMemory;
use c_meaning::end::Stop;
use c_store::value::{Pointer, Value};

/// A value, or why the run stops.
#[derive(Clone, Copy)]
pub enum Reply {
    Value(Value),
    Stopped(Stop),
}

/// A value; why the run stops; want of memory for an event.
#[derive(Clone, Copy)]
pub enum Answer {
    Value(Value),
    Stopped(Stop),
    NoMemory,
}

/// The same of a place.
#[derive(Clone, Copy)]
pub enum Spot {
    At(Pointer),
    Stopped(Stop),
    NoMemory,
}

/// An answer as a reply; an `Err` where it is want of memory.
#[inline(always)]
pub fn reply_of(answer: Answer) -> Result<Reply, NoMemory>
    ensures meets { IfOk result (λ r. (s : State) (g : Got (Option Value)) → Meets answer s g → g ≡ then_do (replied r s) gives) }
    ensures loads { IfOk result (λ r. (s : State) (g : Got Value) → Loads answer s g → g ≡ replied r s) }
{
    match answer {
        Answer::Value(value) => Ok(Reply::Value(value)),
        Answer::Stopped(why) => Ok(Reply::Stopped(why)),
        Answer::NoMemory => Err(NoMemory),
    }
}
