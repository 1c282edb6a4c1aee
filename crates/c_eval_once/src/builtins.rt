//! The functions that every program has (C89, 4.9.7.6, 4.9.7.9 and 4.10.4.3).

ghost use Rattle.std.specs.Prelude.{◌≡◌, List, IfOk, OnOk};
ghost use Rattle.c_events.specs.declared.events.Event.{Event};
ghost use Rattle.c_meaning.specs.State.{State};
ghost use Rattle.c_meaning.specs.Results.{Stops};
ghost use Rattle.c_meaning.specs.Builtins.{built_in, put_byte, exits};
ghost use Rattle.c_world.specs.World.{state_of};
ghost use Rattle.c_eval_once.specs.Forms.{Kept, fetched_as};

use c_arith::convert;
use c_base::place::{IntKind, NoMemory};
use c_meaning::end::Stop;
use c_store::value::{Fault, Value};
use c_world::world::World;

/// What the function of that name gives on these arguments.
pub fn built_in(
    world: &mut World,
    name: &[u8],
    args: &[Value],
) -> Result<Result<Option<Value>, Stop>, NoMemory>
    ensures done { IfOk result (λ r. (h : List Event) → built_in name.now args.now (state_of world.old h) ≡ fetched_as r (state_of world.new h)) }
    ensures kept { OnOk result (Kept world.old world.new) }
    ensures turns { OnOk result (world.new.turns ≡ world.old.turns) }
{
    if name == b"getchar".as_slice() {
        return Ok(Ok(Some(world.next_byte())));
    }
    if name == b"putchar".as_slice() {
        let put = put(world, args)?;
        return Ok(put);
    }
    if name == b"exit".as_slice() {
        return Ok(Err(exit(args)));
    }
    Ok(Err(Stop::Fault(Fault::NoResult)))
}

// Writes a byte, which is the result (C89, 4.9.7.9).
fn put(world: &mut World, args: &[Value]) -> Result<Result<Option<Value>, Stop>, NoMemory>
    ensures done { IfOk result (λ r. (h : List Event) → put_byte args.now (state_of world.old h) ≡ fetched_as r (state_of world.new h)) }
    ensures kept { OnOk result (Kept world.old world.new) }
    ensures turns { OnOk result (world.new.turns ≡ world.old.turns) }
{
    match args {
        [value] => match world.put_byte(*value)? {
            Ok(value) => Ok(Ok(Some(value))),
            Err(why) => Ok(Err(why)),
        },
        _ => Ok(Err(Stop::Fault(Fault::NoResult))),
    }
}

// Ends the run with a status (C89, 4.10.4.3).
fn exit(args: &[Value]) -> Stop
    ensures { (s : State) → exits args.now s ≡ Stops result s }
{
    match args {
        [Value::Int(status)] => Stop::Exited(convert(*status, IntKind::Int) as i32),
        _ => Stop::Fault(Fault::NoResult),
    }
}
