//! Bytes of the input and of the output.

ghost use Rattle.std.specs.Prelude.{◌≡◌, List, [], ◌∷◌, IfOk, Some};
ghost use Rattle.c_events.specs.declared.events.Event.{Event};
ghost use Rattle.c_meaning.specs.Results.{Gives};
ghost use Rattle.c_meaning.specs.Builtins.{next_byte, byte_of, put_byte};
ghost use Rattle.c_world.specs.Steps.{given_value};
ghost use Rattle.c_world.specs.World.{state_of, Same};

use super::World;
use c_base::place::NoMemory;
use c_meaning::end::Stop;
use c_store::value::{Fault, Value};

impl<'p> World<'p> {
    /// The next byte of the input, or -1 at its end (C89, 4.9.7.6).
    #[inline(always)]
    pub fn next_byte(&mut self) -> Value
        ensures read { (h : List Event) → next_byte (state_of self.old h).input (state_of self.old h) ≡ Gives (Some result) (state_of self.new h) }
        ensures same { Same self.old self.new }
        ensures names { self.new.names ≡ self.old.names }
        ensures turns { self.new.turns ≡ self.old.turns }
        ensures store { self.new.store ≡ self.old.store }
    {
        match self.input.split_first() {
            None => Value::Int(-1),
            Some((byte, rest)) => {
                self.input = rest;
                Value::Int(i128::from(*byte))
            }
        }
    }

    /// Writes the value as an unsigned char, which is the result (C89, 4.9.7.9); NoResult at a value that is no integer. There
    /// is no memory for an output of more than 4,294,967,295 bytes.
    #[inline(always)]
    pub fn put_byte(&mut self, value: Value) -> Result<Result<Value, Stop>, NoMemory>
        ensures put { IfOk result (λ r. (h : List Event) → put_byte (value ∷ []) (state_of self.old h) ≡ given_value r (state_of self.new h)) }
        ensures same { Same self.old self.new }
        ensures names { self.new.names ≡ self.old.names }
        ensures turns { self.new.turns ≡ self.old.turns }
        ensures store { self.new.store ≡ self.old.store }
    {
        let Value::Int(number) = value else {
            return Ok(Err(Stop::Fault(Fault::NoResult)));
        };
        if self.output.len() == u32::MAX {
            return Err(NoMemory);
        }
        let byte = low_byte(number);
        self.output.push(byte)?;
        Ok(Ok(Value::Int(i128::from(byte))))
    }
}

// The value modulo 256.
#[inline(always)]
fn low_byte(value: i128) -> u8
    ensures { result ≡ byte_of value }
{
    value.rem_euclid(256) as u8
}
