//! The program that is drawn from a seed, and its inputs.

ghost use Rattle.std.specs.Prelude.{◌≡◌, ◌++◌, ◌∷◌, [], IfOk, OnOk, map};
ghost use Rattle.atac_self.specs.Generation.{bytes, inputs, program_text, input_bytes};
ghost use Rattle.atac_self.specs.Inputs.{bytes_in};

use crate::bodies::{put_functions, put_main};
use crate::draws::Draws;
use crate::made::Generated;
use c_base::place::NoMemory;
use std::alloc::Global;

/// How many functions the program has.
const FUNCTIONS: u64 = 200;

/// How many inputs there are, and how many bytes each has.
const INPUTS: usize = 3;

const INPUT_BYTES: usize = 16;

// An input.
fn input(alloc: Global, draws: &mut Draws) -> Result<Vec<u8>, NoMemory>
    ensures bytes { IfOk result (λ input. input.items ≡ (bytes INPUT_BYTES draws.old.state).is) }
    ensures state { OnOk result (draws.new.state ≡ (bytes INPUT_BYTES draws.old.state).state) }
{
    let mut input = Vec::new(alloc);
    for _ in 0..INPUT_BYTES {
        input.push(draws.draw(256) as u8)?;
    }
    Ok(input)
}

// The inputs.
fn all_inputs(alloc: Global, draws: &mut Draws) -> Result<Vec<Vec<u8>>, NoMemory>
    ensures { IfOk result (λ all. map bytes_in all.items ≡ (inputs INPUTS draws.old.state).is) }
{
    let mut all = Vec::new(alloc);
    for _ in 0..INPUTS {
        all.push(input(alloc, draws)?)?;
    }
    Ok(all)
}

/// The program that is drawn from the seed, and three inputs of 16 bytes, drawn behind it.
pub fn generated(alloc: Global, seed: u64) -> Result<Generated, NoMemory>
    ensures program { IfOk result (λ g. g.program.items ≡ program_text seed) }
    ensures inputs { IfOk result (λ g. map bytes_in g.inputs.items ≡ input_bytes seed) }
{
    let mut draws = Draws::new(seed);
    let mut text = String::new(alloc);
    text.push_str("int a[16];\n")?;
    put_functions(&mut text, FUNCTIONS, &mut draws)?;
    put_main(&mut text, FUNCTIONS)?;
    let inputs = all_inputs(alloc, &mut draws)?;
    Ok(Generated {
        program: text.into_bytes(),
        inputs,
    })
}
