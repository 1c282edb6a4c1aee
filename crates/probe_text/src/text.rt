//! The text of a program with its probes.

ghost use Rattle.std.specs.Prelude.{◌≡◌, IfOk, IsErrOf, OnOk};
ghost use Rattle.c_syntax.specs.View.{unit_shape};
ghost use Rattle.probe_text.specs.Text.{Fits, text_in};

use c_base::place::NoMemory;
use c_lex::text_of;
use c_syntax::sentences::tokens_of;
use c_syntax::tree::Unit;
use c_tree::program::Program;
use std::alloc::Global;

/// Why there is no text: it would pass a limit; or memory was wanted.
#[derive(Clone, Copy, Debug, PartialEq, Eq)]
pub enum TextRefusal {
    TooLarge,
    NoMemory,
}

impl From<NoMemory> for TextRefusal {
    ghost use Rattle.probe_text.specs.declared.text.TextRefusal.TheVariants.{NoMemory};

    ghost from_gives = { λ _ e. e ≡ NoMemory };

    fn from(_error: NoMemory) -> TextRefusal {
        TextRefusal::NoMemory
    }
}

// The text of a unit. All tokens together have no more bytes than their text, so they are not counted by themselves.
#[tactic(auto, using(crate::proofs::Measures::is_text, crate::proofs::Measures::too_many, crate::proofs::Measures::too_long, crate::proofs::Measures::few_tokens, crate::proofs::Measures::short_text, crate::proofs::Measures::short_tokens))]
fn unit_text(alloc: Global, unit: &Unit) -> Result<Vec<u8>, TextRefusal>
    ensures text { IfOk result (λ v. v.items ≡ text_in (unit_shape unit.now)) }
    ensures fits { OnOk result (Fits (unit_shape unit.now)) }
    ensures too_large { IsErrOf result TextRefusal.TooLarge → Fits (unit_shape unit.now) → ⊥ }
{
    let tokens = tokens_of(alloc, unit)?;
    if tokens.len() > 350_000 {
        return Err(TextRefusal::TooLarge);
    }
    let text = text_of(alloc, tokens.as_slice())?;
    if text.len() > 67_108_864 {
        return Err(TextRefusal::TooLarge);
    }
    Ok(text)
}

/// The text of a program, with the probes that are in it: the tokens of its unit as they are written. It is too large
/// exactly where it has more than 350,000 tokens, more than 67,108,864 bytes of all tokens, or more than 67,108,864
/// bytes: what is read as a text with probes has no more of them. Time and memory grow with the tokens and their bytes.
pub fn probed_text(alloc: Global, program: &Program) -> Result<Vec<u8>, TextRefusal>
    ensures text { IfOk result (λ v. v.items ≡ text_in (unit_shape program.now.unit)) }
    ensures fits { OnOk result (Fits (unit_shape program.now.unit)) }
    ensures too_large { IsErrOf result TextRefusal.TooLarge → Fits (unit_shape program.now.unit) → ⊥ }
{
    unit_text(alloc, program.unit())
}
