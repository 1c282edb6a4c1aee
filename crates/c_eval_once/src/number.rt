//! Integer constants, the small ones fast.

ghost use Rattle.std.specs.Prelude.{◌≡◌, ◌<◌, ℕ, Option, IfSome, length, pos};
ghost use Rattle.c_lex_pieces.specs.declared.bytes.ByteSet.TheVariants.{Digit};
ghost use Rattle.c_lex_pieces.specs.Bytes.{digit_of, run};
ghost use Rattle.c_lex_pieces.specs.Numbers.{value as worth};
ghost use Rattle.c_constants.specs.Numbers.{number_of};
ghost use Rattle.c_store.specs.declared.value.Value.TheVariants.{Int};
ghost use Rattle.c_meaning.specs.State.{State};
ghost use Rattle.c_meaning.specs.Expressions.{gives, number_value};
ghost use Rattle.c_eval_once.specs.Forms.{Meets};

use crate::reply::Answer;
use c_constants::numbers::number_of;
use c_meaning::end::Stop;
use c_store::value::{Fault, Value};

/// The value of the integer constant of that spelling (C89, 3.1.3.2); NoResult where it is none.
#[inline(always)]
pub fn number(text: &[u8]) -> Answer
    ensures { (s : State) → Meets result s (number_value (number_of text.now) s) }
{
    match small(text) {
        Some(value) => Answer::Value(Value::Int(i128::from(value))),
        None => any_number(text),
    }
}

fn any_number(text: &[u8]) -> Answer
    ensures { (s : State) → Meets result s (number_value (number_of text.now) s) }
{
    match number_of(text) {
        Some(number) => Answer::Value(Value::Int(i128::from(number.value))),
        None => Answer::Stopped(Stop::Fault(Fault::NoResult)),
    }
}

/// A decimal number of up to nine digits, which is a number by itself; `None` for most other spellings.
#[tactic(auto, using(crate::proofs::Once::decimal_alone))]
#[inline(always)]
pub fn small(text: &[u8]) -> Option<u32>
    ensures { IfSome result (λ v. (s : State) → number_value (number_of text.now) s ≡ gives (Int (pos v)) s) }
{
    let (first, behind) = text.split_first()?;
    if *first == b'0' && !behind.is_empty() {
        return None;
    }
    digits(text)
}

// What decimal digits are worth, up to nine of them.
#[inline(always)]
fn digits(text: &[u8]) -> Option<u32>
    ensures { IfSome result (λ v. (run (Digit 10) text.now ≡ length text.now) × (worth 10 text.now ≡ v)) }
{
    let mut sum: u32 = 0;
    for b in text {
        let d = digit(*b);
        if d >= 10 || sum >= 100_000_000 {
            return None;
        }
        sum = sum * 10 + u32::from(d);
    }
    Some(sum)
}

// What a byte is worth as a decimal digit; 10 for a byte that is none.
#[inline(always)]
fn digit(b: u8) -> u8
    ensures { result < 10 → result ≡ digit_of b }
{
    match b {
        b'0'..=b'9' => b - 48,
        _ => 10,
    }
}
