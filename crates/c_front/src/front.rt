//! The front end: from a text to a program, or its first refusal.

ghost use Rattle.std.specs.Prelude.{◌≤◌, length, IfOk, IfErr, MatchResult};
ghost use Rattle.c_syntax.specs.View.{unit_shape};
ghost use Rattle.c_syntax.specs.Forms.{kinds_of};
ghost use Rattle.c_tree.specs.Lexed.{AreLexed};
ghost use Rattle.c_tree.specs.Programs.{IsSound, HasFewTokens};
ghost use Rattle.c_front.specs.Front.{AreTokens, IsUnit, GivesProgram, IsRefused, IsOne};

use c_base::place::Pos;
use c_lex::{LexRefusal, TextKind, lex};
use c_parse::{ParseRefusal, parse};
use c_syntax::token::Token;
use c_syntax::tree::Unit;
use c_tree::program::Program;
use c_types::{TypeRefusal, check};
use std::alloc::Global;

/// Why a text is no program: the number and the place of its refusal; or there is no memory. The numbers 1 to 9 are
/// those of `c_lex`, 20 is a syntax error, and those from 30 on are complaints of `c_types`.
#[derive(Clone, Copy, Debug, PartialEq, Eq)]
pub enum FrontRefusal {
    At(u8, Pos),
    NoMemory,
}

// The tokens of a text.
#[tactic(auto, using(crate::proofs::Lexed::few_enough, crate::proofs::Lexed::are_lexed))]
fn tokens_of(alloc: Global, text: &[u8], kind: TextKind) -> Result<Vec<Token>, FrontRefusal>
    requires { length text.now ≤ 67108864 }
    ensures tokens { IfOk result (λ v. AreTokens kind text.now v.items) }
    ensures few { IfOk result (λ v. length v.items ≤ 350000) }
    ensures lexed { IfOk result (λ v. AreLexed (kinds_of v.items)) }
    ensures refused { IfErr result (λ e. IsRefused kind text.now e) }
{
    match lex(alloc, text, kind) {
        Ok(tokens) => Ok(tokens),
        Err(LexRefusal::At(number, pos)) => Err(FrontRefusal::At(number, pos)),
        Err(LexRefusal::NoMemory) => Err(FrontRefusal::NoMemory),
    }
}

// The unit of a text.
#[tactic(auto, using(c_tree::proofs::Programs::is_sound, c_tree::proofs::Programs::has_few))]
fn unit_of(alloc: Global, text: &[u8], kind: TextKind) -> Result<Unit, FrontRefusal>
    requires { length text.now ≤ 67108864 }
    ensures unit { IfOk result (λ u. IsUnit kind text.now (unit_shape u)) }
    ensures sound { IfOk result (λ u. IsSound (unit_shape u)) }
    ensures few { IfOk result (λ u. HasFewTokens (unit_shape u)) }
    ensures refused { IfErr result (λ e. IsRefused kind text.now e) }
{
    let tokens = tokens_of(alloc, text, kind)?;
    match parse(alloc, tokens.as_slice()) {
        Ok(unit) => Ok(unit),
        Err(ParseRefusal::Syntax(pos)) => Err(FrontRefusal::At(20, pos)),
        Err(ParseRefusal::NoMemory) => Err(FrontRefusal::NoMemory),
    }
}

/// The program that a text of at most 67,108,864 bytes is, plain or with probes: its tokens (C89, 2.1.1.2, 3.1 and 3.8),
/// their unit (3.7), and that unit with its types (3.3); or its first refusal, the lexer's before the parser's and the
/// parser's before the checker's, with its place. The same text of a kind is never read in two ways.
#[tactic(auto, using(crate::proofs::One::is_one))]
pub fn read(alloc: Global, text: &[u8], kind: TextKind) -> Result<Program, FrontRefusal>
    requires { length text.now ≤ 67108864 }
    ensures read { MatchResult result (GivesProgram kind text.now) (IsRefused kind text.now) }
    ensures one { IsOne kind text.now }
{
    let unit = unit_of(alloc, text, kind)?;
    match check(alloc, unit) {
        Ok(program) => Ok(program),
        Err(TypeRefusal::At(number, pos)) => Err(FrontRefusal::At(number, pos)),
        Err(TypeRefusal::NoMemory) => Err(FrontRefusal::NoMemory),
    }
}
