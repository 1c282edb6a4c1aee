//! Stars, tags and declared names, read from tokens.

ghost use Rattle.std.specs.Prelude.{◌≡◌, ℕ, ◌+◌, ◌<◌, ◌≤◌, List, [], ◌∷◌, ◌++◌, length, Some, None, IfOk, IsErrOf};
ghost use Rattle.c_grammar.specs.Look.{Finds, Got, got};
ghost use Rattle.c_grammar.specs.ExprReader.{reads_consts, reads_stars, tag, maybe_named};

use crate::look::{
    MOST_LEVELS, Stop, find_numbered, find_word, first_place, past, past_key, past_probe,
};
use crate::nodes::{copied, put};
use c_syntax::token::{Key, Mark, ProbeWord, Token};
use c_syntax::tree::{Named, ProbeMark, Star};
use std::alloc::Global;

// How many keys `const` stand at the front, and what follows them; there are fewer than 2^32 tokens.
#[tactic(auto, using(crate::proofs::ListSteps::consts_start, crate::proofs::ListSteps::consts_more, crate::proofs::ListSteps::consts_done))]
fn read_consts(input: &[Token]) -> (u32, &[Token])
    requires { length input.now < 4294967296 }
    ensures found { Finds reads_consts input.now (Some (result.0, result.1.now)) }
    ensures no_longer { length result.1.now ≤ length input.now }
{
    let mut count = 0;
    let mut rest = input;
    while let Some(behind) = past_key(rest, Key::Const) {
        count += 1;
        rest = behind;
    }
    (count, rest)
}

/// The stars at the front, and what follows them. `depth` levels are above the first.
#[tactic(auto, using(crate::proofs::ListSteps::stars_start, crate::proofs::ListSteps::stars_more, crate::proofs::ListSteps::one_item_more, crate::proofs::ListSteps::stars_done, crate::proofs::ListSteps::stars_too_deep))]
pub fn read_stars<'a>(
    alloc: Global,
    depth: u32,
    input: &'a [Token],
) -> Result<(Vec<Star>, &'a [Token]), Stop>
    requires deep { depth ≤ 400 }
    requires few { length input.now < 4294967296 }
    ensures found { IfOk result (λ p. Finds (reads_stars depth) input.now (Some (p.0.items, p.1.now))) }
    ensures low { IfOk result (λ p. length p.0.items + depth ≤ 400) }
    ensures no_longer { IfOk result (λ p. length p.1.now ≤ length input.now) }
    ensures fails { IsErrOf result Stop.Syntax → Finds (reads_stars depth) input.now None }
{
    let mut stars = Vec::new(alloc);
    let mut below = depth;
    let mut rest = input;
    while let Some(behind) = past(rest, Mark::Star) {
        if below >= MOST_LEVELS {
            return Err(Stop::Syntax);
        }
        let pos = first_place(rest);
        let (consts, behind) = read_consts(behind);
        put(&mut stars, Star { pos, consts })?;
        below += 1;
        rest = behind;
    }
    Ok((stars, rest))
}

/// The word at the front, where there is one, as a name without a probe.
#[tactic(auto, using(crate::proofs::TypeSteps::tag_some, crate::proofs::TypeSteps::tag_none))]
pub fn read_tag<'a>(alloc: Global, input: &'a [Token]) -> Result<(Option<Named>, &'a [Token]), Stop>
    ensures found { IfOk result (λ p. tag input.now ≡ Some (p.0, p.1.now)) }
    ensures no_longer { IfOk result (λ p. length p.1.now ≤ length input.now) }
    ensures fails { IsErrOf result Stop.Syntax → ⊥ }
{
    match find_word(input) {
        Some((word, rest)) => {
            let text = copied(alloc, word)?;
            Ok((
                Some(Named {
                    pos: first_place(input),
                    text,
                    probe: None,
                }),
                rest,
            ))
        }
        None => Ok((None, input)),
    }
}

/// The declared name at the front, where there is one, with the probe round it.
#[tactic(auto, using(crate::proofs::TypeSteps::named_plain, crate::proofs::TypeSteps::named_probe, crate::proofs::TypeSteps::named_unnumbered, crate::proofs::TypeSteps::named_alone, crate::proofs::TypeSteps::named_nameless, crate::proofs::TypeSteps::named_open))]
pub fn read_named<'a>(
    alloc: Global,
    input: &'a [Token],
) -> Result<(Option<Named>, &'a [Token]), Stop>
    ensures found { IfOk result (λ p. maybe_named input.now ≡ Some (p.0, p.1.now)) }
    ensures no_longer { IfOk result (λ p. length p.1.now ≤ length input.now) }
    ensures fails { IsErrOf result Stop.Syntax → maybe_named input.now ≡ None }
{
    let Some(behind) = past_probe(input, ProbeWord::Def) else {
        return read_tag(alloc, input);
    };
    let Some((number, behind)) = find_numbered(behind) else {
        return Err(Stop::Syntax);
    };
    let Some(inside) = past(behind, Mark::Comma) else {
        return Err(Stop::Syntax);
    };
    let Some((word, behind)) = find_word(inside) else {
        return Err(Stop::Syntax);
    };
    let Some(rest) = past(behind, Mark::RightParen) else {
        return Err(Stop::Syntax);
    };
    let probe = ProbeMark {
        pos: first_place(input),
        number: copied(alloc, number)?,
    };
    let text = copied(alloc, word)?;
    Ok((
        Some(Named {
            pos: first_place(inside),
            text,
            probe: Some(probe),
        }),
        rest,
    ))
}
