//! Initialisers, read from tokens (C89, 3.5.7).

ghost use Rattle.std.specs.Prelude.{◌≡◌, ◌+◌, ◌<◌, ◌≤◌, length, IfOk, IsErrOf};
ghost use Rattle.c_syntax.specs.Levels.{init_height, inits_height};
ghost use Rattle.c_syntax.specs.View.{init_shape, init_list};
ghost use Rattle.c_grammar.specs.Look.{Finds, after};
ghost use Rattle.c_grammar.specs.Reader.{reads_init};
ghost use Rattle.c_grammar.specs.Parts.{inits_of};
ghost use Rattle.c_grammar.specs.Found.{Found};

use crate::expr::read_node;
use c_grammar::build::{new_list, single_init};
use c_grammar::look::{MOST_LEVELS, Stop, first_place, past, past_further, past_list};
use c_grammar::nodes::put;
use c_grammar::size::higher;
use c_syntax::token::{Mark, Token};
use c_syntax::tree::Init;
use std::alloc::Global;

/// An initialiser, its levels, and what follows it. There are `depth` levels above it, and `probes` probes round it.
#[cycle(reading)]
#[tactic(auto, using(crate::proofs::DeclRead::one_read, crate::proofs::DeclRead::one_unread, c_grammar::proofs::DeclSteps::init_deep))]
pub fn read_init<'a>(
    alloc: Global,
    depth: u32,
    probes: u32,
    input: &'a [Token],
) -> Result<(Init, u32, &'a [Token]), Stop>
    requires deep { depth ≤ 400 }
    requires few { probes ≤ 1600 }
    requires tokens { length input.now < 4294967296 }
    ensures found { IfOk result (λ p. Found (reads_init depth probes) init_height input.now (init_shape p.0) p.1 p.2.now) }
    ensures low { IfOk result (λ p. p.1 + depth ≤ 400) }
    ensures no_longer { IfOk result (λ p. length p.2.now ≤ length input.now) }
    ensures fails { IsErrOf result Stop.Syntax → Finds (reads_init depth probes) input.now None }
{
    if depth >= MOST_LEVELS {
        return Err(Stop::Syntax);
    }
    match past(input, Mark::LeftBrace) {
        Some(inside) => read_braced(alloc, depth, probes, input, inside),
        None => {
            let (node, size, rest) = read_node(alloc, 1, depth + 1, probes, input)?;
            Ok((single_init(node), size.levels + 1, rest))
        }
    }
}

// A list in braces; `inside` is what follows its brace.
#[cycle(reading)]
#[tactic(auto, using(crate::proofs::DeclRead::list_read, crate::proofs::DeclRead::list_unclosed, c_grammar::proofs::DeclSteps::init_list_fails))]
fn read_braced<'a>(
    alloc: Global,
    depth: u32,
    probes: u32,
    input: &'a [Token],
    inside: &'a [Token],
) -> Result<(Init, u32, &'a [Token]), Stop>
    requires deep { depth < 400 }
    requires few { probes ≤ 1600 }
    requires tokens { length input.now < 4294967296 }
    requires begins { after Mark.LeftBrace input.now ≡ Some inside.now }
    requires inside { length inside.now < length input.now }
    ensures found { IfOk result (λ p. Found (reads_init depth probes) init_height input.now (init_shape p.0) p.1 p.2.now) }
    ensures low { IfOk result (λ p. p.1 + depth ≤ 400) }
    ensures no_longer { IfOk result (λ p. length p.2.now ≤ length input.now) }
    ensures fails { IsErrOf result Stop.Syntax → Finds (reads_init depth probes) input.now None }
{
    let (list, levels, behind) = read_inits(alloc, depth, probes, inside)?;
    match past_list(behind) {
        Some((last, rest)) => Ok((new_list(first_place(input), list, last), levels + 1, rest)),
        None => Err(Stop::Syntax),
    }
}

// The initialisers of a list, one level below it, with a comma between two of them.
#[cycle(reading)]
#[tactic(auto, using(crate::proofs::DeclRead::inits_first, crate::proofs::DeclRead::inits_first_measured, crate::proofs::DeclRead::inits_further, crate::proofs::DeclRead::inits_measured, crate::proofs::DeclRead::inits_read, c_grammar::proofs::DeclSteps::list_fails, c_grammar::proofs::ListSteps::inits_failed))]
fn read_inits<'a>(
    alloc: Global,
    depth: u32,
    probes: u32,
    input: &'a [Token],
) -> Result<(Vec<Init>, u32, &'a [Token]), Stop>
    requires deep { depth < 400 }
    requires few { probes ≤ 1600 }
    requires tokens { length input.now < 4294967296 }
    ensures found { IfOk result (λ p. Found (inits_of depth probes) inits_height input.now (init_list p.0.items) p.1 p.2.now) }
    ensures low { IfOk result (λ p. p.1 + depth < 400) }
    ensures no_longer { IfOk result (λ p. length p.2.now ≤ length input.now) }
    ensures fails { IsErrOf result Stop.Syntax → Finds (inits_of depth probes) input.now None }
{
    let mut list = Vec::new(alloc);
    let (first, first_levels, behind) = read_init(alloc, depth + 1, probes, input)?;
    put(&mut list, first)?;
    let mut levels = first_levels;
    let mut rest = behind;
    while let Some(inside) = past_further(rest) {
        let (item, own, further) = read_init(alloc, depth + 1, probes, inside)?;
        put(&mut list, item)?;
        levels = higher(levels, own);
        rest = further;
    }
    Ok((list, levels, rest))
}
