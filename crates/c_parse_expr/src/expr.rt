//! Expressions and the operators behind an operand, read from tokens (C89, 3.3).

ghost use Rattle.std.specs.Prelude.{◌≡◌, ℕ, ◌+◌, ◌<◌, ◌≤◌, length, true, Some, None, IfOk, IsErrOf, MatchOption};
ghost use Rattle.c_syntax.specs.Levels.{height};
ghost use Rattle.c_syntax.specs.View.{node_shape};
ghost use Rattle.c_grammar.specs.Look.{Finds};
ghost use Rattle.c_grammar.specs.Starts.{infix_oper, question, bracket, access, step, sign, a_sign};
ghost use Rattle.c_grammar.specs.Reader.{reads, climbs};
ghost use Rattle.c_grammar.specs.ExprReader.{takes};
ghost use Rattle.c_grammar.specs.Parts.{grown};
ghost use Rattle.c_grammar.specs.Found.{Measured, NodeFound};
ghost use Rattle.c_grammar.specs.CodeView.{oper_of, infix_of, access_of, step_of};

use crate::operand::{read_closed, read_front};
use c_base::place::Pos;
use c_grammar::levels::{is_taken, level_of, right_bound};
use c_grammar::look::{
    Access, Infix, MOST_LEVELS, Operator, Step, Stop, find_operator, find_word, first_place,
};
use c_grammar::nodes::{choice_node, field_node, index_node, infix_node, step_node};
use c_grammar::size::{Size, above, higher};
use c_syntax::token::{Mark, Token};
use c_syntax::tree::Node;
use std::alloc::Global;

/// An expression that binds at least as tightly as `least`, how deep it is, and what follows it. There are `depth`
/// levels above it, and `probes` probes round it.
#[cycle(reading)]
#[tactic(auto, using(crate::proofs::ExprRead::node_read, crate::proofs::ExprRead::node_frontless, crate::proofs::ExprRead::node_loose, crate::proofs::ExprRead::node_unended, c_grammar::proofs::ExprSteps::read_deep))]
pub fn read_node<'a>(
    alloc: Global,
    least: u8,
    depth: u32,
    probes: u32,
    input: &'a [Token],
) -> Result<(Box<Node>, Size, &'a [Token]), Stop>
    requires deep { depth ≤ 400 }
    requires few { probes ≤ 1600 }
    requires tokens { length input.now < 4294967296 }
    ensures found { IfOk result (λ p. NodeFound (reads least depth probes) input.now (node_shape p.0.value) p.1 p.2.now) }
    ensures low { IfOk result (λ p. p.1.levels + depth ≤ 400) }
    ensures no_longer { IfOk result (λ p. length p.2.now ≤ length input.now) }
    ensures fails { IsErrOf result Stop.Syntax → Finds (reads least depth probes) input.now None }
{
    if depth >= MOST_LEVELS {
        return Err(Stop::Syntax);
    }
    let (first, size, behind) = read_front(alloc, depth, probes, input)?;
    if level_of(&first) < least {
        return Err(Stop::Syntax);
    }
    climb(alloc, least, depth, probes, first, size, behind)
}

// The operator at the front, where it binds at least as tightly as `least` and takes this operand on its left.
#[tactic(auto, using(crate::proofs::ExprRead::ends_there, crate::proofs::ExprRead::stops_there))]
fn next_operator<'a>(least: u8, left: &Node, input: &'a [Token]) -> Option<(Operator, &'a [Token])>
    ensures found { MatchOption result ((d g : ℕ) → Finds (climbs least d g (node_shape left.now)) input.now (Some (node_shape left.now, input.now))) (λ p. (sign input.now ≡ a_sign (oper_of p.0) p.1.now) × (takes least (node_shape left.now) (oper_of p.0) ≡ true)) }
    ensures shorter { MatchOption result (0 ≤ 0) (λ p. length p.1.now < length input.now) }
{
    let (op, behind) = find_operator(input)?;
    if is_taken(least, left, op) {
        Some((op, behind))
    } else {
        None
    }
}

// The expression so far with the operators behind it that it can take.
#[cycle(reading)]
#[tactic(auto, using(crate::proofs::ExprRead::climb_start, crate::proofs::ExprRead::climb_more, crate::proofs::ExprRead::climb_ended, crate::proofs::ExprRead::climb_unread, crate::proofs::ExprRead::climb_too_high))]
fn climb<'a>(
    alloc: Global,
    least: u8,
    depth: u32,
    probes: u32,
    first: Box<Node>,
    first_size: Size,
    input: &'a [Token],
) -> Result<(Box<Node>, Size, &'a [Token]), Stop>
    requires deep { first_size.levels + depth ≤ 400 }
    requires few { probes ≤ 1600 }
    requires tokens { length input.now < 4294967296 }
    requires measured { Measured (node_shape first.value) first_size }
    ensures found { IfOk result (λ p. NodeFound (climbs least depth probes (node_shape first.value)) input.now (node_shape p.0.value) p.1 p.2.now) }
    ensures low { IfOk result (λ p. p.1.levels + depth ≤ 400) }
    ensures no_longer { IfOk result (λ p. length p.2.now ≤ length input.now) }
    ensures fails { IsErrOf result Stop.Syntax → Finds (climbs least depth probes (node_shape first.value)) input.now None }
{
    let mut node = first;
    let mut size = first_size;
    let mut rest = input;
    while let Some((op, behind)) = next_operator(least, &node, rest) {
        if size.levels + depth >= MOST_LEVELS {
            return Err(Stop::Syntax);
        }
        let op_pos = first_place(rest);
        let (grown, grown_size, further) = grow(
            alloc,
            depth,
            probes,
            node,
            size.levels,
            op_pos,
            op,
            behind,
        )?;
        node = grown;
        size = grown_size;
        rest = further;
    }
    Ok((node, size, rest))
}

// The expression so far, of so many levels, with one operator more.
#[cycle(reading)]
#[tactic(auto, using(c_grammar::proofs::ExprSteps::grow_paren))]
fn grow<'a>(
    alloc: Global,
    depth: u32,
    probes: u32,
    left: Box<Node>,
    levels: u32,
    op_pos: Pos,
    op: Operator,
    input: &'a [Token],
) -> Result<(Box<Node>, Size, &'a [Token]), Stop>
    requires deep { levels + depth < 400 }
    requires few { probes ≤ 1600 }
    requires tokens { length input.now < 4294967296 }
    requires measured { levels ≡ height (node_shape left.value) }
    ensures found { IfOk result (λ p. NodeFound (grown depth probes (node_shape left.value) op_pos (oper_of op)) input.now (node_shape p.0.value) p.1 p.2.now) }
    ensures low { IfOk result (λ p. p.1.levels + depth ≤ 400) }
    ensures no_longer { IfOk result (λ p. length p.2.now ≤ length input.now) }
    ensures fails { IsErrOf result Stop.Syntax → Finds (grown depth probes (node_shape left.value) op_pos (oper_of op)) input.now None }
{
    match op {
        Operator::Infix(op) => grow_infix(alloc, depth, probes, left, levels, op_pos, op, input),
        Operator::Question => grow_choice(alloc, depth, probes, left, levels, op_pos, input),
        Operator::Bracket => grow_index(alloc, depth, probes, left, levels, op_pos, input),
        Operator::Field(access) => grow_field(
            alloc, depth, probes, left, levels, op_pos, access, input,
        ),
        Operator::Step(step) => grow_step(alloc, depth, probes, left, levels, op_pos, step, input),
        Operator::Paren => Err(Stop::Syntax),
    }
}

#[cycle(reading)]
#[tactic(auto, using(crate::proofs::ExprRead::infix_read, crate::proofs::ExprRead::infix_unread))]
fn grow_infix<'a>(
    alloc: Global,
    depth: u32,
    probes: u32,
    left: Box<Node>,
    levels: u32,
    op_pos: Pos,
    op: Infix,
    input: &'a [Token],
) -> Result<(Box<Node>, Size, &'a [Token]), Stop>
    requires deep { levels + depth < 400 }
    requires few { probes ≤ 1600 }
    requires tokens { length input.now < 4294967296 }
    requires measured { levels ≡ height (node_shape left.value) }
    ensures found { IfOk result (λ p. NodeFound (grown depth probes (node_shape left.value) op_pos (infix_oper (infix_of op))) input.now (node_shape p.0.value) p.1 p.2.now) }
    ensures low { IfOk result (λ p. p.1.levels + depth ≤ 400) }
    ensures no_longer { IfOk result (λ p. length p.2.now ≤ length input.now) }
    ensures fails { IsErrOf result Stop.Syntax → Finds (grown depth probes (node_shape left.value) op_pos (infix_oper (infix_of op))) input.now None }
{
    let (right, size, rest) = read_node(alloc, right_bound(op), depth + 1, probes, input)?;
    let all = above(higher(levels, size.levels));
    Ok((infix_node(alloc, op_pos, op, left, right)?, all, rest))
}

#[cycle(reading)]
#[tactic(auto, using(crate::proofs::ExprRead::choice_read, crate::proofs::ExprRead::choice_unread, crate::proofs::ExprRead::choice_unended))]
fn grow_choice<'a>(
    alloc: Global,
    depth: u32,
    probes: u32,
    left: Box<Node>,
    levels: u32,
    op_pos: Pos,
    input: &'a [Token],
) -> Result<(Box<Node>, Size, &'a [Token]), Stop>
    requires deep { levels + depth < 400 }
    requires few { probes ≤ 1600 }
    requires tokens { length input.now < 4294967296 }
    requires measured { levels ≡ height (node_shape left.value) }
    ensures found { IfOk result (λ p. NodeFound (grown depth probes (node_shape left.value) op_pos question) input.now (node_shape p.0.value) p.1 p.2.now) }
    ensures low { IfOk result (λ p. p.1.levels + depth ≤ 400) }
    ensures no_longer { IfOk result (λ p. length p.2.now ≤ length input.now) }
    ensures fails { IsErrOf result Stop.Syntax → Finds (grown depth probes (node_shape left.value) op_pos question) input.now None }
{
    let (yes, size, behind) = read_closed(alloc, depth, probes, Mark::Colon, input)?;
    let (no, last_size, rest) = read_node(alloc, 2, depth + 1, probes, behind)?;
    let all = above(higher(levels, higher(size.levels, last_size.levels)));
    Ok((choice_node(alloc, op_pos, left, yes, no)?, all, rest))
}

#[cycle(reading)]
#[tactic(auto, using(crate::proofs::ExprRead::index_read, crate::proofs::ExprRead::index_unread))]
fn grow_index<'a>(
    alloc: Global,
    depth: u32,
    probes: u32,
    left: Box<Node>,
    levels: u32,
    op_pos: Pos,
    input: &'a [Token],
) -> Result<(Box<Node>, Size, &'a [Token]), Stop>
    requires deep { levels + depth < 400 }
    requires few { probes ≤ 1600 }
    requires tokens { length input.now < 4294967296 }
    requires measured { levels ≡ height (node_shape left.value) }
    ensures found { IfOk result (λ p. NodeFound (grown depth probes (node_shape left.value) op_pos bracket) input.now (node_shape p.0.value) p.1 p.2.now) }
    ensures low { IfOk result (λ p. p.1.levels + depth ≤ 400) }
    ensures no_longer { IfOk result (λ p. length p.2.now ≤ length input.now) }
    ensures fails { IsErrOf result Stop.Syntax → Finds (grown depth probes (node_shape left.value) op_pos bracket) input.now None }
{
    let (inner, size, rest) = read_closed(alloc, depth, probes, Mark::RightBracket, input)?;
    let all = above(higher(levels, size.levels));
    Ok((index_node(alloc, op_pos, left, inner)?, all, rest))
}

#[tactic(auto, using(crate::proofs::ExprRead::field_read, c_grammar::proofs::ExprSteps::grow_field_fails))]
fn grow_field<'a>(
    alloc: Global,
    depth: u32,
    probes: u32,
    left: Box<Node>,
    levels: u32,
    op_pos: Pos,
    op: Access,
    input: &'a [Token],
) -> Result<(Box<Node>, Size, &'a [Token]), Stop>
    requires deep { levels + depth < 400 }
    requires measured { levels ≡ height (node_shape left.value) }
    ensures found { IfOk result (λ p. NodeFound (grown depth probes (node_shape left.value) op_pos (access (access_of op))) input.now (node_shape p.0.value) p.1 p.2.now) }
    ensures low { IfOk result (λ p. p.1.levels + depth ≤ 400) }
    ensures no_longer { IfOk result (λ p. length p.2.now ≤ length input.now) }
    ensures fails { IsErrOf result Stop.Syntax → Finds (grown depth probes (node_shape left.value) op_pos (access (access_of op))) input.now None }
{
    let Some((word, rest)) = find_word(input) else {
        return Err(Stop::Syntax);
    };
    let node = field_node(alloc, op_pos, op, left, word, first_place(input))?;
    Ok((node, above(levels), rest))
}

#[tactic(auto, using(crate::proofs::ExprRead::step_read))]
fn grow_step<'a>(
    alloc: Global,
    depth: u32,
    probes: u32,
    left: Box<Node>,
    levels: u32,
    op_pos: Pos,
    op: Step,
    input: &'a [Token],
) -> Result<(Box<Node>, Size, &'a [Token]), Stop>
    requires deep { levels + depth < 400 }
    requires measured { levels ≡ height (node_shape left.value) }
    ensures found { IfOk result (λ p. NodeFound (grown depth probes (node_shape left.value) op_pos (step (step_of op))) input.now (node_shape p.0.value) p.1 p.2.now) }
    ensures low { IfOk result (λ p. p.1.levels + depth ≤ 400) }
    ensures no_longer { IfOk result (λ p. length p.2.now ≤ length input.now) }
    ensures fails { IsErrOf result Stop.Syntax → ⊥ }
{
    let node = step_node(alloc, op_pos, op, left)?;
    Ok((node, above(levels), input))
}
