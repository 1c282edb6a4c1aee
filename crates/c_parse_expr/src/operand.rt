//! Operands, calls, casts and probes, read from tokens (C89, 3.3.1 to 3.3.4).

ghost use Rattle.std.specs.Prelude.{◌≡◌, ◌+◌, ◌<◌, ◌≤◌, length, Some, None, IfOk, IsErrOf};
ghost use Rattle.c_syntax.specs.Shape.{name};
ghost use Rattle.c_syntax.specs.Levels.{nodes_height, type_height};
ghost use Rattle.c_syntax.specs.View.{node_shape, node_list, type_shape};
ghost use Rattle.c_grammar.specs.Look.{Finds};
ghost use Rattle.c_grammar.specs.Starts.{start, at_leaf, at_prefix, at_paren, at_simple, at_select, type_ahead};
ghost use Rattle.c_grammar.specs.Reader.{fronts};
ghost use Rattle.c_grammar.specs.Parts.{closed, whole, arguments, typed, constants};
ghost use Rattle.c_grammar.specs.Found.{NodeFound, Found, AllMeasured, LedFound, LedFails, CasesFound, InsideFound, InsideFails};
ghost use Rattle.c_grammar.specs.CodeView.{prefix_of, probing_of};

use crate::expr::read_node;
use crate::spec::read_type_name;
use c_grammar::levels::{prefix_bound, probe_bound};
use c_grammar::look::{
    MOST_PROBES, Prefix, Probing, Start, Stop, find_numbered, find_start, first_place, past,
    past_size, past_type,
};
use c_grammar::nodes::{
    call_node, cast_node, char_node, name_node, number_node, paren_node, prefix_node, put_inner,
    select_node, simple_node, size_node, string_node,
};
use c_grammar::size::{Size, above, around, higher};
use c_syntax::text::Text;
use c_syntax::token::{Mark, Token};
use c_syntax::tree::{Node, TypeName};
use std::alloc::Global;

/// A whole expression one level below, and this mark behind it.
#[cycle(reading)]
#[tactic(auto, using(crate::proofs::ExprRead::mark_read, crate::proofs::ExprRead::mark_unread, crate::proofs::ExprRead::mark_missing))]
pub fn read_closed<'a>(
    alloc: Global,
    depth: u32,
    probes: u32,
    mark: Mark,
    input: &'a [Token],
) -> Result<(Box<Node>, Size, &'a [Token]), Stop>
    requires deep { depth < 400 }
    requires few { probes ≤ 1600 }
    requires tokens { length input.now < 4294967296 }
    ensures found { IfOk result (λ p. NodeFound (closed mark (whole depth probes)) input.now (node_shape p.0.value) p.1 p.2.now) }
    ensures low { IfOk result (λ p. p.1.levels + depth < 400) }
    ensures no_longer { IfOk result (λ p. length p.2.now ≤ length input.now) }
    ensures fails { IsErrOf result Stop.Syntax → Finds (closed mark (whole depth probes)) input.now None }
{
    let (inner, size, behind) = read_node(alloc, 0, depth + 1, probes, input)?;
    match past(behind, mark) {
        Some(rest) => Ok((inner, size, rest)),
        None => Err(Stop::Syntax),
    }
}

/// An operand: an expression with no operator behind it.
#[cycle(reading)]
#[tactic(auto, using(c_grammar::proofs::ExprSteps::front_none, crate::proofs::ExprRead::number_read, crate::proofs::ExprRead::char_read, crate::proofs::ExprRead::string_read))]
pub fn read_front<'a>(
    alloc: Global,
    depth: u32,
    probes: u32,
    input: &'a [Token],
) -> Result<(Box<Node>, Size, &'a [Token]), Stop>
    requires deep { depth < 400 }
    requires few { probes ≤ 1600 }
    requires tokens { length input.now < 4294967296 }
    ensures found { IfOk result (λ p. NodeFound (fronts depth probes) input.now (node_shape p.0.value) p.1 p.2.now) }
    ensures low { IfOk result (λ p. p.1.levels + depth ≤ 400) }
    ensures no_longer { IfOk result (λ p. length p.2.now ≤ length input.now) }
    ensures fails { IsErrOf result Stop.Syntax → Finds (fronts depth probes) input.now None }
{
    let Some((begin, behind)) = find_start(input) else {
        return Err(Stop::Syntax);
    };
    let pos = first_place(input);
    match begin {
        Start::Number(text) => Ok((number_node(alloc, pos, text)?, above(0), behind)),
        Start::Char(byte) => Ok((char_node(alloc, pos, byte)?, above(0), behind)),
        Start::Str(text) => Ok((string_node(alloc, pos, text)?, above(0), behind)),
        Start::Name(word) => read_name(alloc, depth, probes, input, word, behind),
        Start::Prefix(op) => read_prefix(alloc, depth, probes, input, op, behind),
        Start::Paren => read_paren(alloc, depth, probes, input, behind),
        Start::Simple(probing) => read_simple(alloc, depth, probes, input, probing, behind),
        Start::Select => read_select(alloc, depth, probes, input, behind),
    }
}

// A name or a call; `behind` is what follows the name.
#[cycle(reading)]
#[tactic(auto, using(crate::proofs::ExprRead::name_read, crate::proofs::ExprRead::call_read, c_grammar::proofs::ExprSteps::front_call_fails))]
fn read_name<'a>(
    alloc: Global,
    depth: u32,
    probes: u32,
    input: &'a [Token],
    word: &'a Text,
    behind: &'a [Token],
) -> Result<(Box<Node>, Size, &'a [Token]), Stop>
    requires deep { depth < 400 }
    requires few { probes ≤ 1600 }
    requires tokens { length input.now < 4294967296 }
    requires begins { start input.now ≡ at_leaf (name word.now) behind.now }
    requires behind { length behind.now < length input.now }
    ensures found { IfOk result (λ p. NodeFound (fronts depth probes) input.now (node_shape p.0.value) p.1 p.2.now) }
    ensures low { IfOk result (λ p. p.1.levels + depth ≤ 400) }
    ensures no_longer { IfOk result (λ p. length p.2.now ≤ length input.now) }
    ensures fails { IsErrOf result Stop.Syntax → Finds (fronts depth probes) input.now None }
{
    let pos = first_place(input);
    match past(behind, Mark::LeftParen) {
        None => Ok((name_node(alloc, pos, word)?, above(0), behind)),
        Some(inside) => {
            let (args, levels, rest) = read_arguments(alloc, depth, probes, inside)?;
            Ok((call_node(alloc, pos, word, args)?, above(levels), rest))
        }
    }
}

// The arguments of a call and the closing parenthesis, one level below the call.
#[cycle(reading)]
#[tactic(auto, using(crate::proofs::ExprRead::no_arguments, crate::proofs::ExprRead::arguments_read, crate::proofs::ExprRead::arguments_unread, crate::proofs::ExprRead::arguments_broken, crate::proofs::ExprRead::arguments_unclosed, crate::proofs::ExprRead::one_measured))]
fn read_arguments<'a>(
    alloc: Global,
    depth: u32,
    probes: u32,
    input: &'a [Token],
) -> Result<(Vec<Node>, u32, &'a [Token]), Stop>
    requires deep { depth < 400 }
    requires few { probes ≤ 1600 }
    requires tokens { length input.now < 4294967296 }
    ensures found { IfOk result (λ p. Found (arguments depth probes) nodes_height input.now (node_list p.0.items) p.1 p.2.now) }
    ensures low { IfOk result (λ p. p.1 + depth < 400) }
    ensures no_longer { IfOk result (λ p. length p.2.now ≤ length input.now) }
    ensures fails { IsErrOf result Stop.Syntax → Finds (arguments depth probes) input.now None }
{
    let mut args = Vec::new(alloc);
    if let Some(rest) = past(input, Mark::RightParen) {
        return Ok((args, 0, rest));
    }
    let (first, size, behind) = read_node(alloc, 1, depth + 1, probes, input)?;
    put_inner(&mut args, first)?;
    let (args, all, last) = read_led(alloc, 1, depth + 1, probes, args, size, behind)?;
    match past(last, Mark::RightParen) {
        Some(rest) => Ok((args, all.levels, rest)),
        None => Err(Stop::Syntax),
    }
}

// Expressions with a comma in front of each, behind those of `before`, the deepest of which is as deep as `size`.
#[cycle(reading)]
#[tactic(auto, using(crate::proofs::ExprRead::led_begun, crate::proofs::ExprRead::led_further, crate::proofs::ExprRead::led_measured, crate::proofs::ExprRead::led_ended, crate::proofs::ExprRead::led_unread))]
fn read_led<'a>(
    alloc: Global,
    least: u8,
    depth: u32,
    probes: u32,
    before: Vec<Node>,
    size: Size,
    input: &'a [Token],
) -> Result<(Vec<Node>, Size, &'a [Token]), Stop>
    requires deep { size.levels + depth ≤ 400 }
    requires few { probes ≤ 1600 }
    requires tokens { length input.now < 4294967296 }
    requires measured { AllMeasured (node_list before.items) size }
    ensures found { IfOk result (λ p. LedFound least depth probes before.items input.now (node_list p.0.items) p.1 p.2.now) }
    ensures low { IfOk result (λ p. p.1.levels + depth ≤ 400) }
    ensures no_longer { IfOk result (λ p. length p.2.now ≤ length input.now) }
    ensures fails { IsErrOf result Stop.Syntax → LedFails least depth probes before.items input.now }
{
    let mut list = before;
    let mut all = size;
    let mut rest = input;
    while let Some(inside) = past(rest, Mark::Comma) {
        let (node, node_size, behind) = read_node(alloc, least, depth, probes, inside)?;
        put_inner(&mut list, node)?;
        all = Size {
            levels: higher(all.levels, node_size.levels),
            probes: higher(all.probes, node_size.probes),
        };
        rest = behind;
    }
    Ok((list, all, rest))
}

// An operator in front of its operand; `behind` is what follows the operator.
#[cycle(reading)]
#[tactic(auto, using(crate::proofs::ExprRead::prefix_read, crate::proofs::ExprRead::prefix_unread, crate::proofs::ExprRead::size_read, crate::proofs::ExprRead::size_unread))]
fn read_prefix<'a>(
    alloc: Global,
    depth: u32,
    probes: u32,
    input: &'a [Token],
    op: Prefix,
    behind: &'a [Token],
) -> Result<(Box<Node>, Size, &'a [Token]), Stop>
    requires deep { depth < 400 }
    requires few { probes ≤ 1600 }
    requires tokens { length input.now < 4294967296 }
    requires begins { start input.now ≡ at_prefix (prefix_of op) behind.now }
    requires behind { length behind.now < length input.now }
    ensures found { IfOk result (λ p. NodeFound (fronts depth probes) input.now (node_shape p.0.value) p.1 p.2.now) }
    ensures low { IfOk result (λ p. p.1.levels + depth ≤ 400) }
    ensures no_longer { IfOk result (λ p. length p.2.now ≤ length input.now) }
    ensures fails { IsErrOf result Stop.Syntax → Finds (fronts depth probes) input.now None }
{
    let pos = first_place(input);
    match past_size(op, behind) {
        Some(inside) => {
            let (type_name, levels, rest) = read_typed(alloc, depth, probes, inside)?;
            Ok((size_node(alloc, pos, type_name)?, above(levels), rest))
        }
        None => {
            let (operand, size, rest) = read_node(
                alloc,
                prefix_bound(op),
                depth + 1,
                probes,
                behind,
            )?;
            let node = prefix_node(alloc, pos, op, operand)?;
            Ok((node, above(size.levels), rest))
        }
    }
}

// A type name and the closing parenthesis, one level below what holds them.
#[cycle(reading)]
#[tactic(auto, using(crate::proofs::ExprRead::typed_read, crate::proofs::ExprRead::typed_unread, crate::proofs::ExprRead::typed_unclosed))]
fn read_typed<'a>(
    alloc: Global,
    depth: u32,
    probes: u32,
    input: &'a [Token],
) -> Result<(TypeName, u32, &'a [Token]), Stop>
    requires deep { depth < 400 }
    requires few { probes ≤ 1600 }
    requires tokens { length input.now < 4294967296 }
    ensures found { IfOk result (λ p. Found (typed depth probes) type_height input.now (type_shape p.0) p.1 p.2.now) }
    ensures low { IfOk result (λ p. p.1 + depth < 400) }
    ensures no_longer { IfOk result (λ p. length p.2.now ≤ length input.now) }
    ensures fails { IsErrOf result Stop.Syntax → Finds (typed depth probes) input.now None }
{
    let (type_name, levels, behind) = read_type_name(alloc, depth + 1, probes, input)?;
    match past(behind, Mark::RightParen) {
        Some(rest) => Ok((type_name, levels, rest)),
        None => Err(Stop::Syntax),
    }
}

// An expression in parentheses, or a cast; `behind` is what follows the parenthesis.
#[cycle(reading)]
#[tactic(auto, using(crate::proofs::ExprRead::paren_read, crate::proofs::ExprRead::paren_unread))]
fn read_paren<'a>(
    alloc: Global,
    depth: u32,
    probes: u32,
    input: &'a [Token],
    behind: &'a [Token],
) -> Result<(Box<Node>, Size, &'a [Token]), Stop>
    requires deep { depth < 400 }
    requires few { probes ≤ 1600 }
    requires tokens { length input.now < 4294967296 }
    requires begins { start input.now ≡ at_paren behind.now }
    requires behind { length behind.now < length input.now }
    ensures found { IfOk result (λ p. NodeFound (fronts depth probes) input.now (node_shape p.0.value) p.1 p.2.now) }
    ensures low { IfOk result (λ p. p.1.levels + depth ≤ 400) }
    ensures no_longer { IfOk result (λ p. length p.2.now ≤ length input.now) }
    ensures fails { IsErrOf result Stop.Syntax → Finds (fronts depth probes) input.now None }
{
    match past_type(input) {
        Some(inside) => read_cast(alloc, depth, probes, input, behind, inside),
        None => {
            let (inner, size, rest) = read_closed(alloc, depth, probes, Mark::RightParen, behind)?;
            let node = paren_node(alloc, first_place(input), inner)?;
            Ok((node, above(size.levels), rest))
        }
    }
}

// A cast; `inside` is what follows its parenthesis.
#[cycle(reading)]
#[tactic(auto, using(crate::proofs::ExprRead::cast_read, crate::proofs::ExprRead::cast_unread, crate::proofs::ExprRead::cast_unended))]
fn read_cast<'a>(
    alloc: Global,
    depth: u32,
    probes: u32,
    input: &'a [Token],
    behind: &'a [Token],
    inside: &'a [Token],
) -> Result<(Box<Node>, Size, &'a [Token]), Stop>
    requires deep { depth < 400 }
    requires few { probes ≤ 1600 }
    requires tokens { length input.now < 4294967296 }
    requires begins { start input.now ≡ at_paren behind.now }
    requires type_there { type_ahead input.now ≡ Some inside.now }
    requires inside { length inside.now < length input.now }
    ensures found { IfOk result (λ p. NodeFound (fronts depth probes) input.now (node_shape p.0.value) p.1 p.2.now) }
    ensures low { IfOk result (λ p. p.1.levels + depth ≤ 400) }
    ensures no_longer { IfOk result (λ p. length p.2.now ≤ length input.now) }
    ensures fails { IsErrOf result Stop.Syntax → Finds (fronts depth probes) input.now None }
{
    let (type_name, levels, last) = read_typed(alloc, depth, probes, inside)?;
    let (operand, size, rest) = read_node(alloc, 13, depth + 1, probes, last)?;
    let all = above(higher(levels, size.levels));
    let node = cast_node(alloc, first_place(input), type_name, operand)?;
    Ok((node, all, rest))
}

// A probe with no case constants; `behind` is what follows its word.
#[cycle(reading)]
#[tactic(auto, using(crate::proofs::ExprRead::simple_read, crate::proofs::ExprRead::simple_unread, c_grammar::proofs::ExprSteps::front_simple_unnumbered, c_grammar::proofs::ExprSteps::front_simple_alone, c_grammar::proofs::ExprSteps::front_simple_many))]
fn read_simple<'a>(
    alloc: Global,
    depth: u32,
    probes: u32,
    input: &'a [Token],
    probing: Probing,
    behind: &'a [Token],
) -> Result<(Box<Node>, Size, &'a [Token]), Stop>
    requires deep { depth < 400 }
    requires few { probes ≤ 1600 }
    requires tokens { length input.now < 4294967296 }
    requires begins { start input.now ≡ at_simple (probing_of probing) behind.now }
    requires behind { length behind.now < length input.now }
    ensures found { IfOk result (λ p. NodeFound (fronts depth probes) input.now (node_shape p.0.value) p.1 p.2.now) }
    ensures low { IfOk result (λ p. p.1.levels + depth ≤ 400) }
    ensures no_longer { IfOk result (λ p. length p.2.now ≤ length input.now) }
    ensures fails { IsErrOf result Stop.Syntax → Finds (fronts depth probes) input.now None }
{
    if probes >= MOST_PROBES {
        return Err(Stop::Syntax);
    }
    let Some((number, numbered)) = find_numbered(behind) else {
        return Err(Stop::Syntax);
    };
    let Some(inside) = past(numbered, Mark::Comma) else {
        return Err(Stop::Syntax);
    };
    let none = Size {
        levels: 0,
        probes: 0,
    };
    let least = probe_bound(probing);
    let (inner, size, rest) = read_inside(alloc, least, depth, probes, none, inside)?;
    let node = simple_node(alloc, first_place(input), probing, number, inner)?;
    Ok((node, size, rest))
}

// The probe of a `switch`; `behind` is what follows its word.
#[cycle(reading)]
#[tactic(auto, using(crate::proofs::ExprRead::select_read, crate::proofs::ExprRead::select_unread, crate::proofs::ExprRead::select_unended, c_grammar::proofs::ExprSteps::front_select_fails, c_grammar::proofs::ExprSteps::front_select_unnumbered, c_grammar::proofs::ExprSteps::front_select_many))]
fn read_select<'a>(
    alloc: Global,
    depth: u32,
    probes: u32,
    input: &'a [Token],
    behind: &'a [Token],
) -> Result<(Box<Node>, Size, &'a [Token]), Stop>
    requires deep { depth < 400 }
    requires few { probes ≤ 1600 }
    requires tokens { length input.now < 4294967296 }
    requires begins { start input.now ≡ at_select behind.now }
    requires behind { length behind.now < length input.now }
    ensures found { IfOk result (λ p. NodeFound (fronts depth probes) input.now (node_shape p.0.value) p.1 p.2.now) }
    ensures low { IfOk result (λ p. p.1.levels + depth ≤ 400) }
    ensures no_longer { IfOk result (λ p. length p.2.now ≤ length input.now) }
    ensures fails { IsErrOf result Stop.Syntax → Finds (fronts depth probes) input.now None }
{
    if probes >= MOST_PROBES {
        return Err(Stop::Syntax);
    }
    let Some((number, numbered)) = find_numbered(behind) else {
        return Err(Stop::Syntax);
    };
    let (cases, size, last) = read_cases(alloc, depth, probes, numbered)?;
    let Some(inside) = past(last, Mark::Semicolon) else {
        return Err(Stop::Syntax);
    };
    let (inner, all, rest) = read_inside(alloc, 0, depth, probes, size, inside)?;
    let node = select_node(alloc, first_place(input), number, cases, inner)?;
    Ok((node, all, rest))
}

// The case constants of the probe of a `switch`, with a comma in front of each.
#[cycle(reading)]
#[tactic(auto, using(crate::proofs::ExprRead::none_measured, crate::proofs::ExprRead::cases_read, crate::proofs::ExprRead::cases_unread))]
fn read_cases<'a>(
    alloc: Global,
    depth: u32,
    probes: u32,
    input: &'a [Token],
) -> Result<(Vec<Node>, Size, &'a [Token]), Stop>
    requires deep { depth < 400 }
    requires few { probes < 1600 }
    requires tokens { length input.now < 4294967296 }
    ensures found { IfOk result (λ p. CasesFound depth probes input.now (node_list p.0.items) p.1 p.2.now) }
    ensures low { IfOk result (λ p. p.1.levels + depth ≤ 400) }
    ensures no_longer { IfOk result (λ p. length p.2.now ≤ length input.now) }
    ensures fails { IsErrOf result Stop.Syntax → Finds (constants depth probes) input.now None }
{
    let none = Size {
        levels: 0,
        probes: 0,
    };
    read_led(alloc, 2, depth, probes + 1, Vec::new(alloc), none, input)
}

// The expression in a probe, the closing parenthesis, and the size of the probe. `cases` is how deep the probe's case
// constants are.
#[cycle(reading)]
#[tactic(auto, using(crate::proofs::ExprRead::inside_read, crate::proofs::ExprRead::inside_too_many, crate::proofs::ExprRead::inside_unread, crate::proofs::ExprRead::inside_unclosed))]
fn read_inside<'a>(
    alloc: Global,
    least: u8,
    depth: u32,
    probes: u32,
    cases: Size,
    input: &'a [Token],
) -> Result<(Box<Node>, Size, &'a [Token]), Stop>
    requires deep { depth < 400 }
    requires few { probes < 1600 }
    requires tokens { length input.now < 4294967296 }
    requires low { cases.levels + depth ≤ 400 }
    ensures found { IfOk result (λ p. InsideFound least depth probes cases input.now (node_shape p.0.value) p.1 p.2.now) }
    ensures low { IfOk result (λ p. p.1.levels + depth ≤ 400) }
    ensures no_longer { IfOk result (λ p. length p.2.now ≤ length input.now) }
    ensures fails { IsErrOf result Stop.Syntax → InsideFails least depth probes cases input.now }
{
    let (inner, size, last) = read_node(alloc, least, depth, probes + 1, input)?;
    let Some(rest) = past(last, Mark::RightParen) else {
        return Err(Stop::Syntax);
    };
    match around(cases, size) {
        Some(all) => Ok((inner, all, rest)),
        None => Err(Stop::Syntax),
    }
}
