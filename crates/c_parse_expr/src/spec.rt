//! Array lengths, type names and specifiers, read from tokens (C89, 3.5.2 and 3.5.5).

ghost use Rattle.std.specs.Prelude.{◌≡◌, ◌+◌, ◌<◌, ◌≤◌, length, false, None, Some, IfOk, IsErrOf};
ghost use Rattle.c_syntax.specs.Shape.{one_node};
ghost use Rattle.c_syntax.specs.Levels.{maybe_height, lengths_height, type_height, specs_height, spec_height, enumers_height, decls_height};
ghost use Rattle.c_syntax.specs.View.{node_shape, maybe_node, lengths_list, type_lengths_list, type_shape, spec_shape, spec_list, enumer_list, decl_list};
ghost use Rattle.c_grammar.specs.Look.{Finds, after};
ghost use Rattle.c_grammar.specs.Reader.{reads_lengths, reads_specs, reads_some, reads_type};
ghost use Rattle.c_grammar.specs.Parts.{closed, one_length, structure, enumeration, enumerators, value};
ghost use Rattle.c_grammar.specs.Found.{Found, spec_behind, braced_fields, EnumerFound};

use crate::decl::read_decls;
use crate::expr::read_node;
use c_grammar::allow::has_name;
use c_grammar::build::{
    bare_enum, bare_name, bare_struct, new_enum, new_enumer, new_struct, new_type, star_count,
};
use c_grammar::look::{
    MOST_LEVELS, SpecStart, Standing, Stop, at_spec, find_spec, find_word, first_place, past,
};
use c_grammar::nodes::{put, put_inner};
use c_grammar::size::higher;
use c_grammar::stars::{read_stars, read_tag};
use c_syntax::token::{Mark, Token};
use c_syntax::tree::{Decl, Enumer, Named, Node, Spec, SpecForm, TypeName};
use std::alloc::Global;

// A length that is there, and its closing bracket, one level below what holds the bracket.
#[cycle(reading)]
#[tactic(auto, using(crate::proofs::SpecRead::given_read, crate::proofs::SpecRead::given_unread, crate::proofs::SpecRead::given_unclosed))]
fn read_given<'a>(
    alloc: Global,
    depth: u32,
    probes: u32,
    input: &'a [Token],
) -> Result<(Box<Node>, u32, &'a [Token]), Stop>
    requires deep { depth < 400 }
    requires few { probes ≤ 1600 }
    requires tokens { length input.now < 4294967296 }
    requires given { after Mark.RightBracket input.now ≡ None }
    ensures found { IfOk result (λ p. Found (one_length false depth probes) maybe_height input.now (one_node (node_shape p.0.value)) p.1 p.2.now) }
    ensures low { IfOk result (λ p. p.1 + depth < 400) }
    ensures no_longer { IfOk result (λ p. length p.2.now ≤ length input.now) }
    ensures fails { IsErrOf result Stop.Syntax → Finds (one_length false depth probes) input.now None }
{
    let (node, size, behind) = read_node(alloc, 2, depth + 1, probes, input)?;
    match past(behind, Mark::RightBracket) {
        Some(rest) => Ok((node, size.levels, rest)),
        None => Err(Stop::Syntax),
    }
}

/// A length of a declarator, which may be left out where it is `free`, and its closing bracket, one level below what
/// holds the bracket.
#[cycle(reading)]
#[tactic(auto, using(crate::proofs::SpecRead::length_left_out, crate::proofs::SpecRead::length_given, crate::proofs::SpecRead::length_ungiven, c_grammar::proofs::TypeSteps::length_missing))]
fn read_length<'a>(
    alloc: Global,
    free: bool,
    depth: u32,
    probes: u32,
    input: &'a [Token],
) -> Result<(Option<Node>, u32, &'a [Token]), Stop>
    requires deep { depth < 400 }
    requires few { probes ≤ 1600 }
    requires tokens { length input.now < 4294967296 }
    ensures found { IfOk result (λ p. Found (one_length free depth probes) maybe_height input.now (maybe_node p.0) p.1 p.2.now) }
    ensures low { IfOk result (λ p. p.1 + depth < 400) }
    ensures no_longer { IfOk result (λ p. length p.2.now ≤ length input.now) }
    ensures fails { IsErrOf result Stop.Syntax → Finds (one_length free depth probes) input.now None }
{
    match past(input, Mark::RightBracket) {
        Some(rest) => {
            if free {
                Ok((None, 0, rest))
            } else {
                Err(Stop::Syntax)
            }
        }
        None => {
            let (node, levels, rest) = read_given(alloc, depth, probes, input)?;
            Ok((Some(Box::into_inner(node)), levels, rest))
        }
    }
}

/// The lengths of a declarator, none or more, each in its brackets and one level below the one before; `depth` levels
/// are above the first bracket.
#[cycle(reading)]
#[tactic(auto, using(c_grammar::proofs::ListSteps::lengths_start, c_grammar::proofs::ListSteps::one_item_more, crate::proofs::SpecRead::lengths_further, crate::proofs::SpecRead::lengths_measured, crate::proofs::SpecRead::lengths_read, c_grammar::proofs::CodeSteps::lengths_stopped, c_grammar::proofs::CodeSteps::lengths_many))]
pub fn read_lengths<'a>(
    alloc: Global,
    free: bool,
    depth: u32,
    probes: u32,
    input: &'a [Token],
) -> Result<(Vec<Option<Node>>, u32, &'a [Token]), Stop>
    requires deep { depth ≤ 400 }
    requires few { probes ≤ 1600 }
    requires tokens { length input.now < 4294967296 }
    ensures found { IfOk result (λ p. Found (reads_lengths free depth probes) lengths_height input.now (lengths_list p.0.items) p.1 p.2.now) }
    ensures low { IfOk result (λ p. p.1 + depth ≤ 400) }
    ensures no_longer { IfOk result (λ p. length p.2.now ≤ length input.now) }
    ensures fails { IsErrOf result Stop.Syntax → Finds (reads_lengths free depth probes) input.now None }
{
    let mut list = Vec::new(alloc);
    let mut count = 0;
    let mut levels = 0;
    let mut rest = input;
    while let Some(inside) = past(rest, Mark::LeftBracket) {
        if count + depth >= MOST_LEVELS {
            return Err(Stop::Syntax);
        }
        let (length, own, behind) = read_length(alloc, free, count + depth, probes, inside)?;
        put(&mut list, length)?;
        levels = higher(levels, count + 1 + own);
        count += 1;
        rest = behind;
    }
    Ok((list, levels, rest))
}

// A length of a type name, and its closing bracket, one level below what holds the bracket.
#[cycle(reading)]
#[tactic(auto, using(c_grammar::proofs::TypeSteps::length_missing))]
fn read_type_length<'a>(
    alloc: Global,
    depth: u32,
    probes: u32,
    input: &'a [Token],
) -> Result<(Box<Node>, u32, &'a [Token]), Stop>
    requires deep { depth < 400 }
    requires few { probes ≤ 1600 }
    requires tokens { length input.now < 4294967296 }
    ensures found { IfOk result (λ p. Found (one_length false depth probes) maybe_height input.now (one_node (node_shape p.0.value)) p.1 p.2.now) }
    ensures low { IfOk result (λ p. p.1 + depth < 400) }
    ensures no_longer { IfOk result (λ p. length p.2.now ≤ length input.now) }
    ensures fails { IsErrOf result Stop.Syntax → Finds (one_length false depth probes) input.now None }
{
    match past(input, Mark::RightBracket) {
        Some(_) => Err(Stop::Syntax),
        None => read_given(alloc, depth, probes, input),
    }
}

// The lengths of a type name, none or more, each in its brackets and one level below the one before; `depth` levels
// are above the first bracket.
#[cycle(reading)]
#[tactic(auto, using(c_grammar::proofs::ListSteps::type_lengths_start, c_grammar::proofs::ListSteps::one_item_more, crate::proofs::SpecRead::type_lengths_further, crate::proofs::SpecRead::type_lengths_measured, crate::proofs::SpecRead::type_lengths_read, c_grammar::proofs::CodeSteps::type_lengths_stopped, c_grammar::proofs::CodeSteps::type_lengths_many))]
fn read_type_lengths<'a>(
    alloc: Global,
    depth: u32,
    probes: u32,
    input: &'a [Token],
) -> Result<(Vec<Node>, u32, &'a [Token]), Stop>
    requires deep { depth ≤ 400 }
    requires few { probes ≤ 1600 }
    requires tokens { length input.now < 4294967296 }
    ensures found { IfOk result (λ p. Found (reads_lengths false depth probes) lengths_height input.now (type_lengths_list p.0.items) p.1 p.2.now) }
    ensures low { IfOk result (λ p. p.1 + depth ≤ 400) }
    ensures no_longer { IfOk result (λ p. length p.2.now ≤ length input.now) }
    ensures fails { IsErrOf result Stop.Syntax → Finds (reads_lengths false depth probes) input.now None }
{
    let mut list = Vec::new(alloc);
    let mut count = 0;
    let mut levels = 0;
    let mut rest = input;
    while let Some(inside) = past(rest, Mark::LeftBracket) {
        if count + depth >= MOST_LEVELS {
            return Err(Stop::Syntax);
        }
        let (length, own, behind) = read_type_length(alloc, count + depth, probes, inside)?;
        put_inner(&mut list, length)?;
        levels = higher(levels, count + 1 + own);
        count += 1;
        rest = behind;
    }
    Ok((list, levels, rest))
}

/// A type name, its levels, and what follows it. There are `depth` levels above it, and `probes` probes round it.
#[cycle(reading)]
#[tactic(auto, using(crate::proofs::SpecRead::type_read, crate::proofs::SpecRead::type_starless, crate::proofs::SpecRead::type_unended, c_grammar::proofs::TypeSteps::type_fails))]
pub fn read_type_name<'a>(
    alloc: Global,
    depth: u32,
    probes: u32,
    input: &'a [Token],
) -> Result<(TypeName, u32, &'a [Token]), Stop>
    requires deep { depth ≤ 400 }
    requires few { probes ≤ 1600 }
    requires tokens { length input.now < 4294967296 }
    ensures found { IfOk result (λ p. Found (reads_type depth probes) type_height input.now (type_shape p.0) p.1 p.2.now) }
    ensures low { IfOk result (λ p. p.1 + depth ≤ 400) }
    ensures no_longer { IfOk result (λ p. length p.2.now ≤ length input.now) }
    ensures fails { IsErrOf result Stop.Syntax → Finds (reads_type depth probes) input.now None }
{
    let (specs, levels, behind) = read_specifiers(alloc, depth, probes, input)?;
    let (stars, inside) = read_stars(alloc, depth, behind)?;
    let count = star_count(&stars);
    let (lengths, own, rest) = read_type_lengths(alloc, count + depth, probes, inside)?;
    let name = new_type(first_place(input), specs, stars, lengths);
    Ok((name, higher(levels, count + own), rest))
}

/// Specifiers, one at least, their levels, and what follows them.
#[cycle(reading)]
#[tactic(auto, using(crate::proofs::SpecRead::some_read, crate::proofs::SpecRead::some_unread, c_grammar::proofs::TypeSteps::some_none))]
pub fn read_specifiers<'a>(
    alloc: Global,
    depth: u32,
    probes: u32,
    input: &'a [Token],
) -> Result<(Vec<Spec>, u32, &'a [Token]), Stop>
    requires deep { depth ≤ 400 }
    requires few { probes ≤ 1600 }
    requires tokens { length input.now < 4294967296 }
    ensures found { IfOk result (λ p. Found (reads_some depth probes) specs_height input.now (spec_list p.0.items) p.1 p.2.now) }
    ensures low { IfOk result (λ p. p.1 + depth ≤ 400) }
    ensures no_longer { IfOk result (λ p. length p.2.now ≤ length input.now) }
    ensures fails { IsErrOf result Stop.Syntax → Finds (reads_some depth probes) input.now None }
{
    if at_spec(input) {
        read_specs(alloc, depth, probes, input)
    } else {
        Err(Stop::Syntax)
    }
}

/// Specifiers, none or more, their levels, and what follows them.
#[cycle(reading)]
#[tactic(auto, using(c_grammar::proofs::ListSteps::specs_start, crate::proofs::SpecRead::specs_further, crate::proofs::SpecRead::specs_measured, crate::proofs::SpecRead::specs_read, crate::proofs::SpecRead::specs_unread))]
pub fn read_specs<'a>(
    alloc: Global,
    depth: u32,
    probes: u32,
    input: &'a [Token],
) -> Result<(Vec<Spec>, u32, &'a [Token]), Stop>
    requires deep { depth ≤ 400 }
    requires few { probes ≤ 1600 }
    requires tokens { length input.now < 4294967296 }
    ensures found { IfOk result (λ p. Found (reads_specs depth probes) specs_height input.now (spec_list p.0.items) p.1 p.2.now) }
    ensures low { IfOk result (λ p. p.1 + depth ≤ 400) }
    ensures no_longer { IfOk result (λ p. length p.2.now ≤ length input.now) }
    ensures fails { IsErrOf result Stop.Syntax → Finds (reads_specs depth probes) input.now None }
{
    let mut list = Vec::new(alloc);
    let mut levels = 0;
    let mut rest = input;
    while let Some((begin, inside)) = find_spec(rest) {
        let pos = first_place(rest);
        let (form, own, behind) = read_spec(alloc, depth, probes, begin, inside)?;
        put(&mut list, Spec { pos, form })?;
        levels = higher(levels, own);
        rest = behind;
    }
    Ok((list, levels, rest))
}

// One specifier behind its first token, which says how it begins.
#[cycle(reading)]
#[tactic(auto, using(crate::proofs::SpecRead::word_read))]
fn read_spec<'a>(
    alloc: Global,
    depth: u32,
    probes: u32,
    begin: SpecStart,
    input: &'a [Token],
) -> Result<(SpecForm, u32, &'a [Token]), Stop>
    requires deep { depth ≤ 400 }
    requires few { probes ≤ 1600 }
    requires tokens { length input.now < 4294967296 }
    ensures found { IfOk result (λ p. Found (spec_behind begin depth probes) spec_height input.now (spec_shape p.0) p.1 p.2.now) }
    ensures low { IfOk result (λ p. p.1 + depth ≤ 400) }
    ensures no_longer { IfOk result (λ p. length p.2.now ≤ length input.now) }
    ensures fails { IsErrOf result Stop.Syntax → Finds (spec_behind begin depth probes) input.now None }
{
    match begin {
        SpecStart::Word(key) => Ok((SpecForm::Plain(key), 0, input)),
        SpecStart::Struct => read_struct(alloc, depth, probes, input),
        SpecStart::Enum => read_enum(alloc, depth, probes, input),
    }
}

// A structure behind its key, with a tag or a member list or both.
#[cycle(reading)]
#[tactic(auto, using(crate::proofs::SpecRead::bare_struct_read, crate::proofs::SpecRead::struct_read, crate::proofs::SpecRead::struct_unread, c_grammar::proofs::TypeSteps::struct_nothing))]
fn read_struct<'a>(
    alloc: Global,
    depth: u32,
    probes: u32,
    input: &'a [Token],
) -> Result<(SpecForm, u32, &'a [Token]), Stop>
    requires deep { depth ≤ 400 }
    requires few { probes ≤ 1600 }
    requires tokens { length input.now < 4294967296 }
    ensures found { IfOk result (λ p. Found (structure depth probes) spec_height input.now (spec_shape p.0) p.1 p.2.now) }
    ensures low { IfOk result (λ p. p.1 + depth ≤ 400) }
    ensures no_longer { IfOk result (λ p. length p.2.now ≤ length input.now) }
    ensures fails { IsErrOf result Stop.Syntax → Finds (structure depth probes) input.now None }
{
    let (name, behind) = read_tag(alloc, input)?;
    let Some(inside) = past(behind, Mark::LeftBrace) else {
        if has_name(&name) {
            return Ok((bare_struct(name), 0, behind));
        }
        return Err(Stop::Syntax);
    };
    let (list, levels, rest) = read_fields(alloc, depth, probes, inside)?;
    Ok((new_struct(name, list), levels + 1, rest))
}

// A member list behind its brace, one level below its structure, and the closing brace.
#[cycle(reading)]
#[tactic(auto, using(crate::proofs::SpecRead::fields_read, crate::proofs::SpecRead::fields_deep, crate::proofs::SpecRead::fields_bare, crate::proofs::SpecRead::fields_unread, crate::proofs::SpecRead::fields_unclosed))]
fn read_fields<'a>(
    alloc: Global,
    depth: u32,
    probes: u32,
    input: &'a [Token],
) -> Result<(Vec<Decl>, u32, &'a [Token]), Stop>
    requires deep { depth ≤ 400 }
    requires few { probes ≤ 1600 }
    requires tokens { length input.now < 4294967296 }
    ensures found { IfOk result (λ p. Found (braced_fields depth probes) decls_height input.now (decl_list p.0.items) p.1 p.2.now) }
    ensures low { IfOk result (λ p. p.1 + depth < 400) }
    ensures no_longer { IfOk result (λ p. length p.2.now ≤ length input.now) }
    ensures fails { IsErrOf result Stop.Syntax → Finds (braced_fields depth probes) input.now None }
{
    if depth >= MOST_LEVELS {
        return Err(Stop::Syntax);
    }
    if !at_spec(input) {
        return Err(Stop::Syntax);
    }
    let (list, levels, behind) = read_decls(alloc, Standing::Members, depth + 1, probes, input)?;
    match past(behind, Mark::RightBrace) {
        Some(rest) => Ok((list, levels, rest)),
        None => Err(Stop::Syntax),
    }
}

// An enumeration behind its key, with a tag or enumerators or both.
#[cycle(reading)]
#[tactic(auto, using(crate::proofs::SpecRead::bare_enum_read, crate::proofs::SpecRead::enum_read, crate::proofs::SpecRead::enum_unread, c_grammar::proofs::TypeSteps::enum_nothing))]
fn read_enum<'a>(
    alloc: Global,
    depth: u32,
    probes: u32,
    input: &'a [Token],
) -> Result<(SpecForm, u32, &'a [Token]), Stop>
    requires deep { depth ≤ 400 }
    requires few { probes ≤ 1600 }
    requires tokens { length input.now < 4294967296 }
    ensures found { IfOk result (λ p. Found (enumeration depth probes) spec_height input.now (spec_shape p.0) p.1 p.2.now) }
    ensures low { IfOk result (λ p. p.1 + depth ≤ 400) }
    ensures no_longer { IfOk result (λ p. length p.2.now ≤ length input.now) }
    ensures fails { IsErrOf result Stop.Syntax → Finds (enumeration depth probes) input.now None }
{
    let (name, behind) = read_tag(alloc, input)?;
    let Some(inside) = past(behind, Mark::LeftBrace) else {
        if has_name(&name) {
            return Ok((bare_enum(name), 0, behind));
        }
        return Err(Stop::Syntax);
    };
    let (list, levels, rest) = read_rows(alloc, depth, probes, inside)?;
    Ok((new_enum(name, list), levels, rest))
}

// Enumerators behind their brace, and the closing brace.
#[cycle(reading)]
#[tactic(auto, using(crate::proofs::SpecRead::rows_read, crate::proofs::SpecRead::rows_unread, crate::proofs::SpecRead::rows_unclosed))]
fn read_rows<'a>(
    alloc: Global,
    depth: u32,
    probes: u32,
    input: &'a [Token],
) -> Result<(Vec<Enumer>, u32, &'a [Token]), Stop>
    requires deep { depth ≤ 400 }
    requires few { probes ≤ 1600 }
    requires tokens { length input.now < 4294967296 }
    ensures found { IfOk result (λ p. Found (closed Mark.RightBrace (enumerators depth probes)) enumers_height input.now (enumer_list p.0.items) p.1 p.2.now) }
    ensures low { IfOk result (λ p. p.1 + depth ≤ 400) }
    ensures no_longer { IfOk result (λ p. length p.2.now ≤ length input.now) }
    ensures fails { IsErrOf result Stop.Syntax → Finds (closed Mark.RightBrace (enumerators depth probes)) input.now None }
{
    let (list, levels, behind) = read_enumers(alloc, depth, probes, input)?;
    match past(behind, Mark::RightBrace) {
        Some(rest) => Ok((list, levels, rest)),
        None => Err(Stop::Syntax),
    }
}

// Enumerators with a comma between two of them.
#[cycle(reading)]
#[tactic(auto, using(crate::proofs::SpecRead::enumers_first, crate::proofs::SpecRead::enumers_first_measured, crate::proofs::SpecRead::enumers_further, crate::proofs::SpecRead::enumers_measured, crate::proofs::SpecRead::enumers_read, crate::proofs::SpecRead::enumers_unread))]
fn read_enumers<'a>(
    alloc: Global,
    depth: u32,
    probes: u32,
    input: &'a [Token],
) -> Result<(Vec<Enumer>, u32, &'a [Token]), Stop>
    requires deep { depth ≤ 400 }
    requires few { probes ≤ 1600 }
    requires tokens { length input.now < 4294967296 }
    ensures found { IfOk result (λ p. Found (enumerators depth probes) enumers_height input.now (enumer_list p.0.items) p.1 p.2.now) }
    ensures low { IfOk result (λ p. p.1 + depth ≤ 400) }
    ensures no_longer { IfOk result (λ p. length p.2.now ≤ length input.now) }
    ensures fails { IsErrOf result Stop.Syntax → Finds (enumerators depth probes) input.now None }
{
    let mut list = Vec::new(alloc);
    let (first, first_levels, behind) = read_enumer(alloc, depth, probes, input)?;
    put(&mut list, first)?;
    let mut levels = first_levels;
    let mut rest = behind;
    while let Some(inside) = past(rest, Mark::Comma) {
        let (enumer, own, further) = read_enumer(alloc, depth, probes, inside)?;
        put(&mut list, enumer)?;
        levels = higher(levels, own);
        rest = further;
    }
    Ok((list, levels, rest))
}

// An enumerator with its value, where it has one; the levels are those of the value.
#[cycle(reading)]
#[tactic(auto, using(crate::proofs::SpecRead::enumer_read, c_grammar::proofs::TypeSteps::enumer_nameless, c_grammar::proofs::TypeSteps::enumer_fails))]
fn read_enumer<'a>(
    alloc: Global,
    depth: u32,
    probes: u32,
    input: &'a [Token],
) -> Result<(Enumer, u32, &'a [Token]), Stop>
    requires deep { depth ≤ 400 }
    requires few { probes ≤ 1600 }
    requires tokens { length input.now < 4294967296 }
    ensures found { IfOk result (λ p. EnumerFound depth probes input.now p.0 p.1 p.2.now) }
    ensures low { IfOk result (λ p. p.1 + depth ≤ 400) }
    ensures no_longer { IfOk result (λ p. length p.2.now ≤ length input.now) }
    ensures fails { IsErrOf result Stop.Syntax → Finds (enumerators depth probes) input.now None }
{
    let Some((word, behind)) = find_word(input) else {
        return Err(Stop::Syntax);
    };
    let name = bare_name(alloc, first_place(input), word)?;
    let (value, levels, rest) = read_value(alloc, depth, probes, behind)?;
    Ok((new_enumer(name, value), levels, rest))
}

// The value of an enumerator behind its name, where it has one.
#[cycle(reading)]
#[tactic(auto, using(crate::proofs::SpecRead::value_left_out, crate::proofs::SpecRead::value_read, c_grammar::proofs::TypeSteps::value_fails))]
fn read_value<'a>(
    alloc: Global,
    depth: u32,
    probes: u32,
    input: &'a [Token],
) -> Result<(Option<Node>, u32, &'a [Token]), Stop>
    requires deep { depth ≤ 400 }
    requires few { probes ≤ 1600 }
    requires tokens { length input.now < 4294967296 }
    ensures found { IfOk result (λ p. Found (value depth probes) maybe_height input.now (maybe_node p.0) p.1 p.2.now) }
    ensures low { IfOk result (λ p. p.1 + depth ≤ 400) }
    ensures no_longer { IfOk result (λ p. length p.2.now ≤ length input.now) }
    ensures fails { IsErrOf result Stop.Syntax → Finds (value depth probes) input.now None }
{
    match past(input, Mark::Equal) {
        None => Ok((None, 0, input)),
        Some(inside) => {
            let (node, size, rest) = read_node(alloc, 2, depth, probes, inside)?;
            Ok((Some(Box::into_inner(node)), size.levels, rest))
        }
    }
}
