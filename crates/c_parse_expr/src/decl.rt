//! Declarators, parameters and declarations, read from tokens (C89, 3.5).

ghost use Rattle.std.specs.Prelude.{◌≡◌, ◌+◌, ◌<◌, ◌≤◌, true, max, length, None, Some, IfOk, IsErrOf};
ghost use Rattle.c_syntax.specs.Levels.{specs_height, decl_height, decls_height, declarator_height, behind_height, params_height};
ghost use Rattle.c_syntax.specs.View.{spec_list, decl_shape, decl_list, decl_form_shape, declarator_shape, params_shape, param_shape, param_list};
ghost use Rattle.c_grammar.specs.Look.{Finds, after};
ghost use Rattle.c_grammar.specs.Reader.{reads_decl, reads_decls, reads_declarator, reads_declarators, reads_param, reads_parameters};
ghost use Rattle.c_grammar.specs.Parts.{behind, ending, declaring, params_of};
ghost use Rattle.c_grammar.specs.CodeView.{standing_of};
ghost use Rattle.c_grammar.specs.Found.{Found, FurtherFound, named_behind};

use crate::init::read_init;
use crate::spec::{read_lengths, read_specifiers, read_specs};
use c_base::place::Pos;
use c_grammar::allow::{among_names, is_begun, is_fit, is_free};
use c_grammar::build::{
    bare_decl, bare_declarator, new_arrays, new_decl, new_declarator, new_function, new_param,
    new_params, star_count,
};
use c_grammar::look::{MOST_LEVELS, Standing, Stop, at_spec, first_place, past, past_void};
use c_grammar::nodes::put;
use c_grammar::size::higher;
use c_grammar::stars::{read_named, read_stars};
use c_syntax::token::{Mark, Token};
use c_syntax::tree::{Decl, DeclForm, Declarator, Named, Param, Params, Spec, Star};
use std::alloc::Global;

/// A declarator with its initialiser, its levels, and what follows it.
#[cycle(reading)]
#[tactic(auto, using(crate::proofs::DeclRead::declarator_read, crate::proofs::DeclRead::declarator_unread, crate::proofs::DeclRead::declarator_starless, c_grammar::proofs::DeclSteps::declarator_deep))]
pub fn read_declarator<'a>(
    alloc: Global,
    standing: Standing,
    depth: u32,
    probes: u32,
    input: &'a [Token],
) -> Result<(Declarator, u32, &'a [Token]), Stop>
    requires deep { depth ≤ 400 }
    requires few { probes ≤ 1600 }
    requires tokens { length input.now < 4294967296 }
    ensures found { IfOk result (λ p. Found (reads_declarator (standing_of standing) depth probes) declarator_height input.now (declarator_shape p.0) p.1 p.2.now) }
    ensures low { IfOk result (λ p. p.1 + depth ≤ 400) }
    ensures no_longer { IfOk result (λ p. length p.2.now ≤ length input.now) }
    ensures fails { IsErrOf result Stop.Syntax → Finds (reads_declarator (standing_of standing) depth probes) input.now None }
{
    if depth >= MOST_LEVELS {
        return Err(Stop::Syntax);
    }
    let (stars, behind) = read_stars(alloc, depth + 1, input)?;
    read_named_behind(alloc, standing, depth, probes, stars, behind)
}

// A declarator behind its stars.
#[cycle(reading)]
#[tactic(auto, using(crate::proofs::DeclRead::named_read, crate::proofs::DeclRead::named_broken, crate::proofs::DeclRead::named_unfit, crate::proofs::DeclRead::named_unread, crate::proofs::DeclRead::named_unended))]
fn read_named_behind<'a>(
    alloc: Global,
    standing: Standing,
    depth: u32,
    probes: u32,
    stars: Vec<Star>,
    input: &'a [Token],
) -> Result<(Declarator, u32, &'a [Token]), Stop>
    requires deep { depth < 400 }
    requires few { probes ≤ 1600 }
    requires tokens { length input.now < 4294967296 }
    requires stars { length stars.items + (depth + 1) ≤ 400 }
    ensures found { IfOk result (λ p. Found (named_behind (standing_of standing) depth probes stars.items) declarator_height input.now (declarator_shape p.0) p.1 p.2.now) }
    ensures low { IfOk result (λ p. p.1 + depth ≤ 400) }
    ensures no_longer { IfOk result (λ p. length p.2.now ≤ length input.now) }
    ensures fails { IsErrOf result Stop.Syntax → Finds (named_behind (standing_of standing) depth probes stars.items) input.now None }
{
    let (name, inside) = read_named(alloc, input)?;
    if !is_fit(standing, &name) {
        return Err(Stop::Syntax);
    }
    let (form, levels, behind) = read_form(alloc, standing, depth, probes, &stars, inside)?;
    read_ending(
        alloc, standing, depth, probes, stars, name, form, levels, behind,
    )
}

// What stands behind a declared name, with these stars in front of it. The levels are those of stars and brackets.
#[cycle(reading)]
#[tactic(auto, using(crate::proofs::DeclRead::function_read, crate::proofs::DeclRead::function_unread, c_grammar::proofs::DeclSteps::behind_no_function))]
fn read_form<'a>(
    alloc: Global,
    standing: Standing,
    depth: u32,
    probes: u32,
    stars: &[Star],
    input: &'a [Token],
) -> Result<(DeclForm, u32, &'a [Token]), Stop>
    requires deep { depth < 400 }
    requires few { probes ≤ 1600 }
    requires tokens { length input.now < 4294967296 }
    requires stars { length stars.now + (depth + 1) ≤ 400 }
    ensures found { IfOk result (λ p. Found (behind (standing_of standing) depth probes (length stars.now)) (behind_height stars.now) input.now (decl_form_shape p.0) p.1 p.2.now) }
    ensures low { IfOk result (λ p. p.1 + depth < 400) }
    ensures no_longer { IfOk result (λ p. length p.2.now ≤ length input.now) }
    ensures fails { IsErrOf result Stop.Syntax → Finds (behind (standing_of standing) depth probes (length stars.now)) input.now None }
{
    let Some(inside) = past(input, Mark::LeftParen) else {
        return read_arrays(alloc, standing, depth, probes, stars, input);
    };
    if !among_names(standing) {
        return Err(Stop::Syntax);
    }
    let (list, levels, rest) = read_parameters(alloc, depth + 1, probes, inside)?;
    Ok((new_function(list), higher(star_count(stars), levels), rest))
}

// The array lengths behind a declared name, with these stars in front of it; no parenthesis follows the name.
#[cycle(reading)]
#[tactic(auto, using(crate::proofs::DeclRead::arrays_read, crate::proofs::DeclRead::arrays_unread))]
fn read_arrays<'a>(
    alloc: Global,
    standing: Standing,
    depth: u32,
    probes: u32,
    stars: &[Star],
    input: &'a [Token],
) -> Result<(DeclForm, u32, &'a [Token]), Stop>
    requires deep { depth < 400 }
    requires few { probes ≤ 1600 }
    requires tokens { length input.now < 4294967296 }
    requires stars { length stars.now + (depth + 1) ≤ 400 }
    requires begins { after Mark.LeftParen input.now ≡ None }
    ensures found { IfOk result (λ p. Found (behind (standing_of standing) depth probes (length stars.now)) (behind_height stars.now) input.now (decl_form_shape p.0) p.1 p.2.now) }
    ensures low { IfOk result (λ p. p.1 + depth < 400) }
    ensures no_longer { IfOk result (λ p. length p.2.now ≤ length input.now) }
    ensures fails { IsErrOf result Stop.Syntax → Finds (behind (standing_of standing) depth probes (length stars.now)) input.now None }
{
    let count = star_count(stars);
    let free = is_free(standing);
    let (lengths, levels, rest) = read_lengths(alloc, free, count + depth + 1, probes, input)?;
    Ok((new_arrays(lengths), count + levels, rest))
}

// A declarator from its initialiser on, where it has one; `levels` are those of its stars and of what stands behind its
// name.
#[cycle(reading)]
#[tactic(auto, using(crate::proofs::DeclRead::ending_left_out, crate::proofs::DeclRead::ending_read, crate::proofs::DeclRead::ending_unread, c_grammar::proofs::DeclSteps::ending_no_init))]
fn read_ending<'a>(
    alloc: Global,
    standing: Standing,
    depth: u32,
    probes: u32,
    stars: Vec<Star>,
    name: Option<Named>,
    form: DeclForm,
    levels: u32,
    input: &'a [Token],
) -> Result<(Declarator, u32, &'a [Token]), Stop>
    requires deep { levels + depth < 400 }
    requires few { probes ≤ 1600 }
    requires tokens { length input.now < 4294967296 }
    requires measured { levels ≡ behind_height stars.items (decl_form_shape form) }
    ensures found { IfOk result (λ p. Found (ending (standing_of standing) depth probes stars.items name (decl_form_shape form)) declarator_height input.now (declarator_shape p.0) p.1 p.2.now) }
    ensures low { IfOk result (λ p. p.1 + depth ≤ 400) }
    ensures no_longer { IfOk result (λ p. length p.2.now ≤ length input.now) }
    ensures fails { IsErrOf result Stop.Syntax → Finds (ending (standing_of standing) depth probes stars.items name (decl_form_shape form)) input.now None }
{
    let Some(inside) = past(input, Mark::Equal) else {
        return Ok((bare_declarator(stars, name, form), levels + 1, input));
    };
    if !is_begun(standing, &form) {
        return Err(Stop::Syntax);
    }
    let (init, own, rest) = read_init(alloc, depth + 1, probes, inside)?;
    Ok((
        new_declarator(stars, name, form, init),
        higher(levels, own) + 1,
        rest,
    ))
}

// The parameters of a function and the closing parenthesis.
#[cycle(reading)]
#[tactic(auto, using(crate::proofs::DeclRead::empty_read, crate::proofs::DeclRead::void_read, crate::proofs::DeclRead::parameters_read, crate::proofs::DeclRead::parameters_unclosed, c_grammar::proofs::DeclSteps::params_list_fails))]
fn read_parameters<'a>(
    alloc: Global,
    depth: u32,
    probes: u32,
    input: &'a [Token],
) -> Result<(Params, u32, &'a [Token]), Stop>
    requires deep { depth ≤ 400 }
    requires few { probes ≤ 1600 }
    requires tokens { length input.now < 4294967296 }
    ensures found { IfOk result (λ p. Found (reads_parameters depth probes) params_height input.now (params_shape p.0) p.1 p.2.now) }
    ensures low { IfOk result (λ p. p.1 + depth ≤ 400) }
    ensures no_longer { IfOk result (λ p. length p.2.now ≤ length input.now) }
    ensures fails { IsErrOf result Stop.Syntax → Finds (reads_parameters depth probes) input.now None }
{
    if let Some(rest) = past(input, Mark::RightParen) {
        return Ok((Params::Empty, 0, rest));
    }
    if let Some(rest) = past_void(input) {
        return Ok((Params::Void, 0, rest));
    }
    let (list, levels, behind) = read_params(alloc, depth, probes, input)?;
    match past(behind, Mark::RightParen) {
        Some(rest) => Ok((new_params(list), levels, rest)),
        None => Err(Stop::Syntax),
    }
}

// Parameters with a comma between two of them.
#[cycle(reading)]
#[tactic(auto, using(crate::proofs::DeclRead::params_first, crate::proofs::DeclRead::params_first_measured, crate::proofs::DeclRead::params_further, crate::proofs::DeclRead::params_measured, crate::proofs::DeclRead::params_read, c_grammar::proofs::DeclSteps::param_list_fails, c_grammar::proofs::ListSteps::params_failed))]
fn read_params<'a>(
    alloc: Global,
    depth: u32,
    probes: u32,
    input: &'a [Token],
) -> Result<(Vec<Param>, u32, &'a [Token]), Stop>
    requires deep { depth ≤ 400 }
    requires few { probes ≤ 1600 }
    requires tokens { length input.now < 4294967296 }
    ensures found { IfOk result (λ p. Found (params_of depth probes) decls_height input.now (param_list p.0.items) p.1 p.2.now) }
    ensures low { IfOk result (λ p. p.1 + depth ≤ 400) }
    ensures no_longer { IfOk result (λ p. length p.2.now ≤ length input.now) }
    ensures fails { IsErrOf result Stop.Syntax → Finds (params_of depth probes) input.now None }
{
    let mut list = Vec::new(alloc);
    let (first, first_levels, behind) = read_param(alloc, depth, probes, input)?;
    put(&mut list, first)?;
    let mut levels = first_levels;
    let mut rest = behind;
    while let Some(inside) = past(rest, Mark::Comma) {
        let (param, own, further) = read_param(alloc, depth, probes, inside)?;
        put(&mut list, param)?;
        levels = higher(levels, own);
        rest = further;
    }
    Ok((list, levels, rest))
}

// A parameter.
#[cycle(reading)]
#[tactic(auto, using(crate::proofs::DeclRead::param_read, crate::proofs::DeclRead::param_unread, c_grammar::proofs::DeclSteps::param_fails))]
fn read_param<'a>(
    alloc: Global,
    depth: u32,
    probes: u32,
    input: &'a [Token],
) -> Result<(Param, u32, &'a [Token]), Stop>
    requires deep { depth ≤ 400 }
    requires few { probes ≤ 1600 }
    requires tokens { length input.now < 4294967296 }
    ensures found { IfOk result (λ p. Found (reads_param depth probes) decl_height input.now (param_shape p.0) p.1 p.2.now) }
    ensures low { IfOk result (λ p. p.1 + depth ≤ 400) }
    ensures no_longer { IfOk result (λ p. length p.2.now ≤ length input.now) }
    ensures fails { IsErrOf result Stop.Syntax → Finds (reads_param depth probes) input.now None }
{
    let (specs, levels, behind) = read_specifiers(alloc, depth, probes, input)?;
    let (name, own, rest) = read_declarator(alloc, Standing::Params, depth, probes, behind)?;
    let param = new_param(first_place(input), specs, name);
    Ok((param, higher(levels, own), rest))
}

/// A declaration from what stands behind its first declarator on, up to its semicolon. It begins at `pos`; `levels` are
/// those of its specifiers and its first declarator.
pub fn read_declaring<'a>(
    alloc: Global,
    standing: Standing,
    depth: u32,
    probes: u32,
    pos: Pos,
    specs: Vec<Spec>,
    first: Declarator,
    levels: u32,
    input: &'a [Token],
) -> Result<(Decl, u32, &'a [Token]), Stop>
    requires deep { depth ≤ 400 }
    requires few { probes ≤ 1600 }
    requires tokens { length input.now < 4294967296 }
    requires low { levels + depth ≤ 400 }
    requires measured { levels ≡ max (specs_height (spec_list specs.items)) (declarator_height (declarator_shape first)) }
    ensures found { IfOk result (λ p. Found (declaring (standing_of standing) depth probes pos (spec_list specs.items) (declarator_shape first)) decl_height input.now (decl_shape p.0) p.1 p.2.now) }
    ensures low { IfOk result (λ p. p.1 + depth ≤ 400) }
    ensures no_longer { IfOk result (λ p. length p.2.now ≤ length input.now) }
    ensures fails { IsErrOf result Stop.Syntax → Finds (declaring (standing_of standing) depth probes pos (spec_list specs.items) (declarator_shape first)) input.now None }
{
    read_names(
        alloc, standing, depth, probes, pos, specs, first, levels, input,
    )
}

// The same, which reads the semicolon at least.
#[cycle(reading)]
#[tactic(auto, using(crate::proofs::DeclRead::declaring_read, crate::proofs::DeclRead::declaring_unclosed, c_grammar::proofs::DeclSteps::declaring_fails))]
fn read_names<'a>(
    alloc: Global,
    standing: Standing,
    depth: u32,
    probes: u32,
    pos: Pos,
    specs: Vec<Spec>,
    first: Declarator,
    levels: u32,
    input: &'a [Token],
) -> Result<(Decl, u32, &'a [Token]), Stop>
    requires deep { depth ≤ 400 }
    requires few { probes ≤ 1600 }
    requires tokens { length input.now < 4294967296 }
    requires low { levels + depth ≤ 400 }
    requires measured { levels ≡ max (specs_height (spec_list specs.items)) (declarator_height (declarator_shape first)) }
    ensures found { IfOk result (λ p. Found (declaring (standing_of standing) depth probes pos (spec_list specs.items) (declarator_shape first)) decl_height input.now (decl_shape p.0) p.1 p.2.now) }
    ensures low { IfOk result (λ p. p.1 + depth ≤ 400) }
    ensures shorter { IfOk result (λ p. length p.2.now < length input.now) }
    ensures fails { IsErrOf result Stop.Syntax → Finds (declaring (standing_of standing) depth probes pos (spec_list specs.items) (declarator_shape first)) input.now None }
{
    let mut before = Vec::new(alloc);
    put(&mut before, first)?;
    let (names, own, behind) = read_further(alloc, standing, depth, probes, before, input)?;
    match past(behind, Mark::Semicolon) {
        Some(rest) => Ok((new_decl(pos, specs, names), higher(levels, own), rest)),
        None => Err(Stop::Syntax),
    }
}

// Declarators with a comma in front of each, behind those of `before`; the levels are those of the further ones.
#[cycle(reading)]
#[tactic(auto, using(crate::proofs::DeclRead::further_none, crate::proofs::DeclRead::further_on, crate::proofs::DeclRead::further_read, crate::proofs::DeclRead::further_unread))]
fn read_further<'a>(
    alloc: Global,
    standing: Standing,
    depth: u32,
    probes: u32,
    before: Vec<Declarator>,
    input: &'a [Token],
) -> Result<(Vec<Declarator>, u32, &'a [Token]), Stop>
    requires deep { depth ≤ 400 }
    requires few { probes ≤ 1600 }
    requires tokens { length input.now < 4294967296 }
    ensures found { IfOk result (λ p. FurtherFound (standing_of standing) depth probes before.items p.0.items input.now p.1 p.2.now) }
    ensures low { IfOk result (λ p. p.1 + depth ≤ 400) }
    ensures no_longer { IfOk result (λ p. length p.2.now ≤ length input.now) }
    ensures fails { IsErrOf result Stop.Syntax → Finds (reads_declarators (standing_of standing) depth probes) input.now None }
{
    let mut list = before;
    let mut levels = 0;
    let mut rest = input;
    while let Some(inside) = past(rest, Mark::Comma) {
        let (item, own, behind) = read_declarator(alloc, standing, depth, probes, inside)?;
        put(&mut list, item)?;
        levels = higher(levels, own);
        rest = behind;
    }
    Ok((list, levels, rest))
}

// A declaration, or a line of a member list.
#[cycle(reading)]
#[tactic(auto, using(crate::proofs::DeclRead::bare_decl_read, crate::proofs::DeclRead::decl_nameless, crate::proofs::DeclRead::decl_read, crate::proofs::DeclRead::decl_unread, crate::proofs::DeclRead::decl_unended, crate::proofs::DeclRead::declaring_measured, c_grammar::proofs::DeclSteps::decl_fails))]
fn read_decl<'a>(
    alloc: Global,
    standing: Standing,
    depth: u32,
    probes: u32,
    input: &'a [Token],
) -> Result<(Decl, u32, &'a [Token]), Stop>
    requires deep { depth ≤ 400 }
    requires few { probes ≤ 1600 }
    requires tokens { length input.now < 4294967296 }
    ensures found { IfOk result (λ p. Found (reads_decl (standing_of standing) depth probes) decl_height input.now (decl_shape p.0) p.1 p.2.now) }
    ensures low { IfOk result (λ p. p.1 + depth ≤ 400) }
    ensures shorter { IfOk result (λ p. length p.2.now < length input.now) }
    ensures fails { IsErrOf result Stop.Syntax → Finds (reads_decl (standing_of standing) depth probes) input.now None }
{
    let pos = first_place(input);
    let (specs, levels, behind) = read_specs(alloc, depth, probes, input)?;
    if let Some(rest) = past(behind, Mark::Semicolon) {
        if among_names(standing) {
            return Ok((bare_decl(alloc, pos, specs), levels, rest));
        }
        return Err(Stop::Syntax);
    }
    let (first, own, inside) = read_declarator(alloc, standing, depth, probes, behind)?;
    let all = higher(levels, own);
    read_names(
        alloc, standing, depth, probes, pos, specs, first, all, inside,
    )
}

/// Declarations, or the lines of a member list, their levels, and what follows them.
#[cycle(reading)]
#[tactic(auto, using(c_grammar::proofs::ListSteps::decls_start, crate::proofs::DeclRead::decls_further, crate::proofs::DeclRead::decls_measured, crate::proofs::DeclRead::decls_read, c_grammar::proofs::ListSteps::decls_failed))]
pub fn read_decls<'a>(
    alloc: Global,
    standing: Standing,
    depth: u32,
    probes: u32,
    input: &'a [Token],
) -> Result<(Vec<Decl>, u32, &'a [Token]), Stop>
    requires deep { depth ≤ 400 }
    requires few { probes ≤ 1600 }
    requires tokens { length input.now < 4294967296 }
    ensures found { IfOk result (λ p. Found (reads_decls (standing_of standing) depth probes) decls_height input.now (decl_list p.0.items) p.1 p.2.now) }
    ensures low { IfOk result (λ p. p.1 + depth ≤ 400) }
    ensures no_longer { IfOk result (λ p. length p.2.now ≤ length input.now) }
    ensures fails { IsErrOf result Stop.Syntax → Finds (reads_decls (standing_of standing) depth probes) input.now None }
{
    let mut list = Vec::new(alloc);
    let mut levels = 0;
    let mut rest = input;
    while at_spec(rest) {
        let (item, own, behind) = read_decl(alloc, standing, depth, probes, rest)?;
        put(&mut list, item)?;
        levels = higher(levels, own);
        rest = behind;
    }
    Ok((list, levels, rest))
}
