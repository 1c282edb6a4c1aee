//! Units, read from tokens (C89, 3.7).

ghost use Rattle.std.specs.Prelude.{◌≡◌, ◌&&◌, ◌+◌, ◌<◌, ◌≤◌, max, length, Some, None, IfOk, IfErr, IsErrOf};
ghost use Rattle.c_syntax.specs.Forms.{place, last_place};
ghost use Rattle.c_syntax.specs.Grammar.{Placed};
ghost use Rattle.c_syntax.specs.Shape.{UnitShape, decl, no_declarators};
ghost use Rattle.c_syntax.specs.Shaped.{ShapedUnit};
ghost use Rattle.c_syntax.specs.Levels.{specs_height, declarator_height};
ghost use Rattle.c_syntax.specs.View.{spec_list, decl_shape, declarator_shape, external_shape, unit_shape};
ghost use Rattle.c_grammar.specs.Look.{Finds};
ghost use Rattle.c_grammar_stmt.specs.StmtReader.{reads_line, reads_external, is_function, body_ahead};
ghost use Rattle.c_grammar_stmt.specs.StmtParts.{external_parts, external_rest, function_parts};
ghost use Rattle.c_parse.specs.Refused.{ExternalsRead, BrokenBy, Refused};

use crate::refusal::ParseRefusal;
use c_base::place::Pos;
use c_grammar::look::{Standing, Stop, find_string, first_place, past, past_probe};
use c_grammar::nodes::{boxed, copied, put};
use c_grammar::size::higher;
use c_parse_expr::decl::{read_declarator, read_declaring};
use c_parse_expr::spec::read_specifiers;
use c_parse_stmt::forms::read_marks;
use c_parse_stmt::stmt::read_compound;
use c_syntax::token::{Mark, ProbeWord, Token};
use c_syntax::tree::{Decl, DeclForm, Declarator, External, ProgramLine, Spec, Unit};
use std::alloc::Global;

// The program line at the front, where there is one, and what follows it.
#[tactic(auto, using(c_grammar_stmt::proofs::StmtSteps::line_none, c_grammar_stmt::proofs::StmtSteps::line_found, c_grammar_stmt::proofs::StmtSteps::line_bare, c_grammar_stmt::proofs::StmtSteps::line_stringless, c_grammar_stmt::proofs::StmtSteps::line_open, c_grammar_stmt::proofs::StmtSteps::line_unended))]
fn read_line<'a>(
    alloc: Global,
    input: &'a [Token],
) -> Result<(Option<ProgramLine>, &'a [Token]), Stop>
    ensures found { IfOk result (λ p. reads_line input.now ≡ Some (p.0, p.1.now)) }
    ensures no_longer { IfOk result (λ p. length p.1.now ≤ length input.now) }
    ensures fails { IsErrOf result Stop.Syntax → reads_line input.now ≡ None }
{
    let Some(behind) = past_probe(input, ProbeWord::Program) else {
        return Ok((None, input));
    };
    let Some(inside) = past(behind, Mark::LeftParen) else {
        return Err(Stop::Syntax);
    };
    let Some((digest, behind)) = find_string(inside) else {
        return Err(Stop::Syntax);
    };
    let Some(last) = past(behind, Mark::RightParen) else {
        return Err(Stop::Syntax);
    };
    let Some(rest) = past(last, Mark::Semicolon) else {
        return Err(Stop::Syntax);
    };
    let digest = copied(alloc, digest)?;
    let line = ProgramLine {
        pos: first_place(input),
        digest,
    };
    Ok((Some(line), rest))
}

// The declarator declares a function.
fn declares_function(name: &Declarator) -> bool
    ensures { result ≡ is_function (declarator_shape name.now) }
{
    match &name.form {
        DeclForm::Function(_) => true,
        DeclForm::Arrays(_) => false,
    }
}

// A function's body stands at the front, or a block probe before it.
fn at_body(input: &[Token]) -> bool
    ensures { result ≡ body_ahead input.now }
{
    past(input, Mark::LeftBrace).is_some() || past_probe(input, ProbeWord::Block).is_some()
}

// What stands behind this declarator makes it a function with a body.
fn begins_function(name: &Declarator, input: &[Token]) -> bool
    ensures { result ≡ (is_function (declarator_shape name.now) && body_ahead input.now) }
{
    declares_function(name) && at_body(input)
}

// A declaration that declares no name.
#[tactic(auto, using(crate::proofs::UnitRead::nameless_made))]
fn nameless(alloc: Global, pos: Pos, specs: Vec<Spec>) -> Decl
    ensures { decl_shape result ≡ decl pos (spec_list specs.items) no_declarators }
{
    Decl {
        pos,
        specs,
        names: Vec::new(alloc),
    }
}

// A function's body with the block probes before it.
#[tactic(auto, using(crate::proofs::UnitRead::function_read, c_grammar_stmt::proofs::StmtSteps::function_bare, c_grammar_stmt::proofs::StmtSteps::function_fails))]
fn read_function<'a>(
    alloc: Global,
    specs: Vec<Spec>,
    name: Box<Declarator>,
    input: &'a [Token],
) -> Result<(External, &'a [Token]), Stop>
    requires tokens { length input.now < 4294967296 }
    ensures found { IfOk result (λ p. Finds (function_parts (spec_list specs.items) (declarator_shape name.value)) input.now (Some (external_shape p.0, p.1.now))) }
    ensures no_longer { IfOk result (λ p. length p.1.now ≤ length input.now) }
    ensures fails { IsErrOf result Stop.Syntax → Finds (function_parts (spec_list specs.items) (declarator_shape name.value)) input.now None }
{
    let (marks, last) = read_marks(alloc, input)?;
    let Some(inside) = past(last, Mark::LeftBrace) else {
        return Err(Stop::Syntax);
    };
    let (body, _levels, rest) = read_compound(alloc, 1, first_place(last), inside)?;
    let name = Box::into_inner(name);
    Ok((External::Function(specs, name, marks, body), rest))
}

// An external declaration behind its first declarator; `levels` are those of what stands in front.
#[tactic(auto, using(c_grammar_stmt::proofs::StmtSteps::external_defined, crate::proofs::UnitRead::declared_read, c_grammar_stmt::proofs::StmtSteps::external_undeclared))]
fn read_behind<'a>(
    alloc: Global,
    pos: Pos,
    specs: Vec<Spec>,
    name: Declarator,
    levels: u32,
    input: &'a [Token],
) -> Result<(External, &'a [Token]), Stop>
    requires tokens { length input.now < 4294967296 }
    requires low { levels < 400 }
    requires measured { levels ≡ max (specs_height (spec_list specs.items)) (declarator_height (declarator_shape name)) }
    ensures found { IfOk result (λ p. Finds (external_rest pos (spec_list specs.items) (declarator_shape name)) input.now (Some (external_shape p.0, p.1.now))) }
    ensures no_longer { IfOk result (λ p. length p.1.now ≤ length input.now) }
    ensures fails { IsErrOf result Stop.Syntax → Finds (external_rest pos (spec_list specs.items) (declarator_shape name)) input.now None }
{
    if begins_function(&name, input) {
        return read_function(alloc, specs, boxed(alloc, name)?, input);
    }
    let (decl, _levels, rest) = read_declaring(
        alloc,
        Standing::Names,
        1,
        0,
        pos,
        specs,
        name,
        levels,
        input,
    )?;
    Ok((External::Plain(decl), rest))
}

// An external declaration behind its specifiers, whose levels are `levels`.
#[tactic(auto, using(crate::proofs::UnitRead::plain_read, crate::proofs::UnitRead::named_read, crate::proofs::UnitRead::named_unread, c_grammar_stmt::proofs::StmtSteps::external_nameless))]
fn read_names<'a>(
    alloc: Global,
    pos: Pos,
    specs: Vec<Spec>,
    levels: u32,
    input: &'a [Token],
) -> Result<(External, &'a [Token]), Stop>
    requires tokens { length input.now < 4294967296 }
    requires low { levels < 400 }
    requires measured { levels ≡ specs_height (spec_list specs.items) }
    ensures found { IfOk result (λ p. Finds (external_parts pos (spec_list specs.items)) input.now (Some (external_shape p.0, p.1.now))) }
    ensures no_longer { IfOk result (λ p. length p.1.now ≤ length input.now) }
    ensures fails { IsErrOf result Stop.Syntax → Finds (external_parts pos (spec_list specs.items)) input.now None }
{
    if let Some(rest) = past(input, Mark::Semicolon) {
        return Ok((External::Plain(nameless(alloc, pos, specs)), rest));
    }
    let (name, name_levels, behind) = read_declarator(alloc, Standing::Names, 1, 0, input)?;
    read_behind(alloc, pos, specs, name, higher(levels, name_levels), behind)
}

// One external declaration, and what follows it.
#[tactic(auto, using(crate::proofs::UnitRead::external_read, crate::proofs::UnitRead::external_unread, c_grammar_stmt::proofs::StmtSteps::external_fails, crate::proofs::UnitRead::external_shorter))]
fn read_external<'a>(alloc: Global, input: &'a [Token]) -> Result<(External, &'a [Token]), Stop>
    requires tokens { length input.now < 4294967296 }
    ensures found { IfOk result (λ p. Finds reads_external input.now (Some (external_shape p.0, p.1.now))) }
    ensures shorter { IfOk result (λ p. length p.1.now < length input.now) }
    ensures fails { IsErrOf result Stop.Syntax → Finds reads_external input.now None }
{
    let (specs, levels, behind) = read_specifiers(alloc, 1, 0, input)?;
    read_names(alloc, first_place(input), specs, levels, behind)
}

// External declarations up to the end of the tokens. The error has the place of the first that can't be read.
#[tactic(auto, using(crate::proofs::UnitRead::externals_started, crate::proofs::UnitRead::externals_further, crate::proofs::UnitRead::externals_ended, crate::proofs::UnitRead::externals_broken))]
fn read_externals(alloc: Global, input: &[Token]) -> Result<Vec<External>, ParseRefusal>
    requires tokens { length input.now < 4294967296 }
    ensures found { IfOk result (λ l. ExternalsRead l.items input.now) }
    ensures fails { IfErr result (λ e. BrokenBy e input.now) }
{
    let mut list = Vec::new(alloc);
    let mut rest = input;
    while !rest.is_empty() {
        match read_external(alloc, rest) {
            Ok((external, behind)) => {
                if put(&mut list, external).is_err() {
                    return Err(ParseRefusal::NoMemory);
                }
                rest = behind;
            }
            Err(Stop::Syntax) => return Err(ParseRefusal::Syntax(first_place(rest))),
            Err(Stop::NoMemory) => return Err(ParseRefusal::NoMemory),
        }
    }
    Ok(list)
}

// The place of the last token; 1:1 where there is none.
#[tactic(auto, using(crate::proofs::UnitRead::last_of))]
fn place_of_last(input: &[Token]) -> Pos
    ensures { result ≡ last_place input.now }
{
    match input.split_last() {
        Some((token, _)) => token.pos,
        None => Pos { line: 1, col: 1 },
    }
}

/// The one unit that these tokens are (C89, 3.7, in the subset of docs/LANGUAGE.md), each part with the place of its
/// token. `Syntax` comes exactly where they are no unit of at most 400 levels. Its place is that of the first external
/// declaration that can't be read, of the first token where the program line can't be read or no declaration follows,
/// and 1:1 where there is no token.
#[tactic(auto, using(crate::proofs::UnitRead::unit_is_shaped, crate::proofs::UnitRead::unit_is_placed, crate::proofs::UnitRead::unit_is_only, crate::proofs::UnitRead::lineless, crate::proofs::UnitRead::bare, crate::proofs::UnitRead::broken))]
pub fn parse(alloc: Global, tokens: &[Token]) -> Result<Unit, ParseRefusal>
    requires { length tokens.now ≤ 350000 }
    ensures shaped { IfOk result (λ u. ShapedUnit (unit_shape u)) }
    ensures placed { IfOk result (λ u. Placed (unit_shape u) tokens.now) }
    ensures only { IfOk result (λ u. (v : UnitShape) → ShapedUnit v → Placed v tokens.now → v ≡ unit_shape u) }
    ensures refused { IfErr result (λ e. Refused e tokens.now) }
{
    let (line, begun) = match read_line(alloc, tokens) {
        Ok(read) => read,
        Err(Stop::Syntax) => return Err(ParseRefusal::Syntax(first_place(tokens))),
        Err(Stop::NoMemory) => return Err(ParseRefusal::NoMemory),
    };
    if begun.is_empty() {
        return Err(ParseRefusal::Syntax(first_place(tokens)));
    }
    let externals = read_externals(alloc, begun)?;
    Ok(Unit {
        pos: first_place(tokens),
        line,
        externals,
        last: place_of_last(tokens),
    })
}
