//! What statements are built of, and the parts of them that hold no statement.

ghost use Rattle.std.specs.Prelude.{◌≡◌, ◌+◌, ◌<◌, ◌≤◌, length, map, Some, None, IfOk, IfSome, IsErrOf, MatchOption};
ghost use Rattle.c_syntax.specs.Shape.{case, switch, when, either, while, do_while, for, braces};
ghost use Rattle.c_syntax.specs.View.{node_shape, maybe_node, decl_list, label_shape, form_shape, stmt_shape, compound_shape, item_list};
ghost use Rattle.c_syntax.specs.Levels.{height, maybe_height, case_height, labels_height, form_height};
ghost use Rattle.c_grammar.specs.Look.{Finds, got};
ghost use Rattle.c_grammar.specs.Found.{Found};
ghost use Rattle.c_grammar_stmt.specs.StmtReader.{mark_ahead, reads_marks, reads_labels, reads_form};
ghost use Rattle.c_grammar_stmt.specs.StmtParts.{parens, optional, for_parts, label_there, one_label};
ghost use Rattle.c_grammar_stmt.specs.StmtFound.{brace_there, maybe_inner, NoNest, HeadFound};

use c_base::place::Pos;
use c_grammar::look::{Stop, find_numbered, first_place, past, past_key, past_probe};
use c_grammar::nodes::{copied, put};
use c_grammar::size::higher;
use c_parse_expr::expr::read_node;
use c_syntax::text::Text;
use c_syntax::token::{Key, Mark, ProbeWord, Token};
use c_syntax::tree::{Compound, Decl, Item, Label, Node, ProbeMark, Stmt, StmtForm};
use std::alloc::Global;

// BUILDING

// An expression that may be left out, out of its box.
fn unboxed(node: Option<Box<Node>>) -> Option<Node>
    ensures { maybe_node result ≡ maybe_inner node }
{
    match node {
        Some(inner) => Some(Box::into_inner(inner)),
        None => None,
    }
}

/// An `if` with no `else`.
#[tactic(auto, using(c_syntax::proofs::Open::if_open))]
pub fn when_form(test: Box<Node>, body: Box<Stmt>) -> StmtForm
    ensures { form_shape result ≡ when (node_shape test.value) (stmt_shape body.value) }
{
    StmtForm::If(Box::into_inner(test), body, None)
}

/// An `if` with its `else`.
pub fn either_form(test: Box<Node>, body: Box<Stmt>, last: Box<Stmt>) -> StmtForm
    ensures { form_shape result ≡ either (node_shape test.value) (stmt_shape body.value) (stmt_shape last.value) }
{
    StmtForm::If(Box::into_inner(test), body, Some(last))
}

/// A `while`.
pub fn while_form(test: Box<Node>, body: Box<Stmt>) -> StmtForm
    ensures { form_shape result ≡ while (node_shape test.value) (stmt_shape body.value) }
{
    StmtForm::While(Box::into_inner(test), body)
}

/// A `do`.
pub fn do_form(body: Box<Stmt>, test: Box<Node>) -> StmtForm
    ensures { form_shape result ≡ do_while (stmt_shape body.value) (node_shape test.value) }
{
    StmtForm::Do(body, Box::into_inner(test))
}

/// The three expressions in the parentheses of a `for`, each of which may be left out.
#[derive(Drop)]
pub struct ForHead {
    pub first: Option<Box<Node>>,
    pub test: Option<Box<Node>>,
    pub step: Option<Box<Node>>,
}

/// A `for`.
pub fn for_form(head: ForHead, body: Box<Stmt>) -> StmtForm
    ensures { form_shape result ≡ for (maybe_inner head.first) (maybe_inner head.test) (maybe_inner head.step) (stmt_shape body.value) }
{
    let ForHead { first, test, step } = head;
    StmtForm::For(unboxed(first), unboxed(test), unboxed(step), body)
}

/// A `switch`.
pub fn switch_form(test: Box<Node>, items: Vec<Item>) -> StmtForm
    ensures { form_shape result ≡ switch (node_shape test.value) (item_list items.items) }
{
    StmtForm::Switch(Box::into_inner(test), items)
}

fn case_label(pos: Pos, value: Box<Node>) -> Label
    ensures { label_shape result ≡ case pos (node_shape value.value) }
{
    Label::Case(pos, Box::into_inner(value))
}

/// A compound, whose brace stands at `pos`.
#[tactic(auto, using(c_syntax::proofs::Made::compound_made))]
pub fn compound_at(pos: Pos, decls: Vec<Decl>, items: Vec<Item>) -> Compound
    ensures { compound_shape result ≡ braces pos (decl_list decls.items) (item_list items.items) }
{
    Compound { pos, decls, items }
}

// LOOKING

/// A closing brace stands at the front.
pub fn at_brace(input: &[Token]) -> bool
    ensures { result ≡ brace_there input.now }
{
    past(input, Mark::RightBrace).is_some()
}

// A label begins at the front.
fn at_label(input: &[Token]) -> bool
    ensures { result ≡ label_there input.now }
{
    past_key(input, Key::Case).is_some() || past_key(input, Key::Default).is_some()
}

// The number of a block probe at the front, and what follows the probe.
#[tactic(auto, using(c_grammar_stmt::proofs::FormSteps::mark_found, c_grammar_stmt::proofs::FormSteps::mark_none, c_grammar_stmt::proofs::FormSteps::mark_numberless, c_grammar_stmt::proofs::FormSteps::mark_open, c_grammar_stmt::proofs::FormSteps::mark_no_colon))]
fn find_mark(input: &[Token]) -> Option<(&Text, &[Token])>
    ensures found { MatchOption result (mark_ahead input.now ≡ None) (λ p. mark_ahead input.now ≡ got p.0.now p.1.now) }
    ensures shorter { IfSome result (λ p. length p.1.now < length input.now) }
{
    let behind = past_probe(input, ProbeWord::Block)?;
    let (number, behind) = find_numbered(behind)?;
    let behind = past(behind, Mark::RightParen)?;
    let rest = past(behind, Mark::Colon)?;
    Some((number, rest))
}

// READING

/// The block probes at the front, and what follows them.
#[tactic(auto, using(c_grammar_stmt::proofs::FormSteps::marks_start, c_grammar_stmt::proofs::FormSteps::marks_more, c_grammar_stmt::proofs::FormSteps::marks_done))]
pub fn read_marks<'a>(
    alloc: Global,
    input: &'a [Token],
) -> Result<(Vec<ProbeMark>, &'a [Token]), Stop>
    ensures found { IfOk result (λ p. Finds reads_marks input.now (Some (p.0.items, p.1.now))) }
    ensures no_longer { IfOk result (λ p. length p.1.now ≤ length input.now) }
    ensures fails { IsErrOf result Stop.Syntax → ⊥ }
{
    let mut marks = Vec::new(alloc);
    let mut rest = input;
    while let Some((number, behind)) = find_mark(rest) {
        let pos = first_place(rest);
        let number = copied(alloc, number)?;
        put(&mut marks, ProbeMark { pos, number })?;
        rest = behind;
    }
    Ok((marks, rest))
}

/// An expression in parentheses, its levels, and what follows it. There are `depth` levels above it.
#[tactic(auto, using(c_grammar_stmt::proofs::StmtRead::parens_read, c_grammar_stmt::proofs::StmtRead::parens_unclosed, c_grammar_stmt::proofs::FormSteps::parens_bare, c_grammar_stmt::proofs::FormSteps::parens_fail))]
pub fn read_parens<'a>(
    alloc: Global,
    depth: u32,
    input: &'a [Token],
) -> Result<(Box<Node>, u32, &'a [Token]), Stop>
    requires deep { depth ≤ 400 }
    requires tokens { length input.now < 4294967296 }
    ensures found { IfOk result (λ p. Found (parens depth) height input.now (node_shape p.0.value) p.1 p.2.now) }
    ensures low { IfOk result (λ p. p.1 + depth ≤ 400) }
    ensures shorter { IfOk result (λ p. length p.2.now < length input.now) }
    ensures fails { IsErrOf result Stop.Syntax → Finds (parens depth) input.now None }
{
    let Some(inside) = past(input, Mark::LeftParen) else {
        return Err(Stop::Syntax);
    };
    let (inner, size, behind) = read_node(alloc, 0, depth, 0, inside)?;
    match past(behind, Mark::RightParen) {
        Some(rest) => Ok((inner, size.levels, rest)),
        None => Err(Stop::Syntax),
    }
}

/// An expression, or none, before this mark; its levels, and what follows the mark. There are `depth` levels above it.
#[tactic(auto, using(c_grammar_stmt::proofs::StmtRead::optional_left, c_grammar_stmt::proofs::StmtRead::optional_read, c_grammar_stmt::proofs::StmtRead::optional_unclosed, c_grammar_stmt::proofs::FormSteps::optional_fails))]
pub fn read_optional<'a>(
    alloc: Global,
    mark: Mark,
    depth: u32,
    input: &'a [Token],
) -> Result<(Option<Box<Node>>, u32, &'a [Token]), Stop>
    requires deep { depth ≤ 400 }
    requires tokens { length input.now < 4294967296 }
    ensures found { IfOk result (λ p. Found (optional mark depth) maybe_height input.now (maybe_inner p.0) p.1 p.2.now) }
    ensures low { IfOk result (λ p. p.1 + depth ≤ 400) }
    ensures shorter { IfOk result (λ p. length p.2.now < length input.now) }
    ensures fails { IsErrOf result Stop.Syntax → Finds (optional mark depth) input.now None }
{
    if let Some(rest) = past(input, mark) {
        return Ok((None, 0, rest));
    }
    let (node, size, behind) = read_node(alloc, 0, depth, 0, input)?;
    match past(behind, mark) {
        Some(rest) => Ok((Some(node), size.levels, rest)),
        None => Err(Stop::Syntax),
    }
}

/// What stands in the parentheses of a `for`, and the closing parenthesis; its levels, and what follows it. There are
/// `depth` levels above the `for`.
#[tactic(auto, using(c_grammar_stmt::proofs::FormSteps::for_bare, c_grammar_stmt::proofs::StmtRead::head_first))]
pub fn read_head<'a>(
    alloc: Global,
    depth: u32,
    input: &'a [Token],
) -> Result<(ForHead, u32, &'a [Token]), Stop>
    requires deep { depth < 400 }
    requires tokens { length input.now < 4294967296 }
    ensures found { IfOk result (λ p. HeadFound depth input.now (maybe_inner p.0.first) (maybe_inner p.0.test) (maybe_inner p.0.step) p.1 p.2.now) }
    ensures low { IfOk result (λ p. p.1 + depth < 400) }
    ensures shorter { IfOk result (λ p. length p.2.now < length input.now) }
    ensures fails { IsErrOf result Stop.Syntax → Finds (for_parts depth) input.now None }
{
    let Some(inside) = past(input, Mark::LeftParen) else {
        return Err(Stop::Syntax);
    };
    let below = depth + 1;
    let (first, first_levels, behind) = read_optional(alloc, Mark::Semicolon, below, inside)?;
    let (test, test_levels, last) = read_optional(alloc, Mark::Semicolon, below, behind)?;
    let (step, step_levels, rest) = read_optional(alloc, Mark::RightParen, below, last)?;
    let levels = higher(first_levels, higher(test_levels, step_levels));
    Ok((ForHead { first, test, step }, levels, rest))
}

// A label, its levels, and what follows it. There are `depth` levels above its item.
#[tactic(auto, using(c_grammar_stmt::proofs::StmtRead::default_read, c_grammar_stmt::proofs::StmtRead::case_unread, c_grammar_stmt::proofs::StmtLabels::one_default_open, c_grammar_stmt::proofs::StmtLabels::one_none))]
fn read_label<'a>(
    alloc: Global,
    depth: u32,
    input: &'a [Token],
) -> Result<(Label, u32, &'a [Token]), Stop>
    requires deep { depth < 400 }
    requires tokens { length input.now < 4294967296 }
    ensures found { IfOk result (λ p. Found (one_label depth) case_height input.now (label_shape p.0) p.1 p.2.now) }
    ensures low { IfOk result (λ p. p.1 + depth < 400) }
    ensures shorter { IfOk result (λ p. length p.2.now < length input.now) }
    ensures fails { IsErrOf result Stop.Syntax → Finds (one_label depth) input.now None }
{
    let pos = first_place(input);
    if let Some(behind) = past_key(input, Key::Case) {
        let (value, size, last) = read_node(alloc, 2, depth + 1, 0, behind)?;
        return match past(last, Mark::Colon) {
            Some(rest) => Ok((case_label(pos, value), size.levels, rest)),
            None => Err(Stop::Syntax),
        };
    }
    let Some(behind) = past_key(input, Key::Default) else {
        return Err(Stop::Syntax);
    };
    match past(behind, Mark::Colon) {
        Some(rest) => Ok((Label::Default(pos), 0, rest)),
        None => Err(Stop::Syntax),
    }
}

/// The labels at the front, their levels, and what follows them. There are `depth` levels above their item.
#[tactic(auto, using(c_grammar_stmt::proofs::StmtSteps::label_list_start))]
pub fn read_labels<'a>(
    alloc: Global,
    depth: u32,
    input: &'a [Token],
) -> Result<(Vec<Label>, u32, &'a [Token]), Stop>
    requires deep { depth < 400 }
    requires tokens { length input.now < 4294967296 }
    ensures found { IfOk result (λ p. Found (reads_labels depth) labels_height input.now (map label_shape p.0.items) p.1 p.2.now) }
    ensures low { IfOk result (λ p. p.1 + depth < 400) }
    ensures no_longer { IfOk result (λ p. length p.2.now ≤ length input.now) }
    ensures fails { IsErrOf result Stop.Syntax → Finds (reads_labels depth) input.now None }
{
    let mut labels = Vec::new(alloc);
    let mut levels = 0;
    let mut rest = input;
    while at_label(rest) {
        let (label, label_levels, behind) = read_label(alloc, depth, rest)?;
        put(&mut labels, label)?;
        levels = higher(levels, label_levels);
        rest = behind;
    }
    Ok((labels, levels, rest))
}

/// A form that holds no statement, its levels, and what follows it. There are `depth` levels above its statement.
#[tactic(auto, using(c_grammar_stmt::proofs::StmtRead::break_read, c_grammar_stmt::proofs::StmtRead::continue_read, c_grammar_stmt::proofs::StmtRead::return_unread, c_grammar_stmt::proofs::StmtRead::plain_unread, c_grammar_stmt::proofs::FormSteps::form_break_unended, c_grammar_stmt::proofs::FormSteps::form_continue_unended))]
pub fn read_plain<'a>(
    alloc: Global,
    depth: u32,
    input: &'a [Token],
) -> Result<(StmtForm, u32, &'a [Token]), Stop>
    requires deep { depth < 400 }
    requires tokens { length input.now < 4294967296 }
    requires plain { NoNest input.now }
    ensures found { IfOk result (λ p. Found (reads_form depth) form_height input.now (form_shape p.0) p.1 p.2.now) }
    ensures low { IfOk result (λ p. p.1 + depth < 400) }
    ensures shorter { IfOk result (λ p. length p.2.now < length input.now) }
    ensures fails { IsErrOf result Stop.Syntax → Finds (reads_form depth) input.now None }
{
    if let Some(behind) = past_key(input, Key::Break) {
        return match past(behind, Mark::Semicolon) {
            Some(rest) => Ok((StmtForm::Break, 0, rest)),
            None => Err(Stop::Syntax),
        };
    }
    if let Some(behind) = past_key(input, Key::Continue) {
        return match past(behind, Mark::Semicolon) {
            Some(rest) => Ok((StmtForm::Continue, 0, rest)),
            None => Err(Stop::Syntax),
        };
    }
    if let Some(behind) = past_key(input, Key::Return) {
        let (value, levels, rest) = read_optional(alloc, Mark::Semicolon, depth + 1, behind)?;
        return Ok((StmtForm::Return(unboxed(value)), levels, rest));
    }
    let (value, levels, rest) = read_optional(alloc, Mark::Semicolon, depth + 1, input)?;
    Ok((StmtForm::Plain(unboxed(value)), levels, rest))
}
