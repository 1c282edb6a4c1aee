//! Statements, read from tokens: one function for each form, by the keyword that it begins with.

ghost use Rattle.std.specs.Prelude.{◌≡◌, ◌+◌, ◌<◌, ◌≤◌, length, false, None, IfOk, IsErrOf};
ghost use Rattle.c_syntax.specs.View.{form_shape, stmt_shape, compound_shape, item_list};
ghost use Rattle.c_syntax.specs.Levels.{form_height, stmt_height, compound_height, items_height};
ghost use Rattle.c_grammar.specs.Look.{Finds};
ghost use Rattle.c_grammar.specs.Found.{Found};
ghost use Rattle.c_grammar_stmt.specs.StmtReader.{reads_form, reads_stmt, reads_items, reads_compound};
ghost use Rattle.c_grammar_stmt.specs.StmtParts.{if_parts, while_parts, do_parts, for_parts, switch_parts};
ghost use Rattle.c_grammar_stmt.specs.StmtFound.{brace_there, ItemFound};

use crate::forms::{
    at_brace, compound_at, do_form, either_form, for_form, read_head, read_labels, read_marks,
    read_parens, read_plain, switch_form, when_form, while_form,
};
use c_base::place::Pos;
use c_grammar::look::{MOST_LEVELS, Standing, Stop, first_place, past, past_key};
use c_grammar::nodes::{boxed, put};
use c_grammar::size::higher;
use c_parse_expr::decl::read_decls;
use c_syntax::token::{Key, Mark, Token};
use c_syntax::tree::{Compound, Item, Stmt, StmtForm};
use std::alloc::Global;

/// A statement with the block probes in front of it, its levels, and what follows it. There are `depth` levels above it.
#[cycle(statements)]
#[tactic(auto, using(c_grammar_stmt::proofs::StmtSteps::stmt_deep))]
pub fn read_statement<'a>(
    alloc: Global,
    depth: u32,
    input: &'a [Token],
) -> Result<(Box<Stmt>, u32, &'a [Token]), Stop>
    requires deep { depth ≤ 400 }
    requires tokens { length input.now < 4294967296 }
    ensures found { IfOk result (λ p. Found (reads_stmt depth) stmt_height input.now (stmt_shape p.0.value) p.1 p.2.now) }
    ensures low { IfOk result (λ p. p.1 + depth ≤ 400) }
    ensures no_longer { IfOk result (λ p. length p.2.now ≤ length input.now) }
    ensures shorter { IfOk result (λ p. length p.2.now < length input.now) }
    ensures fails { IsErrOf result Stop.Syntax → Finds (reads_stmt depth) input.now None }
{
    if depth >= MOST_LEVELS {
        return Err(Stop::Syntax);
    }
    let pos = first_place(input);
    let (probes, behind) = read_marks(alloc, input)?;
    let at = first_place(behind);
    let (form, levels, rest) = read_form(alloc, depth, behind)?;
    let stmt = boxed(
        alloc,
        Stmt {
            pos,
            probes,
            at,
            form,
        },
    )?;
    Ok((stmt, levels + 1, rest))
}

// The form of a statement that has `depth` levels above it, by its first token; the form's levels, and what follows it.
#[cycle(statements)]
#[tactic(auto, using(c_grammar_stmt::proofs::StmtRead::no_nest, c_grammar_stmt::proofs::StmtRead::braced_unread, c_grammar_stmt::proofs::StmtRead::no_if_there, c_grammar_stmt::proofs::StmtRead::no_while_there, c_grammar_stmt::proofs::StmtRead::no_do_there, c_grammar_stmt::proofs::StmtRead::no_for_there, c_grammar_stmt::proofs::StmtRead::no_switch_there))]
fn read_form<'a>(
    alloc: Global,
    depth: u32,
    input: &'a [Token],
) -> Result<(StmtForm, u32, &'a [Token]), Stop>
    requires deep { depth < 400 }
    requires tokens { length input.now < 4294967296 }
    ensures found { IfOk result (λ p. Found (reads_form depth) form_height input.now (form_shape p.0) p.1 p.2.now) }
    ensures low { IfOk result (λ p. p.1 + depth < 400) }
    ensures shorter { IfOk result (λ p. length p.2.now < length input.now) }
    ensures fails { IsErrOf result Stop.Syntax → Finds (reads_form depth) input.now None }
{
    if let Some(behind) = past(input, Mark::LeftBrace) {
        let pos = first_place(input);
        let (compound, levels, rest) = read_compound(alloc, depth + 1, pos, behind)?;
        return Ok((StmtForm::Compound(compound), levels, rest));
    }
    if let Some(behind) = past_key(input, Key::If) {
        return read_if(alloc, depth, behind);
    }
    if let Some(behind) = past_key(input, Key::While) {
        return read_while(alloc, depth, behind);
    }
    if let Some(behind) = past_key(input, Key::Do) {
        return read_do(alloc, depth, behind);
    }
    if let Some(behind) = past_key(input, Key::For) {
        return read_for(alloc, depth, behind);
    }
    if let Some(behind) = past_key(input, Key::Switch) {
        return read_switch(alloc, depth, behind);
    }
    read_plain(alloc, depth, input)
}

// What stands behind `if`.
#[cycle(statements)]
#[tactic(auto, using(c_grammar_stmt::proofs::StmtRead::if_testless))]
fn read_if<'a>(
    alloc: Global,
    depth: u32,
    input: &'a [Token],
) -> Result<(StmtForm, u32, &'a [Token]), Stop>
    requires deep { depth < 400 }
    requires tokens { length input.now < 4294967296 }
    ensures found { IfOk result (λ p. Found (if_parts depth) form_height input.now (form_shape p.0) p.1 p.2.now) }
    ensures low { IfOk result (λ p. p.1 + depth < 400) }
    ensures no_longer { IfOk result (λ p. length p.2.now ≤ length input.now) }
    ensures fails { IsErrOf result Stop.Syntax → Finds (if_parts depth) input.now None }
{
    let (test, test_levels, behind) = read_parens(alloc, depth + 1, input)?;
    let (body, body_levels, rest) = read_statement(alloc, depth + 1, behind)?;
    let Some(other) = past_key(rest, Key::Else) else {
        let levels = higher(test_levels, body_levels);
        return Ok((when_form(test, body), levels, rest));
    };
    let (last, last_levels, end) = read_statement(alloc, depth + 1, other)?;
    let levels = higher(test_levels, higher(body_levels, last_levels));
    Ok((either_form(test, body, last), levels, end))
}

// What stands behind `while`.
#[cycle(statements)]
#[tactic(auto, using(c_grammar_stmt::proofs::StmtRead::while_testless))]
fn read_while<'a>(
    alloc: Global,
    depth: u32,
    input: &'a [Token],
) -> Result<(StmtForm, u32, &'a [Token]), Stop>
    requires deep { depth < 400 }
    requires tokens { length input.now < 4294967296 }
    ensures found { IfOk result (λ p. Found (while_parts depth) form_height input.now (form_shape p.0) p.1 p.2.now) }
    ensures low { IfOk result (λ p. p.1 + depth < 400) }
    ensures no_longer { IfOk result (λ p. length p.2.now ≤ length input.now) }
    ensures fails { IsErrOf result Stop.Syntax → Finds (while_parts depth) input.now None }
{
    let (test, test_levels, behind) = read_parens(alloc, depth + 1, input)?;
    let (body, body_levels, rest) = read_statement(alloc, depth + 1, behind)?;
    let levels = higher(test_levels, body_levels);
    Ok((while_form(test, body), levels, rest))
}

// What stands behind `do`.
#[cycle(statements)]
#[tactic(auto, using(c_grammar_stmt::proofs::StmtRead::do_bodiless))]
fn read_do<'a>(
    alloc: Global,
    depth: u32,
    input: &'a [Token],
) -> Result<(StmtForm, u32, &'a [Token]), Stop>
    requires deep { depth < 400 }
    requires tokens { length input.now < 4294967296 }
    ensures found { IfOk result (λ p. Found (do_parts depth) form_height input.now (form_shape p.0) p.1 p.2.now) }
    ensures low { IfOk result (λ p. p.1 + depth < 400) }
    ensures no_longer { IfOk result (λ p. length p.2.now ≤ length input.now) }
    ensures fails { IsErrOf result Stop.Syntax → Finds (do_parts depth) input.now None }
{
    let (body, body_levels, behind) = read_statement(alloc, depth + 1, input)?;
    let Some(inside) = past_key(behind, Key::While) else {
        return Err(Stop::Syntax);
    };
    let (test, test_levels, last) = read_parens(alloc, depth + 1, inside)?;
    let Some(rest) = past(last, Mark::Semicolon) else {
        return Err(Stop::Syntax);
    };
    let levels = higher(body_levels, test_levels);
    Ok((do_form(body, test), levels, rest))
}

// What stands behind `for`.
#[cycle(statements)]
fn read_for<'a>(
    alloc: Global,
    depth: u32,
    input: &'a [Token],
) -> Result<(StmtForm, u32, &'a [Token]), Stop>
    requires deep { depth < 400 }
    requires tokens { length input.now < 4294967296 }
    ensures found { IfOk result (λ p. Found (for_parts depth) form_height input.now (form_shape p.0) p.1 p.2.now) }
    ensures low { IfOk result (λ p. p.1 + depth < 400) }
    ensures no_longer { IfOk result (λ p. length p.2.now ≤ length input.now) }
    ensures fails { IsErrOf result Stop.Syntax → Finds (for_parts depth) input.now None }
{
    let (head, head_levels, behind) = read_head(alloc, depth, input)?;
    let (body, body_levels, rest) = read_statement(alloc, depth + 1, behind)?;
    let levels = higher(head_levels, body_levels);
    Ok((for_form(head, body), levels, rest))
}

// What stands behind `switch`.
#[cycle(statements)]
#[tactic(auto, using(c_grammar_stmt::proofs::StmtRead::switch_testless))]
fn read_switch<'a>(
    alloc: Global,
    depth: u32,
    input: &'a [Token],
) -> Result<(StmtForm, u32, &'a [Token]), Stop>
    requires deep { depth < 400 }
    requires tokens { length input.now < 4294967296 }
    ensures found { IfOk result (λ p. Found (switch_parts depth) form_height input.now (form_shape p.0) p.1 p.2.now) }
    ensures low { IfOk result (λ p. p.1 + depth < 400) }
    ensures no_longer { IfOk result (λ p. length p.2.now ≤ length input.now) }
    ensures fails { IsErrOf result Stop.Syntax → Finds (switch_parts depth) input.now None }
{
    let (test, test_levels, behind) = read_parens(alloc, depth + 1, input)?;
    let Some(inside) = past(behind, Mark::LeftBrace) else {
        return Err(Stop::Syntax);
    };
    let (items, item_levels, last) = read_items(alloc, depth + 1, inside)?;
    let Some(rest) = past(last, Mark::RightBrace) else {
        return Err(Stop::Syntax);
    };
    let levels = higher(test_levels, item_levels);
    Ok((switch_form(test, items), levels, rest))
}

// A statement of a list with its labels, its levels, and what follows it. There are `depth` levels above the list's
// statements; labels take one more.
#[cycle(statements)]
#[tactic(auto, using(c_grammar_stmt::proofs::StmtRead::item_unlabelled))]
fn read_item<'a>(
    alloc: Global,
    depth: u32,
    input: &'a [Token],
) -> Result<(Item, u32, &'a [Token]), Stop>
    requires deep { depth < 400 }
    requires tokens { length input.now < 4294967296 }
    requires more { brace_there input.now ≡ false }
    ensures found { IfOk result (λ p. ItemFound depth input.now p.0 p.1 p.2.now) }
    ensures low { IfOk result (λ p. p.1 + depth ≤ 400) }
    ensures shorter { IfOk result (λ p. length p.2.now < length input.now) }
    ensures fails { IsErrOf result Stop.Syntax → Finds (reads_items depth) input.now None }
{
    let (labels, label_levels, behind) = read_labels(alloc, depth, input)?;
    if labels.is_empty() {
        let (stmt, levels, rest) = read_statement(alloc, depth, behind)?;
        let stmt = Box::into_inner(stmt);
        return Ok((Item { labels, stmt }, levels, rest));
    }
    let (stmt, stmt_levels, rest) = read_statement(alloc, depth + 1, behind)?;
    let levels = higher(label_levels, stmt_levels) + 1;
    let stmt = Box::into_inner(stmt);
    Ok((Item { labels, stmt }, levels, rest))
}

// The statements of a list up to its closing brace, which is left; the levels of the deepest, and what follows them.
#[cycle(statements)]
#[tactic(auto, using(c_grammar_stmt::proofs::StmtSteps::item_list_start, c_grammar_stmt::proofs::StmtRead::items_read, c_grammar_stmt::proofs::StmtRead::items_unread, c_grammar_stmt::proofs::StmtRead::items_too_deep))]
fn read_items<'a>(
    alloc: Global,
    depth: u32,
    input: &'a [Token],
) -> Result<(Vec<Item>, u32, &'a [Token]), Stop>
    requires deep { depth ≤ 400 }
    requires tokens { length input.now < 4294967296 }
    ensures found { IfOk result (λ p. Found (reads_items depth) items_height input.now (item_list p.0.items) p.1 p.2.now) }
    ensures low { IfOk result (λ p. p.1 + depth ≤ 400) }
    ensures no_longer { IfOk result (λ p. length p.2.now ≤ length input.now) }
    ensures fails { IsErrOf result Stop.Syntax → Finds (reads_items depth) input.now None }
{
    let mut items = Vec::new(alloc);
    let mut levels = 0;
    let mut rest = input;
    while !at_brace(rest) {
        if depth >= MOST_LEVELS {
            return Err(Stop::Syntax);
        }
        let (item, item_levels, behind) = read_item(alloc, depth, rest)?;
        put(&mut items, item)?;
        levels = higher(levels, item_levels);
        rest = behind;
    }
    Ok((items, levels, rest))
}

/// A compound behind its brace, which stands at `pos`; its levels, and what follows it. There are `depth` levels above
/// it.
#[cycle(statements)]
#[tactic(auto, using(c_grammar_stmt::proofs::StmtRead::compound_declless, c_grammar_stmt::proofs::StmtSteps::compound_deep))]
pub fn read_compound<'a>(
    alloc: Global,
    depth: u32,
    pos: Pos,
    input: &'a [Token],
) -> Result<(Compound, u32, &'a [Token]), Stop>
    requires deep { depth ≤ 400 }
    requires tokens { length input.now < 4294967296 }
    ensures found { IfOk result (λ p. Found (reads_compound depth pos) compound_height input.now (compound_shape p.0) p.1 p.2.now) }
    ensures low { IfOk result (λ p. p.1 + depth ≤ 400) }
    ensures no_longer { IfOk result (λ p. length p.2.now ≤ length input.now) }
    ensures fails { IsErrOf result Stop.Syntax → Finds (reads_compound depth pos) input.now None }
{
    if depth >= MOST_LEVELS {
        return Err(Stop::Syntax);
    }
    let (decls, decl_levels, behind) = read_decls(alloc, Standing::Names, depth + 1, 0, input)?;
    let (items, item_levels, last) = read_items(alloc, depth + 1, behind)?;
    let Some(rest) = past(last, Mark::RightBrace) else {
        return Err(Stop::Syntax);
    };
    let levels = higher(decl_levels, item_levels) + 1;
    Ok((compound_at(pos, decls, items), levels, rest))
}
