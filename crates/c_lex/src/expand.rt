//! Macros replaced (C89, 3.8.3).

ghost use Rattle.std.specs.Prelude.{◌≡◌, ◌+◌, ◌*◌, ◌<◌, [], ◌∷◌, ◌++◌, length, map, slice_set, Some, None, OnOk, IfOk, MatchOption, MatchBool, true};
ghost use Rattle.c_lex.specs.Macros.{rows_of, spelled};
ghost use Rattle.c_lex.specs.Output.{made_of};
ghost use Rattle.c_lex.specs.Expand.{all_given, expansion, macro_of};
ghost use Rattle.c_lex.specs.Replacing.{closed_of, left_of, spent};

use crate::output::{Output, names};
use crate::table::{Piece, Table, find};
use c_base::place::{NoMemory, Pos};
use std::alloc::Global;

/// A macro that is being replaced: its row, and what is left of its tokens.
#[derive(Clone, Copy)]
struct Frame<'m, 't> {
    row: usize,
    rest: &'m [Piece<'t>],
}

fn mark(opened: &mut Vec<bool>, row: usize, is_open: bool)
    ensures { opened.new.items ≡ slice_set opened.old.items row is_open }
{
    if row < opened.len() {
        opened[row] = is_open;
    }
}

fn push<'m, 't>(stack: &mut Vec<Frame<'m, 't>>, frame: Frame<'m, 't>) -> Result<(), NoMemory>
    ensures { OnOk result (stack.new.items ≡ stack.old.items ++ frame.entry ∷ []) }
{
    match stack.push(frame) {
        Ok(()) => Ok(()),
        Err(_) => Err(NoMemory),
    }
}

/// The row and the tokens of the macro that a piece names, where it isn't hidden.
fn stands_for<'m, 't>(
    table: &'m Table<'t>,
    opened: &[bool],
    piece: Piece<'t>,
) -> Option<(usize, &'m [Piece<'t>])>
    ensures { let there = macro_of (rows_of table.now.entries) opened.now (spelled piece.entry) in MatchOption result (there ≡ None) (λ m. there ≡ Some (m.0, map spelled m.1.now)) }
{
    if !names(piece.class) {
        return None;
    }
    let (row, body) = find(table, piece.bytes)?;
    match opened.get(row) {
        Some(is_open) => { if *is_open { None } else { Some((row, body)) } }
        None => None,
    }
}

/// A token that was read: it is given, or its macro's tokens come in its place. False where a limit is passed.
#[tactic(auto, using(crate::proofs::Levels::give, crate::proofs::Levels::open_list, crate::proofs::Levels::open_marks))]
fn take<'m, 't>(
    alloc: Global,
    table: &'m Table<'t>,
    opened: &mut Vec<bool>,
    stack: &mut Vec<Frame<'m, 't>>,
    out: &mut Output,
    piece: Piece<'t>,
    pos: Pos,
) -> Result<bool, NoMemory>
    ensures given { let T = rows_of table.now.entries in let all = spent pos (made_of out.old) (expansion T opened.old.items (spelled piece.entry ∷ []) ++ left_of T opened.old.items stack.old.items) in IfOk result (λ b. MatchBool b (all ≡ spent pos (made_of out.new) (left_of T opened.new.items stack.new.items)) (all ≡ None)) }
    ensures marks { IfOk result (λ b. b ≡ true → closed_of opened.new.items stack.new.items ≡ closed_of opened.old.items stack.old.items) }
    ensures falls { IfOk result (λ b. b ≡ true → 2 * out.new.room.replacements + out.new.room.tokens + length stack.new.items < 2 * out.old.room.replacements + out.old.room.tokens + length stack.old.items) }
{
    match stands_for(table, opened, piece) {
        None => out.put(alloc, piece, pos),
        Some((row, body)) => {
            if !out.replace() {
                return Ok(false);
            }
            mark(opened, row, true);
            push(stack, Frame { row, rest: body })?;
            Ok(true)
        }
    }
}

/// Gives a token's replacement step by step.
#[tactic(auto, using(crate::proofs::Levels::turn, crate::proofs::Levels::turn_marks, crate::proofs::Levels::close_empty, crate::proofs::Levels::close_marks))]
fn run<'t>(
    alloc: Global,
    table: &Table<'t>,
    opened: &mut Vec<bool>,
    out: &mut Output,
    piece: Piece<'t>,
    pos: Pos,
) -> Result<bool, NoMemory>
    ensures given { let all = spent pos (made_of out.old) (expansion (rows_of table.now.entries) opened.old.items (spelled piece.entry ∷ [])) in IfOk result (λ b. MatchBool b (all ≡ Some (made_of out.new)) (all ≡ None)) }
    ensures marks { IfOk result (λ b. b ≡ true → opened.new.items ≡ opened.old.items) }
{
    let mut stack = Vec::new(alloc);
    if !take(alloc, table, opened, &mut stack, out, piece, pos)? {
        return Ok(false);
    }
    while let Some(frame) = stack.pop() {
        match frame.rest.split_first() {
            None => mark(opened, frame.row, false),
            Some((first, rest)) => {
                push(
                    &mut stack,
                    Frame {
                        row: frame.row,
                        rest,
                    },
                )?;
                if !take(alloc, table, opened, &mut stack, out, *first, pos)? {
                    return Ok(false);
                }
            }
        }
    }
    Ok(true)
}

/// Gives a token of the text with its macros replaced; false where that passes a limit.
pub fn expand<'t>(
    alloc: Global,
    table: &Table<'t>,
    opened: &mut Vec<bool>,
    out: &mut Output,
    piece: Piece<'t>,
    pos: Pos,
) -> Result<bool, NoMemory>
    ensures given { let all = all_given pos (made_of out.old) (expansion (rows_of table.now.entries) opened.old.items (spelled piece.entry ∷ [])) in IfOk result (λ b. MatchBool b (all ≡ Some (made_of out.new)) (all ≡ None)) }
    ensures marks { IfOk result (λ b. b ≡ true → opened.new.items ≡ opened.old.items) }
{
    run(alloc, table, opened, out, piece, pos)
}
