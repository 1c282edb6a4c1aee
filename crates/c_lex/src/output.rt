//! The tokens so far, within their limits.

ghost use Rattle.std.specs.Prelude.{◌≡◌, ◌≤◌, ◌+◌, ◌-◌, ◌++◌, length, Some, None, OnOk, IfOk, MatchBool, true};
ghost use Rattle.c_lex.specs.Macros.{spelled};
ghost use Rattle.c_lex_pieces.specs.Kinds.{kind};
ghost use Rattle.c_lex.specs.Output.{is_word, made_of, tokens_at};
ghost use Rattle.c_lex.specs.Replacing.{put_token, replace_one};

use crate::table::Piece;
use c_base::place::{NoMemory, Pos};
use c_lex_pieces::front::Class;
use c_lex_pieces::kinds::{is_left_out, kind_of};
use c_syntax::token::Token;
use std::alloc::Global;

/// What may still come: tokens, bytes of tokens as they are spelled, and replacements of macros.
#[derive(Clone, Copy, Debug, PartialEq, Eq)]
pub struct Room {
    pub tokens: u32,
    pub bytes: u32,
    pub replacements: u32,
}

/// The tokens given so far, what may still come, and whether a left-out word is among them.
#[derive(Drop)]
pub struct Output {
    pub tokens: Vec<Token>,
    pub room: Room,
    pub left_out: bool,
}

/// Whether a piece is a word or a key.
pub fn names(class: Class) -> bool
    ensures { result ≡ is_word class }
{
    matches!(class, Class::Word)
}

fn push(alloc: Global, tokens: &mut Vec<Token>, piece: Piece<'_>, pos: Pos) -> Result<(), NoMemory>
    requires { length piece.bytes.now ≤ 4294967295 }
    ensures { OnOk result (tokens.new.items ≡ tokens.old.items ++ tokens_at pos (kind piece.entry.class piece.entry.bytes.now)) }
{
    match kind_of(alloc, piece.class, piece.bytes)? {
        None => Ok(()),
        Some(kind) => match tokens.push(Token { kind, pos }) {
            Ok(()) => Ok(()),
            Err(_) => Err(NoMemory),
        },
    }
}

impl Output {
    /// Gives a token; false where it passes a limit.
    pub fn put(&mut self, alloc: Global, piece: Piece<'_>, pos: Pos) -> Result<bool, NoMemory>
        ensures put { let more = put_token pos (spelled piece.entry) (made_of self.old) in IfOk result (λ b. MatchBool b (more ≡ Some (made_of self.new)) (more ≡ None)) }
        ensures falls { IfOk result (λ b. b ≡ true → (self.new.room.tokens + 1 ≡ self.old.room.tokens) × (self.new.room.replacements ≡ self.old.room.replacements)) }
    {
        let len = piece.bytes.len();
        if self.room.tokens == 0 || len > self.room.bytes as usize {
            return Ok(false);
        }
        push(alloc, &mut self.tokens, piece, pos)?;
        self.room.tokens -= 1;
        self.room.bytes -= len as u32;
        self.left_out = self.left_out || (names(piece.class) && is_left_out(piece.bytes));
        Ok(true)
    }

    /// Counts a replacement; false where it passes the limit.
    pub fn replace(&mut self) -> bool
        ensures replaced { MatchBool result (replace_one (made_of self.old) ≡ Some (made_of self.new)) (replace_one (made_of self.old) ≡ None) }
        ensures falls { result ≡ true → (self.new.room.tokens ≡ self.old.room.tokens) × (self.new.room.replacements + 1 ≡ self.old.room.replacements) }
    {
        if self.room.replacements == 0 {
            return false;
        }
        self.room.replacements -= 1;
        true
    }
}
