//! Adjacent strings joined (C89, 3.1.4).

ghost use Rattle.std.specs.Prelude.{◌≡◌, ◌<◌, ◌≤◌, [], ◌∷◌, ◌++◌, length, OnOk, IfOk};
ghost use Rattle.c_lex.specs.Joined.{join_behind, join_two, joined, string_of};

use c_base::place::NoMemory;
use c_syntax::text::Text;
use c_syntax::token::{Token, TokenKind};
use std::alloc::Global;

/// Appends bytes to a text.
fn extend(text: &mut Text, more: &[u8]) -> Result<(), NoMemory>
    ensures { OnOk result (text.new ≡ text.old ++ more.now) }
{
    for b in more {
        if text.len() == u32::MAX {
            return Err(NoMemory);
        }
        text.push(*b)?;
    }
    Ok(())
}

fn push(out: &mut Vec<Token>, token: Token) -> Result<(), NoMemory>
    ensures { OnOk result (out.new.items ≡ out.old.items ++ token ∷ []) }
{
    match out.push(token) {
        Ok(()) => Ok(()),
        Err(_) => Err(NoMemory),
    }
}

fn put_two(out: &mut Vec<Token>, last: Token, token: Token) -> Result<(), NoMemory>
    ensures { OnOk result (out.new.items ≡ out.old.items ++ join_two last (string_of last.kind) token (string_of token.kind) []) }
{
    match (last.kind, token.kind) {
        (TokenKind::Str(mut text), TokenKind::Str(more)) => {
            extend(&mut text, more.bytes())?;
            push(
                out,
                Token {
                    kind: TokenKind::Str(text),
                    pos: last.pos,
                },
            )
        }
        (first, second) => {
            push(
                out,
                Token {
                    kind: first,
                    pos: last.pos,
                },
            )?;
            push(
                out,
                Token {
                    kind: second,
                    pos: token.pos,
                },
            )
        }
    }
}

#[tactic(auto, using(crate::proofs::Joining::behind_last))]
fn put(out: &mut Vec<Token>, token: Token) -> Result<(), NoMemory>
    ensures { OnOk result (out.new.items ≡ join_behind out.old.items token) }
{
    match out.pop() {
        None => push(out, token),
        Some(last) => put_two(out, last, token),
    }
}

/// The tokens with adjacent strings joined.
#[tactic(auto, using(crate::proofs::Joining::begin_joining, crate::proofs::Joining::next_token))]
pub fn join(alloc: Global, tokens: Vec<Token>) -> Result<Vec<Token>, NoMemory>
    ensures { IfOk result (λ v. v.items ≡ joined tokens.items) }
{
    let mut rest = tokens;
    rest.reverse();
    let mut out = Vec::new(alloc);
    while let Some(token) = rest.pop() {
        put(&mut out, token)?;
    }
    Ok(out)
}
