//! Tokens written as a text.

ghost use Rattle.std.specs.Prelude.{◌≡◌, ℕ, ◌+◌, ◌/◌, ◌%◌, ◌<◌, [], ◌∷◌, ◌++◌, length, flat_map, OnOk, IfOk};
ghost use Rattle.c_lex_pieces.specs.Kinds.{key_bytes, probe_bytes};
ghost use Rattle.c_lex_pieces.specs.Marks.{mark_bytes};
ghost use Rattle.c_lex_pieces.specs.Written.{is_plain, token_bytes, value_bytes, values_bytes};
ghost use Rattle.c_lex.specs.Written.{end_byte, written};

use c_base::place::NoMemory;
use c_syntax::token::{Key, Mark, ProbeWord, Token, TokenKind};
use std::alloc::Global;

fn mark_spelling(mark: Mark) -> &'static [u8]
    ensures { result.now ≡ mark_bytes mark }
{
    match mark {
        Mark::LeftBracket => b"[".as_slice(),
        Mark::RightBracket => b"]".as_slice(),
        Mark::LeftParen => b"(".as_slice(),
        Mark::RightParen => b")".as_slice(),
        Mark::LeftBrace => b"{".as_slice(),
        Mark::RightBrace => b"}".as_slice(),
        Mark::Dot => b".".as_slice(),
        Mark::Arrow => b"->".as_slice(),
        Mark::PlusPlus => b"++".as_slice(),
        Mark::MinusMinus => b"--".as_slice(),
        Mark::Ampersand => b"&".as_slice(),
        Mark::Star => b"*".as_slice(),
        Mark::Plus => b"+".as_slice(),
        Mark::Minus => b"-".as_slice(),
        Mark::Tilde => b"~".as_slice(),
        Mark::Bang => b"!".as_slice(),
        Mark::Slash => b"/".as_slice(),
        Mark::Percent => b"%".as_slice(),
        Mark::ShiftLeft => b"<<".as_slice(),
        Mark::ShiftRight => b">>".as_slice(),
        Mark::Less => b"<".as_slice(),
        Mark::Greater => b">".as_slice(),
        Mark::LessEqual => b"<=".as_slice(),
        Mark::GreaterEqual => b">=".as_slice(),
        Mark::EqualEqual => b"==".as_slice(),
        Mark::NotEqual => b"!=".as_slice(),
        Mark::Caret => b"^".as_slice(),
        Mark::Bar => b"|".as_slice(),
        Mark::AndAnd => b"&&".as_slice(),
        Mark::OrOr => b"||".as_slice(),
        Mark::Question => b"?".as_slice(),
        Mark::Colon => b":".as_slice(),
        Mark::Semicolon => b";".as_slice(),
        Mark::Equal => b"=".as_slice(),
        Mark::StarEqual => b"*=".as_slice(),
        Mark::SlashEqual => b"/=".as_slice(),
        Mark::PercentEqual => b"%=".as_slice(),
        Mark::PlusEqual => b"+=".as_slice(),
        Mark::MinusEqual => b"-=".as_slice(),
        Mark::LeftEqual => b"<<=".as_slice(),
        Mark::RightEqual => b">>=".as_slice(),
        Mark::AndEqual => b"&=".as_slice(),
        Mark::CaretEqual => b"^=".as_slice(),
        Mark::BarEqual => b"|=".as_slice(),
        Mark::Comma => b",".as_slice(),
    }
}

fn key_spelling(key: Key) -> &'static [u8]
    ensures { result.now ≡ key_bytes key }
{
    match key {
        Key::Break => b"break".as_slice(),
        Key::Case => b"case".as_slice(),
        Key::Char => b"char".as_slice(),
        Key::Const => b"const".as_slice(),
        Key::Continue => b"continue".as_slice(),
        Key::Default => b"default".as_slice(),
        Key::Do => b"do".as_slice(),
        Key::Else => b"else".as_slice(),
        Key::Enum => b"enum".as_slice(),
        Key::For => b"for".as_slice(),
        Key::If => b"if".as_slice(),
        Key::Int => b"int".as_slice(),
        Key::Long => b"long".as_slice(),
        Key::Return => b"return".as_slice(),
        Key::Short => b"short".as_slice(),
        Key::Signed => b"signed".as_slice(),
        Key::Sizeof => b"sizeof".as_slice(),
        Key::Static => b"static".as_slice(),
        Key::Struct => b"struct".as_slice(),
        Key::Switch => b"switch".as_slice(),
        Key::Unsigned => b"unsigned".as_slice(),
        Key::Void => b"void".as_slice(),
        Key::While => b"while".as_slice(),
    }
}

fn probe_spelling(probe: ProbeWord) -> &'static [u8]
    ensures { result.now ≡ probe_bytes probe }
{
    match probe {
        ProbeWord::Program => b"__atac_program".as_slice(),
        ProbeWord::Block => b"__atac_block".as_slice(),
        ProbeWord::Test => b"__atac_test".as_slice(),
        ProbeWord::Select => b"__atac_select".as_slice(),
        ProbeWord::Use => b"__atac_use".as_slice(),
        ProbeWord::Def => b"__atac_def".as_slice(),
    }
}

fn put(out: &mut Vec<u8>, bytes: &[u8]) -> Result<(), NoMemory>
    ensures { OnOk result (out.new.items ≡ out.old.items ++ bytes.now) }
{
    match out.extend_from_slice(bytes) {
        Ok(()) => Ok(()),
        Err(_) => Err(NoMemory),
    }
}

fn plain(b: u8) -> bool
    ensures { result ≡ is_plain b }
{
    (32 <= b && b <= 126) && !(b == b'\\' || b == b'\'' || b == b'"')
}

fn put_escaped(out: &mut Vec<u8>, b: u8) -> Result<(), NoMemory>
    ensures { OnOk result (out.new.items ≡ out.old.items ++ value_bytes b) }
{
    if plain(b) {
        return put(out, &[b]);
    }
    put(out, &[b'\\', 48 + b / 64, 48 + b / 8 % 8, 48 + b % 8])
}

fn put_all_escaped(out: &mut Vec<u8>, bytes: &[u8]) -> Result<(), NoMemory>
    ensures { OnOk result (out.new.items ≡ out.old.items ++ values_bytes bytes.now) }
{
    for b in bytes {
        put_escaped(out, *b)?;
    }
    Ok(())
}

fn put_kind(out: &mut Vec<u8>, kind: &TokenKind) -> Result<(), NoMemory>
    ensures { OnOk result (out.new.items ≡ out.old.items ++ token_bytes kind.now) }
{
    match kind {
        TokenKind::Word(text) | TokenKind::Number(text) => put(out, text.bytes()),
        TokenKind::Char(b) => {
            put(out, b"'")?;
            put_escaped(out, *b)?;
            put(out, b"'")
        }
        TokenKind::Str(text) => {
            put(out, b"\"")?;
            put_all_escaped(out, text.bytes())?;
            put(out, b"\"")
        }
        TokenKind::Mark(mark) => put(out, mark_spelling(*mark)),
        TokenKind::Key(key) => put(out, key_spelling(*key)),
        TokenKind::Probe(probe) => put(out, probe_spelling(*probe)),
    }
}

fn end_of(kind: &TokenKind, behind: usize) -> u8
    ensures { result ≡ end_byte kind.now behind }
{
    match kind {
        TokenKind::Mark(Mark::Semicolon | Mark::LeftBrace | Mark::RightBrace) => b'\n',
        _ => { if behind == 0 { b'\n' } else { b' ' } }
    }
}

/// The text that the tokens are written as: with one space between two of them, but with a newline after `;`, `{` and
/// `}` and at the end. Words, keywords, marks and numbers stand as they are spelled; in characters and strings a byte
/// that isn't a printing one, and `\`, `'` and `"`, are `\` and three octal digits (C89, 3.1.3.4). An empty list is a
/// newline.
pub fn text_of(alloc: Global, tokens: &[Token]) -> Result<Vec<u8>, NoMemory>
    ensures { IfOk result (λ v. v.items ≡ written tokens.now) }
{
    let mut out = Vec::new(alloc);
    for (i, token) in tokens.iter().enumerate() {
        put_kind(&mut out, &token.kind)?;
        put(&mut out, &[end_of(&token.kind, tokens.len() - i - 1)])?;
    }
    if tokens.is_empty() {
        put(&mut out, b"\n")?;
    }
    Ok(out)
}
