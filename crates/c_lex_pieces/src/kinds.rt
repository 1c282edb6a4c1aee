//! The token that a piece spells (C89, 3.1).

ghost use Rattle.std.specs.Prelude.{◌≡◌, ◌≤◌, length, IfOk};
ghost use Rattle.c_lex_pieces.specs.Quotes.{inside, characters, all_values};
ghost use Rattle.c_lex_pieces.specs.Kinds.{key_of, probe_of, left_out, kind};

use crate::front::Class;
use crate::quotes::{Constant, character_of, constant_of};
use c_base::place::NoMemory;
use c_syntax::text::Text;
use c_syntax::token::{Key, ProbeWord, TokenKind};
use std::alloc::Global;

fn read_key(word: &[u8]) -> Option<Key>
    ensures { result ≡ key_of word.now }
{
    if word == b"break".as_slice() {
        Some(Key::Break)
    } else if word == b"case".as_slice() {
        Some(Key::Case)
    } else if word == b"char".as_slice() {
        Some(Key::Char)
    } else if word == b"const".as_slice() {
        Some(Key::Const)
    } else if word == b"continue".as_slice() {
        Some(Key::Continue)
    } else if word == b"default".as_slice() {
        Some(Key::Default)
    } else if word == b"do".as_slice() {
        Some(Key::Do)
    } else if word == b"else".as_slice() {
        Some(Key::Else)
    } else if word == b"enum".as_slice() {
        Some(Key::Enum)
    } else if word == b"for".as_slice() {
        Some(Key::For)
    } else if word == b"if".as_slice() {
        Some(Key::If)
    } else if word == b"int".as_slice() {
        Some(Key::Int)
    } else if word == b"long".as_slice() {
        Some(Key::Long)
    } else if word == b"return".as_slice() {
        Some(Key::Return)
    } else if word == b"short".as_slice() {
        Some(Key::Short)
    } else if word == b"signed".as_slice() {
        Some(Key::Signed)
    } else if word == b"sizeof".as_slice() {
        Some(Key::Sizeof)
    } else if word == b"static".as_slice() {
        Some(Key::Static)
    } else if word == b"struct".as_slice() {
        Some(Key::Struct)
    } else if word == b"switch".as_slice() {
        Some(Key::Switch)
    } else if word == b"unsigned".as_slice() {
        Some(Key::Unsigned)
    } else if word == b"void".as_slice() {
        Some(Key::Void)
    } else if word == b"while".as_slice() {
        Some(Key::While)
    } else {
        None
    }
}

fn read_probe(word: &[u8]) -> Option<ProbeWord>
    ensures { result ≡ probe_of word.now }
{
    if word == b"__atac_program".as_slice() {
        Some(ProbeWord::Program)
    } else if word == b"__atac_block".as_slice() {
        Some(ProbeWord::Block)
    } else if word == b"__atac_test".as_slice() {
        Some(ProbeWord::Test)
    } else if word == b"__atac_select".as_slice() {
        Some(ProbeWord::Select)
    } else if word == b"__atac_use".as_slice() {
        Some(ProbeWord::Use)
    } else if word == b"__atac_def".as_slice() {
        Some(ProbeWord::Def)
    } else {
        None
    }
}

/// Whether it is a keyword of C89 (3.1.1) that the language leaves out.
pub fn is_left_out(word: &[u8]) -> bool
    ensures { result ≡ left_out word.now }
{
    word == b"auto".as_slice()
        || word == b"double".as_slice()
        || word == b"extern".as_slice()
        || word == b"float".as_slice()
        || word == b"goto".as_slice()
        || word == b"register".as_slice()
        || word == b"typedef".as_slice()
        || word == b"union".as_slice()
        || word == b"volatile".as_slice()
}

/// The values of the characters between the quotes of a string; None where an escape is bad.
#[tactic(auto, using(crate::proofs::Steps::value_behind, crate::proofs::Steps::behind_bad, crate::proofs::Steps::behind_end, crate::proofs::Steps::behind_nil))]
fn values_of(alloc: Global, inside: &[u8]) -> Result<Option<Text>, NoMemory>
    requires { length inside.now ≤ 4294967295 }
    ensures { IfOk result (λ r. r ≡ all_values (characters inside.now)) }
{
    let mut out = Text::new(alloc);
    let mut rest = inside;
    while !rest.is_empty() {
        let first = character_of(rest);
        let Some(value) = first.value else {
            return Ok(None);
        };
        out.push(value)?;
        let (_, behind) = rest.split_at(first.size);
        rest = behind;
    }
    Ok(Some(out))
}

/// What stands between the quotes.
fn between_quotes(spelled: &[u8]) -> &[u8]
    ensures { result.now ≡ inside spelled.now }
{
    match spelled {
        [_, between @ .., _] => between,
        _ => &[],
    }
}

/// The token that a piece of this class spells (C89, 3.1); None for blanks, line ends, comments and `#`. A keyword that
/// the language leaves out is a word.
pub fn kind_of(alloc: Global, class: Class, spelled: &[u8]) -> Result<Option<TokenKind>, NoMemory>
    requires { length spelled.now ≤ 4294967295 }
    ensures { IfOk result (λ r. r ≡ kind class spelled.now) }
{
    let kind = match class {
        Class::Space | Class::Newline | Class::Comment | Class::Hash => return Ok(None),
        Class::Word => match (read_key(spelled), read_probe(spelled)) {
            (Some(key), _) => TokenKind::Key(key),
            (None, Some(probe)) => TokenKind::Probe(probe),
            (None, None) => TokenKind::Word(Text::from_bytes(alloc, spelled)?),
        },
        Class::Number => TokenKind::Number(Text::from_bytes(alloc, spelled)?),
        Class::Char => match constant_of(between_quotes(spelled)) {
            Constant::Value(value) => TokenKind::Char(value),
            _ => return Ok(None),
        },
        Class::Str => match values_of(alloc, between_quotes(spelled))? {
            Some(values) => TokenKind::Str(values),
            None => return Ok(None),
        },
        Class::Mark(mark) => TokenKind::Mark(mark),
    };
    Ok(Some(kind))
}
