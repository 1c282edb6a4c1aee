//! Pieces of a text, each class once.

use c_lex_pieces::front::{Class, Front, longest};
use c_lex_pieces::kinds::{is_left_out, kind_of};
use c_syntax::token::{Key, Mark, ProbeWord, TokenKind};
use std::alloc::Global;
use std::test::Fail;

fn piece(class: Class, len: usize) -> Front {
    Front::Piece(class, len)
}

/// Each class once, and where a piece ends.
#[test]
fn cuts_the_longest_piece(rt: HostRuntime) {
    let cases: [(&[u8], Front); 24] = [
        (b" \t\x0b\x0c\r\nx", piece(Class::Space, 5)),
        (b"\n\n", piece(Class::Newline, 1)),
        (b"/*/ * **/*/", piece(Class::Comment, 9)),
        (b"_a9.b", piece(Class::Word, 3)),
        (b"1-2", piece(Class::Number, 1)),
        (b"0 1", piece(Class::Number, 1)),
        (b"0x1fUL;", piece(Class::Number, 6)),
        (b"017lu", piece(Class::Number, 5)),
        (b"18446744073709551615", piece(Class::Number, 20)),
        (b"0xffffffffffffffff", piece(Class::Number, 18)),
        (b"'a'b", piece(Class::Char, 3)),
        (b"'\\''", piece(Class::Char, 4)),
        (b"'\\377'", piece(Class::Char, 6)),
        (b"'\\x00041'", piece(Class::Char, 9)),
        (b"'\"'", piece(Class::Char, 3)),
        (b"\"\" \"", piece(Class::Str, 2)),
        (b"\"a\\\"'\"", piece(Class::Str, 6)),
        (b"#define", piece(Class::Hash, 1)),
        (b">>=1", piece(Class::Mark(Mark::RightEqual), 3)),
        (b">>1", piece(Class::Mark(Mark::ShiftRight), 2)),
        (b">1", piece(Class::Mark(Mark::Greater), 1)),
        (b".x", piece(Class::Mark(Mark::Dot), 1)),
        (b"->x", piece(Class::Mark(Mark::Arrow), 2)),
        (b"/ *", piece(Class::Mark(Mark::Slash), 1)),
    ];
    for (text, want) in cases {
        assert!(rt; longest(text) == want, "at {text:?}");
    }
}

/// The refusals, at their borders.
#[test]
fn refuses(rt: HostRuntime) {
    let cases: [(&[u8], u8); 31] = [
        (b"@", 1),
        (b"\\", 1),
        (b"\x00", 1),
        (b"\xff", 1),
        (b"/* *", 2),
        (b"/*/", 2),
        (b"'", 3),
        (b"''", 3),
        (b"'''", 3),
        (b"'ab'", 3),
        (b"'a\n'", 3),
        (b"'\\", 3),
        (b"'\\\n'", 3),
        (b"'\\1234'", 3),
        (b"'\\xg'", 3),
        (b"\"a", 3),
        (b"\"\\\"", 3),
        (b"'\\x'", 4),
        (b"'\\400'", 4),
        (b"'\\x100'", 4),
        (b"'\\8'", 4),
        (b"\"a\\q\"", 4),
        (b"08", 5),
        (b"0x", 5),
        (b"0xg", 5),
        (b"1.5", 5),
        (b".5", 5),
        (b"1uu", 5),
        (b"1ulu", 5),
        (b"18446744073709551616", 5),
        (b"02000000000000000000000", 5),
    ];
    for (text, want) in cases {
        assert!(rt; longest(text) == Front::Refused(want), "at {text:?}");
    }
}

// Whether each piece is read as what it spells: a key word, a word of the probes, a word, a number, a character, the values
// of a string; a comment is none.
fn reads_key(alloc: Global) -> Result<bool, Fail> {
    match kind_of(alloc, Class::Word, b"while")? {
        Some(TokenKind::Key(key)) => Ok(key == Key::While),
        _ => Ok(false),
    }
}

fn reads_probe(alloc: Global) -> Result<bool, Fail> {
    match kind_of(alloc, Class::Word, b"__atac_select")? {
        Some(TokenKind::Probe(word)) => Ok(word == ProbeWord::Select),
        _ => Ok(false),
    }
}

fn reads_word(alloc: Global) -> Result<bool, Fail> {
    match kind_of(alloc, Class::Word, b"goto")? {
        Some(TokenKind::Word(word)) => Ok(word.bytes() == b"goto".as_slice()),
        _ => Ok(false),
    }
}

fn reads_number(alloc: Global) -> Result<bool, Fail> {
    match kind_of(alloc, Class::Number, b"0x1fUL")? {
        Some(TokenKind::Number(number)) => Ok(number.bytes() == b"0x1fUL".as_slice()),
        _ => Ok(false),
    }
}

fn reads_char(alloc: Global) -> Result<bool, Fail> {
    match kind_of(alloc, Class::Char, b"'\\377'")? {
        Some(TokenKind::Char(value)) => Ok(value == 255),
        _ => Ok(false),
    }
}

fn reads_str(alloc: Global) -> Result<bool, Fail> {
    match kind_of(alloc, Class::Str, b"\"a\\n\\0\\x41\\'\"")? {
        Some(TokenKind::Str(values)) => Ok(values.bytes() == b"a\n\0A'".as_slice()),
        _ => Ok(false),
    }
}

fn reads_no_comment(alloc: Global) -> Result<bool, Fail> {
    Ok(kind_of(alloc, Class::Comment, b"/**/")?.is_none())
}

/// What the pieces spell.
#[test]
fn reads_kinds(rt: HostRuntime) -> Result<(), Fail> {
    let alloc = rt.alloc();
    assert!(rt; reads_key(alloc)?);
    assert!(rt; reads_probe(alloc)?);
    assert!(rt; reads_word(alloc)?);
    assert!(rt; is_left_out(b"goto"));
    assert!(rt; !is_left_out(b"go"));
    assert!(rt; reads_number(alloc)?);
    assert!(rt; reads_char(alloc)?);
    assert!(rt; reads_str(alloc)?);
    assert!(rt; reads_no_comment(alloc)?);
    Ok(())
}
