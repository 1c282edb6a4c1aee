//! Texts, and the tokens that they are read as.

use c_base::place::Pos;
use c_lex::{LexRefusal, TextKind, lex, text_of};
use std::alloc::Global;
use std::test::Fail;

// What the tokens of a text are written as, or the refusal.
fn read(alloc: Global, text: &[u8], kind: TextKind) -> Result<Vec<u8>, LexRefusal> {
    if text.len() > 67_108_864 {
        return Err(LexRefusal::NoMemory);
    }
    let tokens = lex(alloc, text, kind)?;
    Ok(text_of(alloc, &tokens)?)
}

fn gives(alloc: Global, text: &[u8], wanted: &[u8]) -> bool {
    match read(alloc, text, TextKind::Plain) {
        Ok(written) => written.as_slice() == wanted,
        Err(_) => false,
    }
}

fn refuses(alloc: Global, text: &[u8], number: u8, line: u32, col: u32) -> bool {
    match read(alloc, text, TextKind::Plain) {
        Ok(_) => false,
        Err(refusal) => refusal == LexRefusal::At(number, Pos { line, col }),
    }
}

// The place of the only token of a text.
fn only_place(alloc: Global, text: &[u8]) -> Option<Pos> {
    if text.len() > 1000 {
        return None;
    }
    match lex(alloc, text, TextKind::Plain) {
        Ok(tokens) => match tokens.as_slice() {
            [token] => Some(token.pos),
            _ => None,
        },
        Err(_) => None,
    }
}

// The text between two others, so many times.
fn repeated(
    alloc: Global,
    begin: &[u8],
    middle: u8,
    count: usize,
    end: &[u8],
) -> Result<Vec<u8>, Fail> {
    let mut text = Vec::new(alloc);
    text.extend_from_slice(begin)?;
    for _ in 0..count {
        text.push(middle)?;
    }
    text.extend_from_slice(end)?;
    Ok(text)
}

#[test]
fn written_again(rt: HostRuntime) {
    let alloc = rt.alloc();
    assert!(rt; gives(alloc, b"", b"\n"));
    assert!(rt; gives(alloc, b"a+b;", b"a + b ;\n"));
    assert!(rt; gives(alloc, b"\"a\" \"b\"", b"\"ab\"\n"));
    assert!(rt; gives(alloc, b"\"\\1\" \"2\" c", b"\"\\0012\" c\n"));
    assert!(rt; gives(alloc, b"'\\n' '\\'' 'a'", b"'\\012' '\\047' 'a'\n"));
    assert!(rt; refuses(alloc, b"{a>>=.5e1;}", 5, 1, 6));
    assert!(rt; gives(alloc, b"{a>>=0x1fUL;}", b"{\na >>= 0x1fUL ;\n}\n"));
}

#[test]
fn macros(rt: HostRuntime) {
    let alloc = rt.alloc();
    assert!(rt;
        gives(
            alloc,
            b"#define TWO 2\nint main(void){return TWO;}",
            b"int main ( void ) {\nreturn 2 ;\n}\n"
        )
    );
    assert!(rt; gives(alloc, b"#define A A\nA", b"A\n"));
    assert!(rt; gives(alloc, b"#define A B\n#define B A\nA B", b"A B\n"));
    assert!(rt; gives(alloc, b"#define F G+G\n#define G 1\nF", b"1 + 1\n"));
    assert!(rt; gives(alloc, b"A\n#define A 1\nA\n#undef A\nA", b"A 1 A\n"));
    assert!(rt;
        gives(
            alloc,
            b"#undef A\n#define A 1\n#define A /* */ 1\nA",
            b"1\n"
        )
    );
    assert!(rt; gives(alloc, b"#define A 1\n#undef A\n#define A 2\nA", b"2\n"));
    assert!(rt;
        gives(
            alloc,
            b"#define if while\n#define goto 1\nif goto",
            b"while 1\n"
        )
    );
    assert!(rt; gives(alloc, b"#define S \"a\"\nS \"b\" S", b"\"aba\"\n"));
    assert!(rt; gives(alloc, b"#define E\nE a E", b"a\n"));
    assert!(rt; gives(alloc, b"#include <stdio.h>\nEOF NULL", b"( - 1 ) 0\n"));
    assert!(rt;
        gives(
            alloc,
            b"#define EOF 7\n#include <stdio.h>\nEOF",
            b"( - 1 )\n"
        )
    );
    assert!(rt; gives(alloc, b"#include<stdlib.h>/**/\nEOF NULL", b"EOF 0\n"));
}

#[test]
fn directives(rt: HostRuntime) {
    let alloc = rt.alloc();
    assert!(rt; gives(alloc, b"#\nx", b"x\n"));
    assert!(rt;
        gives(
            alloc,
            b"/* c */ # /* d */ define /* e */ A /* f\n */ 1 /* g */\nA",
            b"1\n"
        )
    );
    assert!(rt; gives(alloc, b"/*\n*/#define A/**/1\nA", b"1\n"));
    assert!(rt; gives(alloc, b"x /*\n*/ #define A 1\nA", b"x 1\n"));
    assert!(rt; refuses(alloc, b"#if 1", 6, 1, 1));
    assert!(rt; refuses(alloc, b" \n/* */  #else", 6, 2, 8));
    assert!(rt; refuses(alloc, b"#if /*", 6, 1, 1));
    assert!(rt; refuses(alloc, b"#define A /*", 2, 1, 11));
    assert!(rt; refuses(alloc, b"#define A/*", 2, 1, 10));
    assert!(rt; refuses(alloc, b"#define /*", 2, 1, 9));
    assert!(rt; refuses(alloc, b"#define @", 6, 1, 1));
    assert!(rt; refuses(alloc, b"#define A 1\n#define A @", 1, 2, 11));
    assert!(rt; refuses(alloc, b"#define A #", 1, 1, 11));
    assert!(rt; refuses(alloc, b"#define A 'ab'", 3, 1, 11));
    assert!(rt; refuses(alloc, b"#define A 08", 5, 1, 11));
    assert!(rt; refuses(alloc, b"#define A+1", 6, 1, 1));
    assert!(rt; refuses(alloc, b"#define", 6, 1, 1));
    assert!(rt; refuses(alloc, b"#define 1", 6, 1, 1));
    assert!(rt; refuses(alloc, b"#define __atac_use 1", 6, 1, 1));
    assert!(rt; refuses(alloc, b"#undef __atac_use", 6, 1, 1));
    assert!(rt; refuses(alloc, b"#undef A B", 6, 1, 1));
    assert!(rt; refuses(alloc, b"#undef A @", 6, 1, 1));
    assert!(rt; refuses(alloc, b"#undef A /*", 2, 1, 10));
    assert!(rt; refuses(alloc, b"#include <stdio.h>>", 6, 1, 1));
    assert!(rt; refuses(alloc, b"#include < stdio.h>", 6, 1, 1));
    assert!(rt; refuses(alloc, b"#include \"stdio.h\"", 6, 1, 1));
    assert!(rt; refuses(alloc, b"#include <stdio.h>/*", 2, 1, 19));
    assert!(rt; refuses(alloc, b"#define A 1\n/**/ # define /*\n*/ A 2", 7, 3, 4));
}

#[test]
fn refusals(rt: HostRuntime) {
    let alloc = rt.alloc();
    assert!(rt; refuses(alloc, b"int main(void){return @;}", 1, 1, 23));
    assert!(rt; refuses(alloc, b"x # y", 1, 1, 3));
    assert!(rt; refuses(alloc, b"int main(void){/*", 2, 1, 16));
    assert!(rt; refuses(alloc, b"int main(void){char c='ab';return 0;}", 3, 1, 23));
    assert!(rt; refuses(alloc, b"int main(void){return '\\q';}", 4, 1, 23));
    assert!(rt; refuses(alloc, b"int main(void){return 08;}", 5, 1, 23));
    assert!(rt; refuses(alloc, b"#define A 1\n#define A 2", 7, 2, 9));
    assert!(rt; refuses(alloc, b"int main(void){goto a;}", 9, 1, 16));
    assert!(rt; refuses(alloc, b"#define A goto\n x A", 9, 2, 4));
}

#[test]
fn places(rt: HostRuntime) {
    let alloc = rt.alloc();
    assert_eq!(rt;
        only_place(alloc, b"#define A A\nA"),
        Some(Pos { line: 2, col: 1 })
    );
    assert_eq!(rt;
        only_place(alloc, b"\n \"a\"\n\"b\""),
        Some(Pos { line: 2, col: 2 })
    );
}

#[test]
fn limits(rt: HostRuntime) -> Result<(), Fail> {
    let alloc = rt.alloc();
    let most = repeated(alloc, b"int main(void){", b';', 99_993, b"}")?;
    assert!(rt; read(alloc, &most, TextKind::Plain).is_ok());
    let more = repeated(alloc, b"int main(void){", b';', 99_994, b"}")?;
    assert!(rt; refuses(alloc, &more, 8, 1, 100_010));
    assert!(rt; read(alloc, &more, TextKind::Probed).is_ok());
    Ok(())
}

// Each of twenty macros stands for two of the one before.
fn doubling(alloc: Global, first: &[u8]) -> Result<Vec<u8>, Fail> {
    let mut text = Vec::new(alloc);
    text.extend_from_slice(b"#define A ")?;
    text.extend_from_slice(first)?;
    for c in b'B'..b'U' {
        text.extend_from_slice(b"\n#define ")?;
        text.extend_from_slice(&[c, b' ', c - 1, b' ', c - 1])?;
    }
    text.extend_from_slice(b"\nT")?;
    Ok(text)
}

#[test]
fn bombs(rt: HostRuntime) -> Result<(), Fail> {
    let alloc = rt.alloc();
    assert!(rt; refuses(alloc, &doubling(alloc, b"0 0")?, 8, 21, 1));
    assert!(rt; refuses(alloc, &doubling(alloc, b"goto")?, 8, 21, 1));
    assert!(rt; refuses(alloc, &doubling(alloc, b"")?, 8, 21, 1));
    Ok(())
}
