//! Rows of the type checker: reads a text a line, in which a backquote stands for a line's end, and prints how many
//! structures, functions, variables and string literals the program has, or its refusal. A line that begins with `~` is
//! a text with probes.
#![tactic(auto)]

use c_base::place::Pos;
use c_front::{FrontRefusal, read};
use c_lex::TextKind;
use c_tree::program::Program;
use std::alloc::{AllocError, Global};
use std::io;

// The text of a row, and its kind.
fn text_of_row(alloc: Global, row: &str) -> Result<(Vec<u8>, TextKind), AllocError> {
    let mut text = Vec::new(alloc);
    let mut kind = TextKind::Plain;
    for (i, byte) in row.as_bytes().iter().enumerate() {
        if i == 0 && *byte == b'~' {
            kind = TextKind::Probed;
        } else if *byte == b'`' {
            text.push(b'\n')?;
        } else {
            text.push(*byte)?;
        }
    }
    Ok((text, kind))
}

fn refused(alloc: Global, number: u8, pos: Pos) -> Result<String, AllocError> {
    format!(in alloc; "refused {} at {}:{}", number, pos.line, pos.col)
}

fn accepted(alloc: Global, program: &Program) -> Result<String, AllocError> {
    let tables = program.tables();
    let structures = tables.structures();
    let functions = tables.functions();
    let variables = tables.variables();
    let strings = tables.literals();
    format!(in alloc;
        "accepted {structures} structures, {functions} functions, {variables} variables, {strings} strings"
    )
}

// What a row prints.
fn answer(alloc: Global, row: &str) -> Result<String, AllocError> {
    let (text, kind) = text_of_row(alloc, row)?;
    if text.len() > 1048576 {
        return format!(in alloc; "too long");
    }
    match read(alloc, text.as_slice(), kind) {
        Ok(program) => accepted(alloc, &program),
        Err(FrontRefusal::At(number, pos)) => refused(alloc, number, pos),
        Err(FrontRefusal::NoMemory) => format!(in alloc; "no memory"),
    }
}

fn main(rt: HostRuntime) -> io::Result<()> {
    for line in rt.lines(rt.alloc()) {
        let text = answer(rt.alloc(), line?.as_str())?;
        println!(rt; "{text}")?;
    }
    Ok(())
}
