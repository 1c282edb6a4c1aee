//! The section of a run: its input's name, its output, and the line of its end.

ghost use Rattle.std.specs.Prelude.{◌≡◌, ◌++◌, ◌∷◌, [], length, string_bytes, OnOk, IfOk, codes};
ghost use Rattle.std.specs.Fmt.{decimal};
ghost use Rattle.std.specs.List.{flat_map};
ghost use Rattle.atac_programs.specs.Sections.{fault_text, end_text, end_line_of, ended_line, section_of};

use c_base::place::NoMemory;
use c_meaning::end::{End, RunEnd};
use c_store::value::Fault;
use std::alloc::{AllocError, Global};

fn fault_name(fault: Fault) -> &'static str
    ensures { result.now ≡ fault_text fault }
{
    match fault {
        Fault::DivideByZero => "1 DivideByZero",
        Fault::Overflow => "2 Overflow",
        Fault::ShiftCount => "3 ShiftCount",
        Fault::Null => "4 Null",
        Fault::Dangling => "5 Dangling",
        Fault::OutOfBounds => "6 OutOfBounds",
        Fault::Uninitialised => "7 Uninitialised",
        Fault::OtherArray => "8 OtherArray",
        Fault::WriteLiteral => "9 WriteLiteral",
        Fault::NoResult => "10 NoResult",
    }
}

fn number(alloc: Global, n: u64) -> Result<String, AllocError>
    ensures { IfOk result (λ s. string_bytes s ≡ decimal n) }
{
    n.to_string(alloc)
}

/// Appends how a run ended.
fn put_end(text: &mut Vec<u8>, alloc: Global, end: &End) -> Result<(), AllocError>
    ensures { OnOk result (text.new.items ≡ text.old.items ++ end_text end.now) }
{
    match end {
        End::Returned(status) => {
            text.extend_from_slice(b"returned ")?;
            text.extend_from_slice(status.to_string(alloc)?.as_bytes())
        }
        End::Exited(status) => {
            text.extend_from_slice(b"exited ")?;
            text.extend_from_slice(status.to_string(alloc)?.as_bytes())
        }
        End::Fault(fault, function) => {
            text.extend_from_slice(b"fault ")?;
            text.extend_from_slice(fault_name(*fault).as_bytes())?;
            text.extend_from_slice(b" in ")?;
            text.extend_from_slice(function.bytes())
        }
        End::Turns => text.extend_from_slice(b"turn limit"),
        End::Depth => text.extend_from_slice(b"depth limit"),
        End::Room => text.extend_from_slice(b"room limit"),
    }
}

/// Appends a number between two words.
fn put_number(text: &mut Vec<u8>, alloc: Global, before: &[u8], n: u64) -> Result<(), AllocError>
    ensures { OnOk result (text.new.items ≡ text.old.items ++ (before.now ++ decimal n)) }
{
    text.extend_from_slice(before)?;
    text.extend_from_slice(number(alloc, n)?.as_bytes())
}

/// Appends the line that says how the run ended, and what it took.
fn put_end_line(text: &mut Vec<u8>, alloc: Global, run: &RunEnd) -> Result<(), AllocError>
    ensures { OnOk result (text.new.items ≡ text.old.items ++ end_line_of run.now.output run.now.turns run.now.end) }
{
    text.extend_from_slice(b"== ")?;
    put_end(text, alloc, &run.end)?;
    put_number(text, alloc, b" turns ", run.turns)?;
    put_number(text, alloc, b" bytes ", u64::from(run.output.len()))?;
    text.extend_from_slice(b"\n")
}

/// Appends the section of a run: the input's name, the output, and the line of its end.
fn put_section(
    text: &mut Vec<u8>,
    alloc: Global,
    input: &str,
    run: &RunEnd,
) -> Result<(), AllocError>
    ensures { OnOk result (text.new.items ≡ text.old.items ++ section_of input.now run.now.output run.now.turns run.now.end) }
{
    text.extend_from_slice(b"== ")?;
    text.extend_from_slice(input.as_bytes())?;
    text.extend_from_slice(b"\n")?;
    text.extend_from_slice(run.output.bytes())?;
    text.extend_from_slice(b"\n")?;
    put_end_line(text, alloc, run)
}

/// The section of a run.
pub fn section_of_run(alloc: Global, input: &str, run: &RunEnd) -> Result<Vec<u8>, NoMemory>
    ensures { IfOk result (λ text. text.items ≡ section_of input.now run.now.output run.now.turns run.now.end) }
{
    let mut text = Vec::new(alloc);
    match put_section(&mut text, alloc, input, run) {
        Ok(()) => Ok(text),
        Err(_) => Err(NoMemory),
    }
}

// Appends the line of each end.
fn put_end_lines(text: &mut Vec<u8>, alloc: Global, ends: &[RunEnd]) -> Result<(), AllocError>
    ensures { OnOk result (text.new.items ≡ text.old.items ++ flat_map ended_line ends.now) }
{
    for end in ends {
        put_end_line(text, alloc, end)?;
    }
    Ok(())
}

/// The lines of how some runs ended.
pub fn end_lines(alloc: Global, ends: &[RunEnd]) -> Result<Vec<u8>, NoMemory>
    ensures { IfOk result (λ text. text.items ≡ flat_map ended_line ends.now) }
{
    let mut text = Vec::new(alloc);
    put_end_lines(&mut text, alloc, ends)?;
    Ok(text)
}
