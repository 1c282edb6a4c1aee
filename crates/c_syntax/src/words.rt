// Marks, names and the parts of a program that hold no expression, written back as tokens.

ghost use Rattle.std.specs.Prelude.{◌≡◌, ◌++◌, OnOk};
ghost use Rattle.c_syntax.specs.Forms.{kinds};
ghost use Rattle.c_syntax.specs.Grammar.{binary_mark, assign_mark, unary_mark, consts_form, stars_form, named_form, maybe_named_form, comma_form, marks_form, maybe_line_form};

use crate::token::{Key, Mark, ProbeWord};
use crate::tree::{BinaryOp, Named, ProbeMark, ProgramLine, Star, UnaryOp};
use crate::writer::Writer;
use c_base::place::NoMemory;

/// The mark of an operator between two operands (C89, 3.3.5 to 3.3.12).
pub fn mark_of(op: BinaryOp) -> Mark
    ensures { result ≡ binary_mark op }
{
    match op {
        BinaryOp::Mul => Mark::Star,
        BinaryOp::Div => Mark::Slash,
        BinaryOp::Rem => Mark::Percent,
        BinaryOp::Add => Mark::Plus,
        BinaryOp::Sub => Mark::Minus,
        BinaryOp::Shl => Mark::ShiftLeft,
        BinaryOp::Shr => Mark::ShiftRight,
        BinaryOp::Lt => Mark::Less,
        BinaryOp::Gt => Mark::Greater,
        BinaryOp::Le => Mark::LessEqual,
        BinaryOp::Ge => Mark::GreaterEqual,
        BinaryOp::Eq => Mark::EqualEqual,
        BinaryOp::Ne => Mark::NotEqual,
        BinaryOp::BitAnd => Mark::Ampersand,
        BinaryOp::BitXor => Mark::Caret,
        BinaryOp::BitOr => Mark::Bar,
    }
}

/// The mark of an assignment (C89, 3.3.16); `=` for the comparisons, which stand in none.
pub fn assign_mark_of(op: Option<BinaryOp>) -> Mark
    ensures { result ≡ assign_mark op }
{
    match op {
        None => Mark::Equal,
        Some(BinaryOp::Mul) => Mark::StarEqual,
        Some(BinaryOp::Div) => Mark::SlashEqual,
        Some(BinaryOp::Rem) => Mark::PercentEqual,
        Some(BinaryOp::Add) => Mark::PlusEqual,
        Some(BinaryOp::Sub) => Mark::MinusEqual,
        Some(BinaryOp::Shl) => Mark::LeftEqual,
        Some(BinaryOp::Shr) => Mark::RightEqual,
        Some(BinaryOp::BitAnd) => Mark::AndEqual,
        Some(BinaryOp::BitXor) => Mark::CaretEqual,
        Some(BinaryOp::BitOr) => Mark::BarEqual,
        Some(_) => Mark::Equal,
    }
}

/// The mark of an operator in front of its operand (C89, 3.3.3).
pub fn unary_mark_of(op: UnaryOp) -> Mark
    ensures { result ≡ unary_mark op }
{
    match op {
        UnaryOp::AddressOf => Mark::Ampersand,
        UnaryOp::Deref => Mark::Star,
        UnaryOp::Plus => Mark::Plus,
        UnaryOp::Minus => Mark::Minus,
        UnaryOp::Flip => Mark::Tilde,
        UnaryOp::Not => Mark::Bang,
    }
}

/// Writes so many keys `const`.
#[tactic(auto, using(crate::proofs::Lists::next_const))]
pub fn put_consts(out: &mut Writer, count: u32) -> Result<(), NoMemory>
    ensures { OnOk result (out.new ≡ out.old ++ kinds (consts_form count)) }
{
    for _ in 0..count {
        out.key(Key::Const)?;
    }
    Ok(())
}

/// Writes the stars of a declarator or type name (C89, 3.5.4.1).
pub fn put_stars(out: &mut Writer, stars: &[Star]) -> Result<(), NoMemory>
    ensures { OnOk result (out.new ≡ out.old ++ kinds (stars_form stars.now)) }
{
    for star in stars {
        out.mark(Mark::Star)?;
        put_consts(out, star.consts)?;
    }
    Ok(())
}

/// Writes a declared name, and the probe round it.
pub fn put_named(out: &mut Writer, name: &Named) -> Result<(), NoMemory>
    ensures { OnOk result (out.new ≡ out.old ++ kinds (named_form name.now)) }
{
    match &name.probe {
        None => out.word(&name.text),
        Some(probe) => {
            out.probe(ProbeWord::Def)?;
            out.mark(Mark::LeftParen)?;
            out.number(&probe.number)?;
            out.mark(Mark::Comma)?;
            out.word(&name.text)?;
            out.mark(Mark::RightParen)
        }
    }
}

/// Writes a name, where there is one.
pub fn put_maybe_named(out: &mut Writer, name: &Option<Named>) -> Result<(), NoMemory>
    ensures { OnOk result (out.new ≡ out.old ++ kinds (maybe_named_form name.now)) }
{
    match name {
        None => Ok(()),
        Some(name) => put_named(out, name),
    }
}

/// Writes a comma, where there is one.
pub fn put_comma(out: &mut Writer, comma: bool) -> Result<(), NoMemory>
    ensures { OnOk result (out.new ≡ out.old ++ kinds (comma_form comma)) }
{
    if comma {
        out.mark(Mark::Comma)?;
    }
    Ok(())
}

/// Writes the block probes before a statement or a body.
pub fn put_marks(out: &mut Writer, marks: &[ProbeMark]) -> Result<(), NoMemory>
    ensures { OnOk result (out.new ≡ out.old ++ kinds (marks_form marks.now)) }
{
    for probe in marks {
        out.probe(ProbeWord::Block)?;
        out.mark(Mark::LeftParen)?;
        out.number(&probe.number)?;
        out.mark(Mark::RightParen)?;
        out.mark(Mark::Colon)?;
    }
    Ok(())
}

/// Writes the line that names the program, where there is one.
pub fn put_line(out: &mut Writer, line: &Option<ProgramLine>) -> Result<(), NoMemory>
    ensures { OnOk result (out.new ≡ out.old ++ kinds (maybe_line_form line.now)) }
{
    match line {
        None => Ok(()),
        Some(line) => {
            out.probe(ProbeWord::Program)?;
            out.mark(Mark::LeftParen)?;
            out.string(&line.digest)?;
            out.mark(Mark::RightParen)?;
            out.mark(Mark::Semicolon)
        }
    }
}
