//! Copies of names, notes and probe marks, and what lists and boxes want.

ghost use Rattle.std.specs.Prelude.{◌≡◌, ◌++◌, [], ◌∷◌, IfOk, OnOk};
ghost use Rattle.c_syntax.specs.View.{note_shape};

use c_base::place::NoMemory;
use c_syntax::tree::{Named, Note, ProbeMark, ProgramLine, Star};
use c_type_rules::kinds::copy;
use std::alloc::Global;

/// A value in a box.
pub fn boxed<T: Drop>(alloc: Global, value: T) -> Result<Box<T>, NoMemory>
    ensures { IfOk result (λ b. b.value ≡ value) }
{
    match Box::new(alloc, value) {
        Ok(b) => Ok(b),
        Err(_) => Err(NoMemory),
    }
}

/// Appends to a list.
pub fn put<T: Drop>(list: &mut Vec<T>, item: T) -> Result<(), NoMemory>
    ensures { OnOk result (list.new.items ≡ list.old.items ++ item ∷ []) }
{
    match list.push(item) {
        Ok(()) => Ok(()),
        Err(_) => Err(NoMemory),
    }
}

/// Appends what stands in a box to a list.
pub fn put_inner<T: Drop>(list: &mut Vec<T>, item: Box<T>) -> Result<(), NoMemory>
    ensures { OnOk result (list.new.items ≡ list.old.items ++ item.value ∷ []) }
{
    put(list, Box::into_inner(item))
}

/// A copy of what is known of an expression.
pub fn copy_note(alloc: Global, note: &Note) -> Result<Note, NoMemory>
    ensures { IfOk result (λ n. note_shape n ≡ note_shape note.now) }
{
    match note {
        Note::Bare => Ok(Note::Bare),
        Note::Typed(kind, number) => Ok(Note::Typed(copy(kind, alloc)?, *number)),
        Note::Known(kind, value) => Ok(Note::Known(copy(kind, alloc)?, *value)),
    }
}

/// The same stars.
pub fn copy_stars(alloc: Global, stars: &[Star]) -> Result<Vec<Star>, NoMemory>
    ensures { IfOk result (λ copies. copies.items ≡ stars.now) }
{
    let mut copies = Vec::new(alloc);
    for star in stars {
        put(
            &mut copies,
            Star {
                pos: star.pos,
                consts: star.consts,
            },
        )?;
    }
    Ok(copies)
}

/// The same probe mark.
pub fn copy_mark(alloc: Global, mark: &ProbeMark) -> Result<ProbeMark, NoMemory>
    ensures { IfOk result (λ copied. copied ≡ mark.now) }
{
    let number = mark.number.copy(alloc)?;
    Ok(ProbeMark {
        pos: mark.pos,
        number,
    })
}

/// The same probe marks.
pub fn copy_marks(alloc: Global, marks: &[ProbeMark]) -> Result<Vec<ProbeMark>, NoMemory>
    ensures { IfOk result (λ copies. copies.items ≡ marks.now) }
{
    let mut copies = Vec::new(alloc);
    for mark in marks {
        let copied = copy_mark(alloc, mark)?;
        put(&mut copies, copied)?;
    }
    Ok(copies)
}

fn copy_maybe_mark(alloc: Global, mark: &Option<ProbeMark>) -> Result<Option<ProbeMark>, NoMemory>
    ensures { IfOk result (λ copied. copied ≡ mark.now) }
{
    match mark {
        None => Ok(None),
        Some(mark) => Ok(Some(copy_mark(alloc, mark)?)),
    }
}

/// The same name.
pub fn copy_named(alloc: Global, name: &Named) -> Result<Named, NoMemory>
    ensures { IfOk result (λ copied. copied ≡ name.now) }
{
    let text = name.text.copy(alloc)?;
    let probe = copy_maybe_mark(alloc, &name.probe)?;
    Ok(Named {
        pos: name.pos,
        text,
        probe,
    })
}

/// The same name, if there is one.
pub fn copy_maybe_named(alloc: Global, name: &Option<Named>) -> Result<Option<Named>, NoMemory>
    ensures { IfOk result (λ copied. copied ≡ name.now) }
{
    match name {
        None => Ok(None),
        Some(name) => Ok(Some(copy_named(alloc, name)?)),
    }
}

/// The same first line.
pub fn copy_line(alloc: Global, line: &Option<ProgramLine>) -> Result<Option<ProgramLine>, NoMemory>
    ensures { IfOk result (λ copied. copied ≡ line.now) }
{
    match line {
        None => Ok(None),
        Some(line) => {
            let digest = line.digest.copy(alloc)?;
            Ok(Some(ProgramLine {
                pos: line.pos,
                digest,
            }))
        }
    }
}
