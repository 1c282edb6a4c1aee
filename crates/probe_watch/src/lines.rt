//! Lines of events, as they are appended to a text.

ghost use Rattle.std.specs.Prelude.{◌≡◌, ◌++◌, OnOk};
ghost use Rattle.std.specs.Fmt.{decimal};
ghost use Rattle.atac_base.specs.Outside.{IsFront};
ghost use Rattle.probe_watch.specs.Texts.{cell_text, event_words, event_line, count_line};

use c_events::events::{Cell, Event};
use std::alloc::AllocError;

/// Appends a number in decimal. After an `Err` a front of it may stand there.
pub fn put_number(text: &mut Vec<u8>, n: u64) -> Result<(), AllocError>
    ensures whole { OnOk result (text.new.items ≡ text.old.items ++ decimal n) }
    ensures front { IsFront text.old.items text.new.items }
{
    if n >= 10 {
        put_number(text, n / 10)?;
    }
    text.push(48 + (n % 10) as u8)?;
    Ok(())
}

// Appends a word or a mark, and a number in decimal.
fn put(text: &mut Vec<u8>, before: &[u8], n: u64) -> Result<(), AllocError>
    ensures whole { OnOk result (text.new.items ≡ text.old.items ++ (before.now ++ decimal n)) }
    ensures front { IsFront text.old.items text.new.items }
{
    text.extend_from_slice(before)?;
    put_number(text, n)
}

// Appends a blank, and the cell's instance and index.
fn put_cell(text: &mut Vec<u8>, cell: Cell) -> Result<(), AllocError>
    ensures whole { OnOk result (text.new.items ≡ text.old.items ++ cell_text cell) }
    ensures front { IsFront text.old.items text.new.items }
{
    put(text, b" ", cell.instance)?;
    put(text, b":", u64::from(cell.index))
}

// Appends the words of an event.
fn put_words(text: &mut Vec<u8>, event: Event) -> Result<(), AllocError>
    ensures whole { OnOk result (text.new.items ≡ text.old.items ++ event_words event) }
    ensures front { IsFront text.old.items text.new.items }
{
    match event {
        Event::Block(k) => put(text, b"block ", u64::from(k)),
        Event::Def(d, cell) => {
            put(text, b"def ", u64::from(d))?;
            put_cell(text, cell)
        }
        Event::Use(u, cell, a) => {
            put(text, b"use ", u64::from(u))?;
            put_cell(text, cell)?;
            put(text, b" ", a)
        }
        Event::Test(k, o, a) => {
            put(text, b"test ", u64::from(k))?;
            put(text, b" ", u64::from(o))?;
            put(text, b" ", a)
        }
    }
}

/// Appends the line of an event. After an `Err` a front of it may stand there.
pub fn put_event(text: &mut Vec<u8>, event: Event) -> Result<(), AllocError>
    ensures whole { OnOk result (text.new.items ≡ text.old.items ++ event_line event) }
    ensures front { IsFront text.old.items text.new.items }
{
    put_words(text, event)?;
    text.push(b'\n')?;
    Ok(())
}

/// Appends the line of a block, with how often it was entered. After an `Err` a front of it may stand there.
pub fn put_count(text: &mut Vec<u8>, k: u64, count: u64) -> Result<(), AllocError>
    ensures whole { OnOk result (text.new.items ≡ text.old.items ++ count_line k count) }
    ensures front { IsFront text.old.items text.new.items }
{
    put(text, b"block ", k)?;
    put(text, b" ", count)?;
    text.push(b'\n')?;
    Ok(())
}
