//! The scan of a text, piece by piece.

ghost use Rattle.std.specs.Prelude.{◌≡◌, ◌+◌, ◌<◌, ◌≤◌, ◌^◌, [], ◌∷◌, ◌++◌, length, drop, nat_eq, map, replicate, false, OnOk, IfOk, IfErr};
ghost use Rattle.std.specs.List.{list_any};
ghost use Rattle.c_lex_pieces.specs.Front.{front, HasLength};
ghost use Rattle.c_lex.specs.Macros.{spelled, bytes_of};
ghost use Rattle.c_lex.specs.Places.{moved};
ghost use Rattle.c_lex.specs.Line.{line_of};
ghost use Rattle.c_lex.specs.Scan.{class_taken, directive_taken, gap_taken, goes, second_token, taken, token_taken};
ghost use Rattle.c_lex.specs.Scanner.{AllClosed, IsRefusal, state_of};

use crate::directive::{gap, read};
use crate::expand::expand;
use crate::line::cut_line;
use crate::obey::{Outcome, obey};
use crate::output::Output;
use crate::places::behind;
use crate::table::{Piece, Table};
use c_base::place::{NoMemory, Pos};
use c_lex_pieces::front::{Class, Front};
use std::alloc::Global;

/// Why a text has no tokens: its first refusal, by a number from 1 to 9, with the place; or memory was wanted.
#[derive(Clone, Copy, Debug, PartialEq, Eq)]
pub enum LexRefusal {
    At(u8, Pos),
    NoMemory,
}

impl From<NoMemory> for LexRefusal {
    ghost use Rattle.c_lex.specs.declared.scan.LexRefusal.TheVariants.{NoMemory};

    ghost from_gives = { λ _ e. e ≡ NoMemory };

    fn from(_error: NoMemory) -> LexRefusal {
        LexRefusal::NoMemory
    }
}

/// What is known before a piece: its place, whether its line has held blanks and comments alone, what names stand for,
/// which are open, and the tokens so far.
#[derive(Drop)]
pub struct Scan<'t> {
    pub alloc: Global,
    pub place: Pos,
    pub fresh: bool,
    pub table: Table<'t>,
    pub opened: Vec<bool>,
    pub out: Output,
}

fn newline_in(bytes: &[u8]) -> bool
    ensures { result ≡ list_any (λ b. nat_eq b 10) bytes.now }
{
    bytes.contains(&b'\n')
}

/// The place of a line's second token.
fn second_place(start: Pos, pieces: &[Piece<'_>]) -> Pos
    requires line { start.line + bytes_of (map spelled pieces.now) < 2 ^ 32 }
    requires col { start.col + bytes_of (map spelled pieces.now) < 2 ^ 32 }
    ensures { result ≡ second_token false start (map spelled pieces.now) }
{
    let mut place = start;
    let mut seen = false;
    for piece in pieces {
        if !gap(piece.class) {
            if seen {
                return place;
            }
            seen = true;
        }
        place = behind(place, piece.bytes);
    }
    place
}

/// Closed marks for all rows.
fn close(opened: &mut Vec<bool>, rows: usize) -> Result<(), NoMemory>
    requires { opened.old.items ≡ replicate (length opened.old.items) false }
    ensures { OnOk result (opened.new.items ≡ replicate rows false) }
{
    match opened.resize(rows, false) {
        Ok(()) => Ok(()),
        Err(_) => Err(NoMemory),
    }
}

impl<'t> Scan<'t> {
    fn take_gap(&mut self, bytes: &[u8], fresh: bool)
        requires line { self.old.place.line + length bytes.now < 2 ^ 32 }
        requires col { self.old.place.col + length bytes.now < 2 ^ 32 }
        ensures taken { gap_taken fresh bytes.now (state_of self.old) ≡ goes (length bytes.now) (state_of self.new) }
        ensures closed { AllClosed self.old → AllClosed self.new }
        ensures line { self.new.place.line ≤ self.old.place.line + length bytes.now }
        ensures col { self.new.place.col ≤ self.old.place.col + length bytes.now }
    {
        self.fresh = fresh;
        self.place = behind(self.place, bytes);
    }

    fn take_token(&mut self, class: Class, bytes: &'t [u8]) -> Result<(), LexRefusal>
        requires closed { AllClosed self.old }
        requires line { self.old.place.line + length bytes.now < 2 ^ 32 }
        requires col { self.old.place.col + length bytes.now < 2 ^ 32 }
        ensures taken { OnOk result (token_taken class bytes.now (state_of self.old) ≡ goes (length bytes.now) (state_of self.new)) }
        ensures refused { IfErr result (λ e. IsRefusal e (token_taken class bytes.now (state_of self.old))) }
        ensures closed { OnOk result (AllClosed self.new) }
        ensures line { OnOk result (self.new.place.line ≤ self.old.place.line + length bytes.now) }
        ensures col { OnOk result (self.new.place.col ≤ self.old.place.col + length bytes.now) }
    {
        let piece = Piece { class, bytes };
        let all = expand(
            self.alloc,
            &self.table,
            &mut self.opened,
            &mut self.out,
            piece,
            self.place,
        )?;
        if !all {
            return Err(LexRefusal::At(8, self.place));
        }
        if self.out.left_out {
            return Err(LexRefusal::At(9, self.place));
        }
        self.fresh = false;
        self.place = behind(self.place, bytes);
        Ok(())
    }

    fn take_directive(&mut self, text: &'t [u8]) -> Result<usize, LexRefusal>
        requires begins { 0 < length text.now }
        requires closed { AllClosed self.old }
        requires line { self.old.place.line + length text.now < 2 ^ 32 }
        requires col { self.old.place.col + length text.now < 2 ^ 32 }
        ensures taken { IfOk result (λ n. directive_taken (line_of (drop 1 text.now)) text.now (state_of self.old) ≡ goes n (state_of self.new)) }
        ensures refused { IfErr result (λ e. IsRefusal e (directive_taken (line_of (drop 1 text.now)) text.now (state_of self.old))) }
        ensures closed { OnOk result (AllClosed self.new) }
        ensures within { IfOk result (λ n. (1 ≤ n) × (n ≤ length text.now)) }
        ensures line { IfOk result (λ n. self.new.place.line ≤ self.old.place.line + n) }
        ensures col { IfOk result (λ n. self.new.place.col ≤ self.old.place.col + n) }
    {
        let (hash, rest) = text.split_at(1);
        let line = cut_line(self.alloc, rest)?;
        let directive = read(self.alloc, &line.pieces, line.end)?;
        let place = behind(self.place, &text[..line.size + 1]);
        match obey(self.alloc, &mut self.table, directive)? {
            Outcome::Done => {}
            Outcome::AtHash => return Err(LexRefusal::At(6, self.place)),
            Outcome::AtStop(number) => return Err(LexRefusal::At(number, place)),
            Outcome::AtName => {
                let start = behind(self.place, hash);
                return Err(LexRefusal::At(7, second_place(start, &line.pieces)));
            }
        }
        close(&mut self.opened, self.table.len())?;
        self.place = place;
        Ok(line.size + 1)
    }

    fn take_piece(
        &mut self,
        class: Class,
        bytes: &'t [u8],
        text: &'t [u8],
    ) -> Result<usize, LexRefusal>
        requires begins { 0 < length text.now }
        requires bytes { (1 ≤ length bytes.now) × (length bytes.now ≤ length text.now) }
        requires closed { AllClosed self.old }
        requires line { self.old.place.line + length text.now < 2 ^ 32 }
        requires col { self.old.place.col + length text.now < 2 ^ 32 }
        ensures taken { IfOk result (λ n. class_taken class bytes.now text.now (state_of self.old) ≡ goes n (state_of self.new)) }
        ensures refused { IfErr result (λ e. IsRefusal e (class_taken class bytes.now text.now (state_of self.old))) }
        ensures closed { OnOk result (AllClosed self.new) }
        ensures within { IfOk result (λ n. (1 ≤ n) × (n ≤ length text.now)) }
        ensures line { IfOk result (λ n. self.new.place.line ≤ self.old.place.line + n) }
        ensures col { IfOk result (λ n. self.new.place.col ≤ self.old.place.col + n) }
    {
        match class {
            Class::Space => self.take_gap(bytes, self.fresh),
            Class::Newline => self.take_gap(bytes, true),
            Class::Comment => self.take_gap(bytes, self.fresh || newline_in(bytes)),
            Class::Hash => {
                if self.fresh {
                    return self.take_directive(text);
                }
                return Err(LexRefusal::At(1, self.place));
            }
            _ => self.take_token(class, bytes)?,
        }
        Ok(bytes.len())
    }

    /// Takes the piece in front of a text; gives its length.
    pub fn take(&mut self, found: Front, text: &'t [u8]) -> Result<usize, LexRefusal>
        requires begins { 0 < length text.now }
        requires found { HasLength found (length text.now) }
        requires closed { AllClosed self.old }
        requires line { self.old.place.line + length text.now < 2 ^ 32 }
        requires col { self.old.place.col + length text.now < 2 ^ 32 }
        ensures taken { IfOk result (λ n. taken found text.now (state_of self.old) ≡ goes n (state_of self.new)) }
        ensures refused { IfErr result (λ e. IsRefusal e (taken found text.now (state_of self.old))) }
        ensures closed { OnOk result (AllClosed self.new) }
        ensures within { IfOk result (λ n. (1 ≤ n) × (n ≤ length text.now)) }
        ensures line { IfOk result (λ n. self.new.place.line ≤ self.old.place.line + n) }
        ensures col { IfOk result (λ n. self.new.place.col ≤ self.old.place.col + n) }
    {
        match found {
            Front::Refused(number) => Err(LexRefusal::At(number, self.place)),
            Front::Piece(class, len) => {
                let (bytes, _) = text.split_at(len);
                self.take_piece(class, bytes, text)
            }
        }
    }
}
