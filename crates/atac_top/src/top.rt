//! The top call.

ghost use Rattle.std.specs.Prelude.{◌≡◌, ◌⊎◌, ◌↔◌, ◌++◌, ℕ, List, Option, IsTrue, map, string_bytes, Some, None, IfSome};
ghost use Rattle.atac_base.specs.Outside.{Rose};
ghost use Rattle.atac_programs.specs.Programs.{IsAccepted, program_in};
ghost use Rattle.atac_words.specs.Words.{reads};
ghost use Rattle.atac_steps.specs.Ends.{line_of, file_of, said_of};
ghost use Rattle.atac_steps.specs.Stops.{end_of};
ghost use Rattle.atac_commands.specs.Runs.{Runs, Tells, handed};
ghost use Rattle.atac_commands.specs.Claims.{Supposes, IsWatched, Shows, NoFault};
ghost use Rattle.atac_kept.specs.Commands.{ShowsKept};
ghost use Rattle.c_events.specs.declared.events.Event.{Event};
ghost use Rattle.atac_facts.specs.declared.fact.Fact.{Fact};
ghost use Rattle.cover_parts.specs.Covered.{Covered};
ghost use Rattle.cover_law.specs.Covers.{covers};

use atac_base::outside::{PutErr, Shelf, Sink};
use atac_commands::carry_out;
use atac_steps::{Status, Stop, fetch, put};
use atac_words::read_words;
use probe_watch::Watcher;
use std::alloc::Global;

/// Puts the line of a stop. It takes no memory, so it puts the line piece by piece.
fn tell<E: Sink>(err: &mut E, stop: &Stop<'_>)
    ensures { Tells (E.state err.old) (E.state err.new) (line_of (end_of stop.now)) }
{
    let _ = put_four(err, b"atac: ", stop.file(), stop.said(), b"\n");
}

/// Puts four pieces, and ends at the first that fails.
fn put_four<E: Sink>(err: &mut E, a: &[u8], b: &[u8], c: &[u8], d: &[u8]) -> Result<(), PutErr>
    ensures { Tells (E.state err.old) (E.state err.new) (a.now ++ (b.now ++ (c.now ++ d.now))) }
{
    err.put(a)?;
    err.put(b)?;
    err.put(c)?;
    err.put(d)
}

/// Reads the words, does what they ask for, and puts the line of a status other than `Done` to `err`.
///
/// `check P` fetches P, at most 1,048,576 bytes, refuses it where it isn't accepted, and puts the line of its counts to
/// `out`. `list P` does the same, refuses it where its c-uses and p-uses are more than 1,000,000, and puts the list of its
/// items. `run [-t N] P INPUT` fetches P, which may have probes, at most 67,108,864 bytes, and refuses it where it is no
/// program; fetches INPUT, at most 16,777,216 bytes; runs P on it within N turns, from 1 to 100,000,000, or 1,000,000; and puts
/// the section of this run to `out`. `cover [-t N] P INPUT1 .. INPUTn`, with 1 to 1,000 inputs, refuses P as `list` does,
/// does the same on each input in turn, and puts the report of what these runs cover behind the sections; where an input is
/// refused, the sections before it stand.
///
/// `instrument P OUT` refuses P as `check` does, or where its text with probes passes the limits, and keeps that text under OUT.
/// `run [-t N] P INPUT TRACE` does what `run` does, for a P with a program line, and keeps under TRACE what it held, a trace of
/// this program or nothing, with this run. `merge OUT TRACE1 .. TRACEn` puts the number of runs of the traces, which are of one
/// program, and keeps their sum under OUT. `report`, `show` and `hits P TRACE1 .. TRACEn` put what is told of P's items by the
/// sum of traces of P; `json P TRACE1 .. TRACEn` the report as JSON. There are 1 to 1,000 traces, each at most 67,108,864 bytes. What is
/// kept is kept as the last step.
///
/// `pick [-t N] P INPUT1 .. INPUTn` refuses P as `list` does, runs it on each input, and then puts which of these runs to keep so that
/// the others cover nothing besides, and the totals. `watch [-t N] P INPUT NAME`, with at most 2,000,000 turns, refuses P as `check`
/// does, tells the first of the watchers with that name the events of P's run on INPUT, and puts the section of the run and what the
/// watcher says. `self [-t N] SEED` makes a program and three inputs from the number SEED of 64 bits, covers them, tells the watcher
/// `blocks` of these runs, and puts a summary. No other watcher is told anything, and all are dropped.
///
/// All other words are no command. An operand doesn't begin with `-`; an empty one is a name like another.
///
/// `NoMemory` may come in place of each status but `Usage`. A put to `err` that fails leaves the status as it is.
#[tactic(auto, using(cover_law::proofs::Covering::covered_law))]
pub fn atac<S: Shelf, W: Sink, E: Sink>(
    alloc: Global,
    words: &Vec<String>,
    shelf: &mut S,
    out: &mut W,
    err: &mut E,
    watchers: Vec<Box<dyn Watcher>>,
) -> Status
    // The whole call: the answer to the words by what is found under their names, or a fault or want of memory
    // in its place; what was put by then; what the shelf says now; what the watcher said, where one was told; and the line.
    ensures runs { Runs (handed (λ w. called w) (λ w. stands_for w) (λ w. text_of w) watchers.items) (reads (map string_bytes words.now.items)) (S.state shelf.old) (S.state shelf.new)
        (W.state out.old) (W.state out.new) (E.state err.old) (E.state err.new) result }

    // Usage comes exactly where the words aren't read.
    ensures usage { result ≡ Status.Usage ↔ reads (map string_bytes words.now.items) ≡ None }

    // A fault is answered only where its count rose in this call.
    ensures read_fault { result ≡ Status.ReadFault → Rose (S.state shelf.old).read_faults (S.state shelf.new).read_faults }
    ensures keep_fault { result ≡ Status.KeepFault → Rose (S.state shelf.old).keep_faults (S.state shelf.new).keep_faults }
    ensures write_fault { result ≡ Status.WriteFault → Rose (W.state out.old).faults (W.state out.new).faults }

    // When the call is done, the sink gained and the shelf holds what the command says: the line of the program's counts; the list
    // of its items, each pair exactly where some walk of a function has it; the sections of its own runs, as the meaning of the
    // language has them, and the report of what these show; what is told of traces; the text with probes; the new trace.
    ensures headline { result ≡ Status.Done → IfSome (reads (map string_bytes words.now.items)) (λ command.
        Shows (handed (λ w. called w) (λ w. stands_for w) (λ w. text_of w) watchers.items) command (S.state shelf.old) (S.state shelf.new) (W.state out.old) (W.state out.new)) }

    // And what is said of a text that `instrument` kept is what its program says: `run` of it puts the section of the program's own
    // run, and keeps a trace that counts this run besides those so far; `merge` keeps a trace of all the runs of its traces; and what
    // is told of traces of a program's own runs is what these runs show.
    ensures kept { result ≡ Status.Done → IfSome (reads (map string_bytes words.now.items)) (λ command.
        ShowsKept command (S.state shelf.old) (S.state shelf.new) (W.state out.old) (W.state out.new)) }

    // A text is one program at most.
    ensures one_program { (source : List ℕ) (a b : IsAccepted source) → program_in b ≡ program_in a }

    // A block, an outcome, a pair or a p-use is shown exactly where positions of the run's events show it.
    ensures covered { (owner : ℕ → Option ℕ) (events : List Event) (fact : Fact) → IsTrue (covers owner events fact) ↔ Covered owner events fact }

    // Where the files are held, the program is understood, the watcher is there and no count of faults rose, the call is done, or
    // memory was wanted.
    ensures complete { IfSome (reads (map string_bytes words.now.items)) (λ command.
        Supposes command (S.state shelf.old).says
        → IsWatched (handed (λ w. called w) (λ w. stands_for w) (λ w. text_of w) watchers.items) command
        → NoFault (S.state shelf.old) (S.state shelf.new) (W.state out.old) (W.state out.new)
        → (result ≡ Status.Done) ⊎ (result ≡ Status.NoMemory)) }
{
    let Some(asked) = read_words(words) else {
        let _ = put_four(err, b"atac: ", b"", b"bad usage", b"\n");
        return Status::Usage;
    };
    match carry_out(alloc, asked, watchers, shelf, out) {
        Ok(()) => Status::Done,
        Err(stop) => {
            tell(err, &stop);
            stop.status()
        }
    }
}
