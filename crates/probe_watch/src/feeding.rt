//! One of several watchers is told the events of runs.

ghost use Rattle.std.specs.Prelude.{◌≡◌, ◌<◌, ◌≤◌, ◌++◌, ◌↔◌, List, length, slice_index_or, Some, None, Err, MatchOption, IfOk, OnOk, OnErr, map, find};
ghost use Rattle.std.specs.Str.{bytes_eq};
ghost use Rattle.c_events.specs.declared.events.Event.{Event};
ghost use Rattle.c_meaning.specs.Sources.{source_of};
ghost use Rattle.atac_base.specs.Outside.{IsFront};
ghost use Rattle.probe_watch.specs.Logs.{bytes_in, ends_of, log_of};

use crate::told::{Told, Wording};
use crate::watcher::Watcher;
use atac_base::probes::Probes;
use c_base::place::NoMemory;
use c_machine::run;
use c_meaning::end::RunEnd;
use c_tree::program::Program;
use std::alloc::Global;
use std::marker::{Brand, PhantomData};

/// Why nothing was said: no watcher has the name; or memory was wanted.
#[derive(Clone, Copy, Debug, PartialEq, Eq)]
pub enum FeedRefusal {
    NoWatcher,
    NoMemory,
}

// Whether it has that name.
fn is_called(watcher: &Box<dyn Watcher>, name: &str) -> bool
    ensures { result ≡ bytes_eq (called watcher.now) name.now }
{
    watcher.name() == name
}

// The place of the first of that name.
fn place_called(watchers: &[Box<dyn Watcher>], name: &str) -> Option<usize>
    ensures { MatchOption result (find (λ w. bytes_eq (called w) name.now) watchers.now ≡ None) (λ i. (i < length watchers.now) × ((d : _) → find (λ w. bytes_eq (called w) name.now) watchers.now ≡ Some (slice_index_or watchers.now i d))) }
{
    for (i, watcher) in watchers.iter().enumerate() {
        if is_called(watcher, name) {
            return Some(i);
        }
    }
    None
}

// The first of that name. The others are dropped.
fn first_called(watchers: Vec<Box<dyn Watcher>>, name: &str) -> Option<Box<dyn Watcher>>
    ensures { result ≡ find (λ w. bytes_eq (called w) name.now) watchers.items }
{
    let mut watchers = watchers;
    let i = place_called(watchers.as_slice(), name)?;
    Some(watchers.swap_remove(i))
}

// Runs the program on each input, in their order. The probes are told what these runs log.
fn run_each<P: Probes>(
    alloc: Global,
    program: &Program,
    inputs: &[Vec<u8>],
    limit: u64,
    probes: &mut P,
) -> Result<Vec<RunEnd>, NoMemory>
    requires { limit ≤ 1000000000 }
    ensures ends { IfOk result (λ ends. ends.items ≡ ends_of (source_of program.now) limit (map bytes_in inputs.now)) }
    ensures told { OnOk result ((h : List Event) → P.stands_for probes.old h → P.stands_for probes.new (h ++ log_of (source_of program.now) limit (map bytes_in inputs.now))) }
{
    let mut ends = Vec::new(alloc);
    for input in inputs {
        let end = run(alloc, program, input.as_slice(), limit, probes)?;
        ends.push(end)?;
    }
    Ok(ends)
}

// Runs the program on each input, and appends what the watcher says of what these runs log.
fn feed_one<T: Wording>(
    alloc: Global,
    watcher: Box<dyn Watcher>,
    program: &Program,
    inputs: &[Vec<u8>],
    limit: u64,
    text: &mut Vec<u8>,
) -> Result<Vec<RunEnd>, NoMemory>
    requires limit { limit ≤ 1000000000 }
    requires wording { (h : List Event) → text_of watcher h ≡ T.text h }
    ensures ends { IfOk result (λ ends. ends.items ≡ ends_of (source_of program.now) limit (map bytes_in inputs.now)) }
    ensures said { OnOk result ((h : List Event) → stands_for watcher h → text.new.items ≡ text.old.items ++ T.text (h ++ log_of (source_of program.now) limit (map bytes_in inputs.now))) }
    ensures front { IsFront text.old.items text.new.items }
    ensures kept { OnErr result (text.new.items ≡ text.old.items) }
{
    let mut told = Told::<T> {
        watcher,
        wording: PhantomData,
    };
    let ends = run_each(alloc, program, inputs, limit, &mut told)?;
    told.watcher.say(text)?;
    Ok(ends)
}

/// Runs the program on each input, in their order and with at most so many turns each. The first watcher of that name is told
/// what these runs log, each event once and in its order, and appends its text to `text`. `NoWatcher` where none has the name:
/// then nothing is run. After an `Err` nothing is appended. No other watcher is told anything; all are dropped.
pub fn feed(
    alloc: Global,
    watchers: Vec<Box<dyn Watcher>>,
    name: &str,
    program: &Program,
    inputs: &[Vec<u8>],
    limit: u64,
    text: &mut Vec<u8>,
) -> Result<Vec<RunEnd>, FeedRefusal>
    requires { limit ≤ 1000000000 }
    ensures ends { IfOk result (λ ends. ends.items ≡ ends_of (source_of program.now) limit (map bytes_in inputs.now)) }
    ensures said { OnOk result ((w : _) → find (λ w. bytes_eq (called w) name.now) watchers.items ≡ Some w → (h : List Event) → stands_for w h → text.new.items ≡ text.old.items ++ text_of w (h ++ log_of (source_of program.now) limit (map bytes_in inputs.now))) }
    ensures front { IsFront text.old.items text.new.items }
    ensures kept { OnErr result (text.new.items ≡ text.old.items) }
    ensures none { (result ≡ Err FeedRefusal.NoWatcher) ↔ (find (λ w. bytes_eq (called w) name.now) watchers.items ≡ None) }
{
    let Some(watcher) = first_called(watchers, name) else {
        return Err(FeedRefusal::NoWatcher);
    };
    match feed_one::<Brand>(alloc, watcher, program, inputs, limit, text) {
        Ok(ends) => Ok(ends),
        Err(NoMemory) => Err(FeedRefusal::NoMemory),
    }
}
