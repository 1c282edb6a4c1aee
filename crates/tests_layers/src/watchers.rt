//! Watchers that are told the runs of a loop: the two of the product, and some that want memory or stand for no list.

use c_base::place::NoMemory;
use c_events::events::Event;
use c_front::read;
use c_lex::TextKind;
use c_meaning::end::{End, RunEnd};
use c_sites::sites;
use c_tree::program::Program;
use probe_in::instrument;
use probe_watch::{BlockCounter, EventLister, FeedRefusal, Watcher, feed};
use std::alloc::Global;
use std::test::Fail;

const LOOP: &[u8] = b"int main(void){int x=0;while(x<2)x=x+1;return x;}";

const EVENTS: &[u8] =
    b"block 1\ndef 1 1:0\nblock 2\nuse 1 1:0 1\ntest 1 1 1\nblock 3\nuse 2 1:0 1\ndef 2 1:0\nblock 2\nuse 1 1:0 1\ntest 1 1 1\nblock 3\nuse 2 1:0 1\ndef 2 1:0\nblock 2\nuse 1 1:0 1\ntest 1 2 1\nblock 4\nuse 3 1:0 1\n";

// The loop with its probes.
fn probed(alloc: Global) -> Result<Option<Program>, Fail> {
    let Ok(program) = read(alloc, LOOP, TextKind::Plain) else {
        return Ok(None);
    };
    let Ok(sites) = sites(alloc, &program) else {
        return Ok(None);
    };
    Ok(Some(instrument(alloc, &program, &sites, &[7; 32])?))
}

// Has the name of the lister, stands for no list and says another text. So many events it takes; behind them it wants memory.
#[derive(Drop)]
struct Stranger {
    left: u64,
}

impl Watcher for Stranger {
    ghost use Rattle.std.specs.Prelude.{[], codes};

    ghost stands_for = { λ w h. ⊥ };

    ghost called = { λ w. codes "events" };

    ghost text_of = { λ w h. [] };

    fn name(&self) -> &str {
        "events"
    }

    fn see(&mut self, event: Event) -> Result<(), NoMemory> {
        if self.left == 0 {
            return Err(NoMemory);
        }
        self.left -= 1;
        Ok(())
    }

    fn say(&self, into: &mut Vec<u8>) -> Result<(), NoMemory> {
        into.extend_from_slice(b"another text")?;
        Ok(())
    }
}

fn lister(alloc: Global) -> Result<Box<dyn Watcher>, Fail> {
    Ok(Box::new(alloc, EventLister::new(alloc))?)
}

fn boxed_stranger(alloc: Global, left: u64) -> Result<Box<dyn Watcher>, Fail> {
    Ok(Box::new(alloc, Stranger { left })?)
}

fn one(alloc: Global, watcher: Box<dyn Watcher>) -> Result<Vec<Box<dyn Watcher>>, Fail> {
    let mut watchers = Vec::new(alloc);
    watchers.push(watcher)?;
    Ok(watchers)
}

fn two(
    alloc: Global,
    first: Box<dyn Watcher>,
    second: Box<dyn Watcher>,
) -> Result<Vec<Box<dyn Watcher>>, Fail> {
    let mut watchers = one(alloc, first)?;
    watchers.push(second)?;
    Ok(watchers)
}

// What comes of telling the one of that name so many runs of the loop, on empty inputs.
fn fed(
    alloc: Global,
    watchers: Vec<Box<dyn Watcher>>,
    name: &str,
    runs: u32,
    text: &mut Vec<u8>,
) -> Result<Result<Vec<RunEnd>, FeedRefusal>, Fail> {
    let program = probed(alloc)?.ok_or("refused")?;
    let mut inputs = Vec::new(alloc);
    for _ in 0..runs {
        inputs.push(Vec::new(alloc))?;
    }
    Ok(feed(alloc, watchers, name, &program, inputs.as_slice(), 27, text))
}

// Whether there was one run, which returned 2.
fn is_returned_2(ends: Result<Vec<RunEnd>, FeedRefusal>) -> bool {
    match ends {
        Ok(ends) => ends.len() == 1 && matches!(ends[0].end, End::Returned(2)),
        Err(_) => false,
    }
}

/// The events of a run by hand, behind what stood in the text; of two inputs those of both runs.
#[test]
fn told_each_event(rt: HostRuntime) -> Result<(), Fail> {
    let alloc = rt.alloc();
    let mut text = Vec::from_slice(alloc, b"x")?;
    let watchers = one(alloc, lister(alloc)?)?;
    assert!(rt; is_returned_2(fed(alloc, watchers, "events", 1, &mut text)?));
    assert_eq!(rt; text.len(), EVENTS.len() + 1);
    assert_eq!(rt; &text[1..], EVENTS);
    Ok(())
}

/// A run that ends within its turns tells what it logged before; blocks are counted over all runs.
#[test]
fn counts_over_runs(rt: HostRuntime) -> Result<(), Fail> {
    let alloc = rt.alloc();
    let counter: Box<dyn Watcher> = Box::new(alloc, BlockCounter::new(alloc))?;
    let watchers = two(alloc, lister(alloc)?, counter)?;
    let mut text = Vec::new(alloc);
    assert!(rt; fed(alloc, watchers, "blocks", 2, &mut text)?.is_ok());
    assert_eq!(rt;
        text.as_slice(),
        b"block 1 2\nblock 2 6\nblock 3 4\nblock 4 2\n".as_slice()
    );
    Ok(())
}

/// The first of two of one name is told. The second one would say another text, and wants memory at every event.
#[test]
fn first_of_a_name(rt: HostRuntime) -> Result<(), Fail> {
    let alloc = rt.alloc();
    let watchers = two(alloc, lister(alloc)?, boxed_stranger(alloc, 0)?)?;
    let mut text = Vec::new(alloc);
    assert!(rt; fed(alloc, watchers, "events", 1, &mut text)?.is_ok());
    assert_eq!(rt; text.as_slice(), EVENTS);
    Ok(())
}

/// A watcher that stands for no list is told all the same: the run ends as it does; at the third event it wants memory.
#[test]
fn strangers(rt: HostRuntime) -> Result<(), Fail> {
    let alloc = rt.alloc();
    let mut text = Vec::new(alloc);
    let patient = one(alloc, boxed_stranger(alloc, 19)?)?;
    assert!(rt; is_returned_2(fed(alloc, patient, "events", 1, &mut text)?));
    assert_eq!(rt; text.as_slice(), b"another text".as_slice());
    let hasty = one(alloc, boxed_stranger(alloc, 2)?)?;
    let ends = fed(alloc, hasty, "events", 1, &mut text)?;
    assert!(rt; matches!(ends, Err(FeedRefusal::NoMemory)));
    assert_eq!(rt; text.as_slice(), b"another text".as_slice());
    Ok(())
}

/// No watcher has the name.
#[test]
fn nobody(rt: HostRuntime) -> Result<(), Fail> {
    let alloc = rt.alloc();
    let watchers = one(alloc, lister(alloc)?)?;
    let mut text = Vec::new(alloc);
    let ends = fed(alloc, watchers, "event", 1, &mut text)?;
    assert!(rt; matches!(ends, Err(FeedRefusal::NoWatcher)));
    assert_eq!(rt; text.len(), 0);
    Ok(())
}
