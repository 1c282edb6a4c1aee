//! Watchers that are handed in: of one name, hostile, and of a type of the test's own.

use crate::calls::{Left, status_of};
use atac_base::memory::{MemoryShelf, MemorySink};
use atac_base::outside::Shelf;
use atac_steps::Status;
use c_base::place::NoMemory;
use c_events::events::Event;
use probe_watch::{BlockCounter, EventLister, Watcher};
use std::alloc::{AllocError, Global};
use std::test::Fail;

// A store through a pointer: seven events.
const POINTER: &[u8] = b"int main(void){int x,y;int*p;x=1;p=&x;*p=2;y=x;return y;}";

/// Wants memory at its event of this number, or at each, where it is 0; says a text of its own.
#[derive(Drop)]
struct Hostile {
    seen: u64,
    wants: u64,
}

impl Watcher for Hostile {
    ghost use Rattle.std.specs.Prelude.{[], codes};

    ghost stands_for = { λ w h. ⊥ };

    ghost called = { λ w. codes "events" };

    ghost text_of = { λ w h. [] };

    fn name(&self) -> &str {
        "events"
    }

    fn see(&mut self, _event: Event) -> Result<(), NoMemory> {
        self.seen = self.seen.saturating_add(1);
        if self.wants == 0 || self.seen == self.wants {
            return Err(NoMemory);
        }
        Ok(())
    }

    fn say(&self, into: &mut Vec<u8>) -> Result<(), NoMemory> {
        into.extend_from_slice(b"hostile\n")?;
        Ok(())
    }
}

/// Adds up the numbers of the instances that definitions change.
#[derive(Drop)]
struct Sum {
    alloc: Global,
    sum: u64,
}

impl Watcher for Sum {
    ghost use Rattle.std.specs.Prelude.{[], codes};

    ghost stands_for = { λ w h. ⊥ };

    ghost called = { λ w. codes "sum" };

    ghost text_of = { λ w h. [] };

    fn name(&self) -> &str {
        "sum"
    }

    fn see(&mut self, event: Event) -> Result<(), NoMemory> {
        if let Event::Def(_, cell) = event {
            self.sum = self.sum.saturating_add(cell.instance);
        }
        Ok(())
    }

    fn say(&self, into: &mut Vec<u8>) -> Result<(), NoMemory> {
        into.extend_from_slice(self.sum.to_string(self.alloc)?.as_bytes())?;
        Ok(())
    }
}

// `watch p e NAME` with these watchers.
fn watch(alloc: Global, name: &str, watchers: Vec<Box<dyn Watcher>>) -> Result<Left, AllocError> {
    let mut words = Vec::new(alloc);
    for word in ["watch", "p", "e", name].iter() {
        words.push(String::from_str(alloc, word)?)?;
    }
    let mut shelf = MemoryShelf::new(alloc, Vec::new(alloc), Vec::new(alloc));
    let _ = shelf.keep("p", POINTER);
    let _ = shelf.keep("e", b"");
    let mut out = MemorySink::new(alloc, Vec::new(alloc));
    let mut err = MemorySink::new(alloc, Vec::new(alloc));
    let status = status_of(alloc, &words, &mut shelf, &mut out, &mut err, watchers);
    Ok(Left { status, out, err })
}

const LISTED: &[u8] =
    b"== e\n\n== returned 2 turns 24 bytes 0\nblock 1\ndef 1 1:0\ndef 2 3:0\nuse 1 3:0 1\ndef 3 1:0\nuse 2 1:0 1\ndef 4 2:0\nuse 3 2:0 1\n";

/// The first of a name is told, and another of that name isn't.
#[test]
fn first_of_a_name(rt: HostRuntime) -> Result<(), Fail> {
    let alloc = rt.alloc();
    let mut watchers: Vec<Box<dyn Watcher>> = Vec::new(alloc);
    watchers.push(Box::new(alloc, BlockCounter::new(alloc))?)?;
    watchers.push(Box::new(alloc, EventLister::new(alloc))?)?;
    watchers.push(Box::new(alloc, Hostile { seen: 0, wants: 0 })?)?;
    let left = watch(alloc, "events", watchers)?;
    assert_eq!(rt; left.status, Status::Done);
    assert!(rt; left.out.bytes() == LISTED);
    Ok(())
}

/// One that wants memory at its third event: nothing is put.
#[test]
fn memory_wanted_by_a_watcher(rt: HostRuntime) -> Result<(), Fail> {
    let alloc = rt.alloc();
    let mut watchers: Vec<Box<dyn Watcher>> = Vec::new(alloc);
    watchers.push(Box::new(alloc, Hostile { seen: 0, wants: 3 })?)?;
    let left = watch(alloc, "events", watchers)?;
    assert_eq!(rt; left.status, Status::NoMemory);
    assert!(rt; left.out.bytes().is_empty());
    assert!(rt; left.err.bytes() == b"atac: no memory\n".as_slice());
    Ok(())
}

/// One of a type of the test's own; and none of a name.
#[test]
fn handed_in(rt: HostRuntime) -> Result<(), Fail> {
    let alloc = rt.alloc();
    let mut watchers: Vec<Box<dyn Watcher>> = Vec::new(alloc);
    watchers.push(Box::new(alloc, Sum { alloc, sum: 0 })?)?;
    let left = watch(alloc, "sum", watchers)?;
    assert!(rt; left.out.bytes() == b"== e\n\n== returned 2 turns 24 bytes 0\n7".as_slice());
    let left = watch(alloc, "other", Vec::new(alloc))?;
    assert_eq!(rt; left.status, Status::NoWatcher);
    assert!(rt; left.out.bytes().is_empty());
    assert!(rt; left.err.bytes() == b"atac: other: no watcher\n".as_slice());
    Ok(())
}
