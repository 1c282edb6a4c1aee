//! What the two watchers say of a list of events, by hand.

use crate::counter::BlockCounter;
use crate::lister::EventLister;
use crate::watcher::Watcher;
use c_events::events::{Cell, Event};
use std::test::Fail;

/// Events of each kind, with the greatest numbers that they can have.
const EVENTS: [Event; 7] = [
    Event::Block(2),
    Event::Def(
        1,
        Cell {
            instance: 3,
            index: 0,
        },
    ),
    Event::Use(
        10,
        Cell {
            instance: 18446744073709551615,
            index: 4294967295,
        },
        18446744073709551615,
    ),
    Event::Test(65535, 4294967295, 7),
    Event::Block(65535),
    Event::Block(2),
    Event::Block(0),
];

#[test]
fn lists(rt: HostRuntime) -> Result<(), Fail> {
    let mut lister = EventLister::new(rt.alloc());
    for event in EVENTS {
        lister.see(event)?;
    }
    let mut text = Vec::from_slice(rt.alloc(), b"x")?;
    lister.say(&mut text)?;
    let expected =
        b"xblock 2\ndef 1 3:0\nuse 10 18446744073709551615:4294967295 18446744073709551615\ntest 65535 4294967295 7\nblock 65535\nblock 2\nblock 0\n";
    assert_eq!(rt; text.as_slice(), expected.as_slice());
    assert_eq!(rt; lister.name(), "events");
    Ok(())
}

#[test]
fn counts(rt: HostRuntime) -> Result<(), Fail> {
    let mut counter = BlockCounter::new(rt.alloc());
    for event in EVENTS {
        counter.see(event)?;
    }
    let mut text = Vec::from_slice(rt.alloc(), b"x")?;
    counter.say(&mut text)?;
    assert_eq!(rt;
        text.as_slice(),
        b"xblock 0 1\nblock 2 2\nblock 65535 1\n".as_slice()
    );
    assert_eq!(rt; counter.name(), "blocks");
    Ok(())
}
