//! A watcher that lists the events.

ghost use Rattle.c_events.specs.declared.events.Event.{Event};

use crate::lines::put_event;
use crate::watcher::Watcher;
use c_base::place::NoMemory;
use c_events::events::Event;
use std::alloc::Global;

/// Lists the events that it sees, a line for each. It keeps their lines, and no event.
#[derive(Drop)]
pub struct EventLister {
    lines: Vec<u8>,
}

impl EventLister {
    ghost use Rattle.std.specs.Prelude.{[]};

    /// It has seen no event.
    pub fn new(alloc: Global) -> EventLister
        ensures { ⟦<EventLister as Watcher>⟧.stands_for result [] }
    {
        EventLister {
            lines: Vec::new(alloc),
        }
    }
}

impl Watcher for EventLister {
    ghost use Rattle.std.specs.Prelude.{◌≡◌, codes};
    ghost use Rattle.probe_watch.specs.Texts.{events_text};

    ghost stands_for = { λ l h. l.lines.items ≡ events_text h };

    ghost called = { λ l. codes "events" };

    ghost text_of = { λ l. events_text };

    fn name(&self) -> &str {
        "events"
    }

    #[inline]
    fn see(&mut self, event: Event) -> Result<(), NoMemory> {
        let before = self.lines.len();
        match put_event(&mut self.lines, event) {
            Ok(()) => Ok(()),
            Err(_) => {
                self.lines.truncate(before);
                Err(NoMemory)
            }
        }
    }

    fn say(&self, into: &mut Vec<u8>) -> Result<(), NoMemory> {
        into.extend_from_slice(self.lines.as_slice())?;
        Ok(())
    }
}
