//! What sees events and says a text of them.

ghost use Rattle.std.specs.Prelude.{◌≡◌, ℕ, List, [], ◌∷◌, ◌++◌, OnOk, OnErr};
ghost use Rattle.c_events.specs.declared.events.Event.{Event};
ghost use Rattle.atac_base.specs.Outside.{IsFront};

use c_base::place::NoMemory;
use c_events::events::Event;

/// Sees events, and says a text of them. It stands for the lists of events that its test holds of, and has a text for every
/// list of events. No call changes its name, or its text of any list.
pub trait Watcher: Drop {
    ghost stands_for: { Self → List Event → Type 0 };

    ghost called: { Self → List ℕ };

    ghost text_of: { Self → List Event → List ℕ };

    /// The name that it is asked for by.
    fn name(&self) -> &str
        ensures { result.now ≡ called self.now };

    /// Sees one event. After an `Err` it stands for what it stood for before.
    fn see(&mut self, event: Event) -> Result<(), NoMemory>
        ensures seen { OnOk result ((h : List Event) → stands_for self.old h → stands_for self.new (h ++ event ∷ [])) }
        ensures kept { OnErr result ((h : List Event) → stands_for self.old h → stands_for self.new h) }
        ensures name { called self.new ≡ called self.old }
        ensures text { (h : List Event) → text_of self.new h ≡ text_of self.old h };

    /// Appends its text of each list that it stands for. After an `Err` nothing is appended.
    fn say(&self, into: &mut Vec<u8>) -> Result<(), NoMemory>
        ensures said { OnOk result ((h : List Event) → stands_for self.now h → into.new.items ≡ into.old.items ++ text_of self.now h) }
        ensures front { IsFront into.old.items into.new.items }
        ensures kept { OnErr result (into.new.items ≡ into.old.items) };
}
