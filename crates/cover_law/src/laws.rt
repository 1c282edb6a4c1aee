//! The laws, as contracts.

ghost use Rattle.std.specs.Prelude.{◌≡◌, ◌↔◌, ℕ, List, Option, IsTrue};
ghost use Rattle.c_events.specs.declared.events.Event.{Event};
ghost use Rattle.atac_facts.specs.declared.fact.Fact.{Fact};
ghost use Rattle.cover_parts.specs.Covered.{Covered};
ghost use Rattle.cover_law.specs.Covers.{covers};

/// The test says of each fact whether positions of the events show it; and it asks only for the owners of uses.
#[tactic(auto, using(crate::proofs::Covering::covered_law, crate::proofs::Covering::same_owners))]
pub fn covered_by_positions()
    ensures law { (owner : ℕ → Option ℕ) (events : List Event) (f : Fact) → IsTrue (covers owner events f) ↔ Covered owner events f }
    ensures same { (o p : ℕ → Option ℕ) → ((u : ℕ) → o u ≡ p u) → (events : List Event) (f : Fact) → covers o events f ≡ covers p events f }
{}
