//! A new run, its turns, and its scopes.

ghost use Rattle.std.specs.Prelude.{◌≡◌, ◌+◌, ◌≤◌, ◌-◌, ℕ, suc, List, length, true, false, OnOk, IfOk};
ghost use Rattle.c_events.specs.declared.events.Event.{Event};
ghost use Rattle.c_meaning.specs.State.{start, tail_of};
ghost use Rattle.c_meaning.specs.Statements.{scope_opened, scope_closed};
ghost use Rattle.c_meaning.specs.Calls.{left};
ghost use Rattle.c_world.specs.Names.{IsActive, scopes_in, scope_counts, one_more, one_less};
ghost use Rattle.c_world.specs.Lives.{Living, Emptied, call_instances};
ghost use Rattle.c_world.specs.World.{state_of, Same};

use super::World;
use crate::names::Names;
use c_base::place::NoMemory;
use c_plan::routines::Routines;
use c_store::store::Store;
use c_syntax::text::Text;
use c_tree::program::Program;
use std::alloc::Global;

impl<'p> World<'p> {
    /// The state before anything is made, with at most so many turns to come.
    pub fn new(
        alloc: Global,
        program: &'p Program,
        input: &'p [u8],
        limit: u64,
    ) -> Result<World<'p>, NoMemory>
        requires { limit ≤ 1000000000 }
        ensures start { IfOk result (λ w. (h : List Event) → state_of w h ≡ record (start input.now limit) { log = h }) }
        ensures program { IfOk result (λ w. w.program.now ≡ program.now) }
        ensures limit { IfOk result (λ w. w.limit ≡ limit) }
    {
        let routines = Routines::of(alloc, program)?;
        Ok(World {
            alloc,
            program,
            routines,
            store: Store::new(alloc, 1_048_576),
            names: Names::new(alloc),
            input,
            output: Text::new(alloc),
            limit,
            turns: limit,
            last: 0,
            made: 0,
            sizes: Vec::new(alloc),
            pending: Vec::new(alloc),
            fresh: Vec::new(alloc),
            shown: Vec::new(alloc),
            closed: false,
        })
    }

    /// The output so far.
    pub fn output(&self) -> &[u8]
        ensures { result.now ≡ self.now.output }
    {
        self.output.bytes()
    }

    /// How many turns were taken.
    pub fn turns(&self) -> u64
        ensures { result ≡ self.now.limit - self.now.turns }
    {
        self.limit - self.turns
    }

    /// Takes one turn; false exactly where none is left.
    #[inline(always)]
    pub fn turn(&mut self) -> bool
        ensures taken { result ≡ true → (h : List Event) → state_of self.old h ≡ record (state_of self.new h) { turns = suc self.new.turns } }
        ensures fewer { result ≡ true → self.old.turns ≡ self.new.turns + 1 }
        ensures none { result ≡ false → (h : List Event) → (self.old.turns ≡ 0) × (state_of self.new h ≡ state_of self.old h) }
        ensures same { Same self.old self.new }
        ensures names { self.new.names ≡ self.old.names }
        ensures store { self.new.store ≡ self.old.store }
    {
        if self.turns == 0 {
            return false;
        }
        self.turns -= 1;
        true
    }

    /// Begins the scope of a compound.
    #[tactic(auto, using(crate::proofs::Counts::opened_counts))]
    pub fn begin_scope(&mut self) -> Result<(), NoMemory>
        requires { IsActive self.old.names.calls }
        ensures begun { OnOk result ((h : List Event) → state_of self.new h ≡ scope_opened (state_of self.old h)) }
        ensures counts { OnOk result (scope_counts self.new.names.calls ≡ one_more (scope_counts self.old.names.calls)) }
        ensures same { Same self.old self.new }
    {
        self.names.open_scope()
    }

    /// Ends the innermost scope of the active call, which is not that of its parameters.
    #[tactic(auto, using(crate::proofs::Counts::closed_counts))]
    pub fn end_scope(&mut self)
        requires { 2 ≤ length (scopes_in self.old.names.calls) }
        ensures ended { (h : List Event) → state_of self.new h ≡ scope_closed (state_of self.old h) }
        ensures counts { scope_counts self.new.names.calls ≡ one_less (scope_counts self.old.names.calls) }
        ensures same { Same self.old self.new }
    {
        end_bindings(&mut self.names, &mut self.store);
        self.names.close_scope();
        self.closed = true;
    }

    /// Ends the active call, of which only the scope of its parameters is left.
    #[tactic(auto, using(crate::proofs::Counts::left_counts))]
    pub fn leave(&mut self)
        requires { length (scopes_in self.old.names.calls) ≡ 1 }
        ensures left { (h : List Event) → state_of self.new h ≡ left (state_of self.old h) }
        ensures counts { scope_counts self.new.names.calls ≡ tail_of (scope_counts self.old.names.calls) }
        ensures same { Same self.old self.new }
    {
        end_bindings(&mut self.names, &mut self.store);
        self.names.close_call();
        self.closed = true;
    }
}

// Undoes the bindings of the innermost scope, and ends their instances, the last one made first.
#[tactic(auto, using(crate::proofs::Scopes::one_ended, crate::proofs::Scopes::none_ended, crate::proofs::Scopes::all_ended, crate::proofs::Scopes::fewer))]
fn end_bindings(names: &mut Names, store: &mut Store)
    requires { (above : ℕ) × Living above (call_instances names.old.calls) store.old }
    ensures { Emptied names.old names.new store.old store.new }
{
    while let Some(instance) = names.unbind() {
        store.end(instance);
    }
}
