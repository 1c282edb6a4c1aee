//! The scopes that are open.

ghost use Rattle.std.specs.Prelude.{◌≡◌, [], None, OnOk, OnErr};
ghost use Rattle.c_scopes.specs.Scoping.{find, find_here, find_outer, declared, entered, left, closed, outermost};

use crate::names::Names;
use c_base::place::NoMemory;
use std::alloc::Global;
use std::marker::Model;
use std::mem;

/// The scopes that are open: the innermost, and those around it, the outermost first.
#[derive(Drop)]
pub struct Scopes<T> {
    alloc: Global,
    outer: Vec<Names<T>>,
    top: Names<T>,
}

impl<T> Model for Scopes<T> {
    ghost use Rattle.c_scopes.specs.Rows.{Scoped, scoped_code};

    ghost Value = { Scoped T };

    ghost coded = { scoped_code T.code };

    ghost view = { λ s. record { outer = s.outer.items; top = s.top } };
}

impl<T: Copy> Scopes<T> {
    /// The outermost scope alone, with no name.
    pub fn new(alloc: Global) -> Self
        ensures { result ≡ record { outer = []; top = [] } }
    {
        Scopes {
            alloc,
            outer: Vec::new(alloc),
            top: Names::new(alloc),
        }
    }

    /// What the name stands for in the innermost scope that has it.
    pub fn find(&self, name: &[u8]) -> Option<T>
        ensures { result ≡ find name.now self.now }
    {
        match self.top.find(name) {
            Some(what) => Some(what),
            None => find_in(&self.outer, name),
        }
    }

    /// What the name stands for in the innermost scope.
    pub fn find_here(&self, name: &[u8]) -> Option<T>
        ensures { result ≡ find_here name.now self.now }
    {
        self.top.find(name)
    }

    /// Declares a name that the innermost scope doesn't have, in that scope.
    pub fn declare(&mut self, name: &[u8], what: T) -> Result<(), NoMemory>
        requires { find_here name.now self.old ≡ None }
        ensures ok { OnOk result (self.new ≡ declared name.now what self.old) }
        ensures err { OnErr result (self.new ≡ self.old) }
    {
        self.top.declare(name, what)
    }

    /// Opens a scope inside the innermost one, with no name.
    pub fn enter(&mut self) -> Result<(), NoMemory>
        ensures ok { OnOk result (self.new ≡ entered self.old) }
        ensures err { OnErr result (self.new ≡ self.old) }
    {
        let top = mem::replace(&mut self.top, Names::new(self.alloc));
        match self.outer.push(top) {
            Ok(()) => Ok(()),
            Err(refused) => {
                self.top = refused.value;
                Err(NoMemory)
            }
        }
    }

    /// Closes the innermost scope, and answers its names; the outermost one stays, and no name is answered.
    #[tactic(auto, using(crate::proofs::Looking::left_last, crate::proofs::Looking::closed_last))]
    pub fn leave(&mut self) -> Names<T>
        ensures names { result ≡ closed self.old }
        ensures scopes { self.new ≡ left self.old }
    {
        let mut names = Names::new(self.alloc);
        if let Some(top) = self.outer.pop() {
            names = mem::replace(&mut self.top, names);
            self.top = top;
        }
        names
    }

    /// Whether no scope is open but the outermost.
    pub fn is_outermost(&self) -> bool
        ensures { result ≡ outermost self.now }
    {
        self.outer.is_empty()
    }
}

// What the name stands for in the last of these scopes that has it.
#[tactic(auto, using(crate::proofs::Looking::stops, crate::proofs::Looking::goes_on))]
fn find_in<T: Copy>(scopes: &[Names<T>], name: &[u8]) -> Option<T>
    ensures { result ≡ find_outer name.now scopes.now }
{
    let mut left = scopes.len();
    while left > 0 {
        left -= 1;
        if let Some(what) = scopes[left].find(name) {
            return Some(what);
        }
    }
    None
}
