//! The names of one scope.

ghost use Rattle.std.specs.Prelude.{◌≡◌, ℕ, List, Vec, [], ◌∷◌, ◌++◌, None, OnOk, OnErr};
ghost use Rattle.std.specs.Global.{Global};
ghost use Rattle.std.specs.Map.Iter.{ShowsInOrder, deref_pair};
ghost use Rattle.c_scopes.specs.Rows.{rows_of};
ghost use Rattle.c_scopes.specs.Scoping.{named};

use c_base::place::NoMemory;
use indexmap::IndexMap;
use indexmap::map::Iter;
use std::alloc::Global;
use std::marker::Model;

/// The names of one scope, each with what it stands for, in the order in which they were declared.
#[derive(Drop)]
pub struct Names<T> {
    alloc: Global,
    rows: IndexMap<Vec<u8>, T>,
}

impl<T> Model for Names<T> {
    ghost use Rattle.c_scopes.specs.Rows.{Scope, scope_code, rows_of};

    ghost Value = { Scope T };

    ghost coded = { scope_code T.code };

    ghost view = { λ n. rows_of n.rows.entries };
}

impl<T: Copy> Names<T> {
    /// No name.
    pub fn new(alloc: Global) -> Self
        ensures { result ≡ [] }
    {
        Names {
            alloc,
            rows: IndexMap::new(alloc),
        }
    }

    /// What the name stands for, if it was declared.
    #[tactic(auto, using(crate::proofs::Keys::found_in))]
    pub fn find(&self, name: &[u8]) -> Option<T>
        ensures { result ≡ named name.now self.now }
    {
        self.rows.get(name).copied()
    }

    /// The names and what they stand for, in order.
    pub fn rows(&self) -> Iter<'_, Vec<u8>, T>
        ensures names { rows_of result ≡ self.now }
        ensures runs { ShowsInOrder (deref_pair {K = Vec ℕ Global} {X = T}) }
    {
        self.rows.iter()
    }

    /// Declares a name that isn't there, behind the others.
    pub fn declare(&mut self, name: &[u8], what: T) -> Result<(), NoMemory>
        requires { named name.now self.old ≡ None }
        ensures ok { OnOk result (self.new ≡ self.old ++ (name.now, what) ∷ []) }
        ensures err { OnErr result (self.new ≡ self.old) }
    {
        match Vec::from_slice(self.alloc, name) {
            Ok(key) => self.append(key, what),
            Err(_) => Err(NoMemory),
        }
    }

    // The key is a name that isn't there.
    #[tactic(auto, using(crate::proofs::Keys::last_in))]
    fn append(&mut self, key: Vec<u8>, what: T) -> Result<(), NoMemory>
        requires { named key.items self.old ≡ None }
        ensures ok { OnOk result (self.new ≡ self.old ++ (key.items, what) ∷ []) }
        ensures err { OnErr result (self.new ≡ self.old) }
    {
        match self.rows.insert(key, what) {
            Ok(_) => Ok(()),
            Err(_) => Err(NoMemory),
        }
    }
}
