//! What names stand for in a run (C89, 3.1.2.1).

ghost use Rattle.std.specs.Prelude.{◌≡◌, ◌<◌, List, length, get_or, reverse, OnOk};
ghost use Rattle.c_meaning.specs.State.{function_in};
ghost use Rattle.c_world.specs.declared.names.Entry.{Entry};
ghost use Rattle.c_world.specs.Names.{calls_of, called, bound_in, nowhere, Sound};

use c_base::place::NoMemory;
use c_compute::filing::Filing;
use std::alloc::Global;
use std::marker::Model;

/// Where a variable stands: its instance, and the activation that bound it.
#[derive(Clone, Copy, Drop)]
pub struct Standing {
    pub instance: u64,
    pub activation: u64,
}

/// What was done to the scopes: a function was called as this activation, by that outer one; a scope was opened; a
/// variable was bound to an instance, and stood there before.
#[derive(Clone, Copy, Drop)]
pub enum Entry {
    Call(u32, u64, u64),
    Scope,
    Name(u32, u64, Standing),
}

/// What names stand for: the variables of file scope, and the active calls with their scopes (C89, 3.1.2.1). A variable
/// is found by its number in a table, and the end of a scope undoes its bindings.
#[derive(Drop)]
pub struct Names {
    filing: Filing,
    entries: Vec<Entry>,
    locals: Vec<Standing>,
    activation: u64,
    depth: u32,
}

impl Model for Names {
    ghost use Rattle.std.specs.Prelude.{◌≡◌, length, reverse};
    ghost use Rattle.c_meaning.specs.State.{activation_in};
    ghost use Rattle.c_world.specs.Names.{Naming, calls_of, Sound};

    ghost Value = { Naming };

    ghost view = { λ s. record { file = s.filing; calls = calls_of (reverse s.entries.items) } };

    ghost invariant = { λ s. Sound (reverse s.entries.items) s.locals.items × (s.activation ≡ activation_in (calls_of (reverse s.entries.items))) × (s.depth ≡ length (calls_of (reverse s.entries.items))) };
}

impl Names {
    ghost use Rattle.std.specs.Prelude.{◌≡◌, ◌<◌, ◌≤◌, [], ◌∷◌, length, OnOk, OnErr};
    ghost use Rattle.c_meaning.specs.State.{activation_in, function_in, in_call, opened, tail_of, top_within};
    ghost use Rattle.c_world.specs.Names.{standing_of, with_name, Undone, IsActive, scopes_in, scope_counts};

    /// No name, and no active call.
    pub fn new(alloc: Global) -> Names
        ensures { result ≡ record { file = []; calls = [] } }
    {
        Names {
            filing: Filing::new(alloc),
            entries: Vec::new(alloc),
            locals: Vec::new(alloc),
            activation: 0,
            depth: 0,
        }
    }

    /// The instance that the variable of that number stands for: in the active call, else at file scope.
    #[inline(always)]
    pub fn instance(&self, variable: u32) -> Option<u64>
        ensures { result ≡ standing_of variable self.now }
    {
        match bound_in(local(&self.locals, variable), self.activation) {
            Some(instance) => Some(instance),
            None => self.filing.instance(variable),
        }
    }

    /// The activation that is active; 0 where none is.
    #[inline(always)]
    pub fn activation(&self) -> u64
        ensures { result ≡ activation_in self.now.calls }
    {
        self.activation
    }

    /// The function that is active; 0 where none is. It is looked for among the entries of the active call.
    pub fn function(&self) -> u32
        ensures { result ≡ function_in self.now.calls }
    {
        last_function(&self.entries)
    }

    /// How many calls are active.
    #[inline(always)]
    pub fn depth(&self) -> u32
        ensures { result ≡ length self.now.calls }
    {
        self.depth
    }

    /// A call of the function begins as a later activation, with one scope.
    pub fn open_call(&mut self, function: u32, activation: u64) -> Result<(), NoMemory>
        requires later { activation_in self.old.calls < activation }
        requires few { length self.old.calls < 4000 }
        ensures opened { OnOk result (self.new ≡ record self.old { calls = record { function = function; activation = activation; scopes = [] ∷ [] } ∷ self.old.calls }) }
        ensures kept { OnErr result (self.new ≡ self.old) }
    {
        match self
            .entries
            .push(Entry::Call(function, activation, self.activation))
        {
            Ok(()) => {
                self.activation = activation;
                self.depth += 1;
                Ok(())
            }
            Err(_) => Err(NoMemory),
        }
    }

    /// Opens a scope in the active call.
    pub fn open_scope(&mut self) -> Result<(), NoMemory>
        requires { IsActive self.old.calls }
        ensures opened { OnOk result (self.new ≡ record self.old { calls = in_call opened self.old.calls }) }
        ensures kept { OnErr result (self.new ≡ self.old) }
    {
        match self.entries.push(Entry::Scope) {
            Ok(()) => Ok(()),
            Err(_) => Err(NoMemory),
        }
    }

    /// The variables of file scope.
    pub fn filing(&self) -> &Filing
        ensures { result.now ≡ self.now.file }
    {
        &self.filing
    }

    /// The variable of that number stands for the instance at file scope.
    pub fn bind_file(&mut self, variable: u32, instance: u64) -> Result<(), NoMemory>
        ensures bound { OnOk result (self.new ≡ record self.old { file = record { variable = variable; instance = instance } ∷ self.old.file }) }
        ensures kept { OnErr result (self.new ≡ self.old) }
    {
        self.filing.bind(variable, instance)
    }

    /// Binds the variable of that number to the instance in the innermost scope of the active call.
    pub fn bind(&mut self, variable: u32, instance: u64) -> Result<(), NoMemory>
        requires { IsActive self.old.calls }
        ensures bound { OnOk result (self.new ≡ with_name (record { variable = variable; instance = instance }) self.old) }
        ensures counts { OnOk result (scope_counts self.new.calls ≡ scope_counts self.old.calls) }
        ensures kept { OnErr result (self.new ≡ self.old) }
    {
        reach(&mut self.locals, variable)?;
        let before = local(&self.locals, variable);
        match self.entries.push(Entry::Name(variable, instance, before)) {
            Ok(()) => {
                self.locals[variable as usize] = Standing {
                    instance,
                    activation: self.activation,
                };
                Ok(())
            }
            Err(_) => Err(NoMemory),
        }
    }

    /// Undoes the last binding of the innermost scope, and gives its instance; None where there is none.
    #[tactic(auto, using(crate::proofs::Trails::some_scope))]
    pub fn unbind(&mut self) -> Option<u64>
        ensures { Undone result self.old self.new }
    {
        match self.entries.last() {
            Some(Entry::Name(variable, instance, before)) => {
                let (variable, instance, before) = (*variable, *instance, *before);
                let _last = self.entries.pop();
                self.locals[variable as usize] = before;
                Some(instance)
            }
            _ => None,
        }
    }

    /// Closes the innermost scope of the active call, in which no binding is left, and which is not that of its parameters.
    pub fn close_scope(&mut self)
        requires inner { 2 ≤ length (scopes_in self.old.calls) }
        requires unbound { top_within self.old.calls ≡ [] }
        ensures { self.new ≡ record self.old { calls = in_call tail_of self.old.calls } }
    {
        let _last = self.entries.pop();
    }

    /// Ends the active call, of which nothing but an empty scope is left.
    pub fn close_call(&mut self)
        requires { scopes_in self.old.calls ≡ [] ∷ [] }
        ensures closed { self.new ≡ record self.old { calls = tail_of self.old.calls } }
        ensures earlier { activation_in self.new.calls ≤ activation_in self.old.calls }
    {
        if let Some(Entry::Call(_, _, outer)) = self.entries.pop() {
            self.activation = outer;
            self.depth -= 1;
        }
    }
}

// Where the variable of that number stands.
#[inline(always)]
fn local(locals: &[Standing], variable: u32) -> Standing
    ensures { result ≡ get_or locals.now variable nowhere }
{
    match locals.get(variable as usize) {
        Some(standing) => *standing,
        None => Standing {
            instance: 0,
            activation: 0,
        },
    }
}

// The function of the last call that the entries begin; 0 where they begin none.
#[tactic(auto, using(crate::proofs::Trails::some_call, crate::proofs::Trails::no_call))]
fn last_function(entries: &[Entry]) -> u32
    ensures { result ≡ function_in (calls_of (reverse entries.now)) }
{
    let mut entries = entries;
    while let Some((last, others)) = entries.split_last() {
        if let Some(function) = called(last) {
            return function;
        }
        entries = others;
    }
    0
}

// The function whose call an entry begins.
fn called(entry: &Entry) -> Option<u32>
    ensures { result ≡ called entry.now }
{
    match entry {
        Entry::Call(function, _, _) => Some(*function),
        Entry::Scope | Entry::Name(_, _, _) => None,
    }
}

// The instance, where it was bound in this activation.
#[inline(always)]
fn bound_in(standing: Standing, activation: u64) -> Option<u64>
    ensures { result ≡ bound_in standing activation }
{
    if standing.activation == activation && activation != 0 {
        Some(standing.instance)
    } else {
        None
    }
}

// The table has a row for the variable of that number.
#[tactic(auto, using(crate::proofs::Trails::grown))]
fn reach(locals: &mut Vec<Standing>, variable: u32) -> Result<(), NoMemory>
    ensures reached { OnOk result (variable < length locals.new.items) }
    ensures sound { (es : List Entry) → Sound es locals.old.items → Sound es locals.new.items }
{
    while locals.len() <= variable as usize {
        let standing = Standing {
            instance: 0,
            activation: 0,
        };
        match locals.push(standing) {
            Ok(()) => {}
            Err(_) => return Err(NoMemory),
        }
    }
    Ok(())
}
