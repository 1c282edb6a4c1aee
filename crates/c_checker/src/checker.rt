//! What is known at a token, with the complaints so far.

ghost use Rattle.std.specs.Prelude.{◌≡◌, None, length, OnOk, IfOk};
ghost use Rattle.c_tree.specs.State.{step, steps, complain, demand};
ghost use Rattle.c_tree.specs.Operators.{hushed, heard};
ghost use Rattle.c_tree.specs.Parts.{within, outside};
ghost use Rattle.c_tree.specs.Units.{start};
ghost use Rattle.c_checker.specs.CheckerView.{state_of, known_of};

use c_base::place::{NoMemory, Pos};
use c_scopes::names::Names;
use c_scopes::scopes::Scopes;
use c_syntax::tree::CType;
use c_tables::builtins::Builtin;
use c_tables::tables::Tables;
use c_tree::meaning::{Complaint, Entity, Side, Tag};
use c_type_rules::extent::Measured;
use std::alloc::Global;

/// The numbers of the probes that were seen, each with its spelling; tests and selects are one kind.
#[derive(Drop)]
pub struct Seen {
    pub blocks: Names<u16>,
    pub tests: Names<u16>,
    pub uses: Names<u16>,
    pub defs: Names<u16>,
}

/// What is known at a token: how many tokens stand before it; the names and tags in scope (C89, 3.1.2.1 and 3.1.2.3); the
/// tables; for each structure its room, and whether its member list was begun; the types of the parameters of the list that
/// is read; the names of the list behind which a body stands; the numbers of probes; whether it stands inside a `sizeof`;
/// where in an assignment the expression stands that begins here; whether it stands at file scope; the number of its
/// function, or 0; which functions count as defined, where not all do; and the complaints so far.
#[derive(Drop)]
pub struct Checker {
    pub alloc: Global,
    pub at: u32,
    pub names: Scopes<Entity>,
    pub tags: Scopes<Tag>,
    pub tables: Tables,
    pub rooms: Vec<Measured>,
    pub begun: Vec<bool>,
    pub params: Vec<CType>,
    pub listed: Names<Entity>,
    pub seen: Seen,
    pub quiet: bool,
    pub side: Side,
    pub file: bool,
    pub function: u32,
    pub known: Option<Vec<bool>>,
    pub complaints: Vec<Complaint>,
}

impl Checker {
    /// What is known before the first token, with the functions that count as defined.
    pub fn new(alloc: Global, known: Option<Vec<bool>>) -> Result<Checker, NoMemory>
        ensures { IfOk result (λ c. state_of c ≡ start (known_of known)) }
    {
        let names = builtins(alloc)?;
        Ok(Checker {
            alloc,
            at: 0,
            names,
            tags: Scopes::new(alloc),
            tables: Tables::new(alloc),
            rooms: Vec::new(alloc),
            begun: Vec::new(alloc),
            params: Vec::new(alloc),
            listed: Names::new(alloc),
            seen: Seen {
                blocks: Names::new(alloc),
                tests: Names::new(alloc),
                uses: Names::new(alloc),
                defs: Names::new(alloc),
            },
            quiet: false,
            side: Side::Neither,
            file: true,
            function: 0,
            known,
            complaints: Vec::new(alloc),
        })
    }

    /// Behind the next token.
    pub fn step(&mut self)
        ensures { state_of self.new ≡ step (state_of self.old) }
    {
        self.steps(1);
    }

    /// Behind so many further tokens; the number stays below 4,294,967,296.
    pub fn steps(&mut self, count: u32)
        ensures { state_of self.new ≡ steps count (state_of self.old) }
    {
        self.at = self.at.saturating_add(count);
    }

    /// Inside a `sizeof`, whose operand is not evaluated (C89, 3.3.3.4).
    pub fn hush(&mut self)
        ensures { state_of self.new ≡ hushed (state_of self.old) }
    {
        self.quiet = true;
    }

    /// As before a `sizeof`.
    pub fn hear(&mut self, quiet: bool)
        ensures { state_of self.new ≡ heard quiet (state_of self.old) }
    {
        self.quiet = quiet;
    }

    /// Inside a member list (C89, 3.5.2.1).
    pub fn within(&mut self)
        ensures { state_of self.new ≡ within (state_of self.old) }
    {
        self.file = false;
    }

    /// As before a member list.
    pub fn outside(&mut self, file: bool)
        ensures { state_of self.new ≡ outside file (state_of self.old) }
    {
        self.file = file;
    }

    /// How many complaints there are: as many as before, where none came between.
    pub fn complained(&self) -> usize
        ensures { result ≡ length (state_of self.now).complaints }
    {
        self.complaints.len()
    }

    /// Adds a complaint of that number at that token.
    pub fn complain(&mut self, number: u8, token: u32, pos: Pos) -> Result<(), NoMemory>
        ensures state { OnOk result (state_of self.new ≡ complain number token pos (state_of self.old)) }
        ensures rest { record self.new { complaints = self.old.complaints } ≡ self.old }
    {
        let complaint = Complaint { token, number, pos };
        match self.complaints.push(complaint) {
            Ok(()) => Ok(()),
            Err(_) => Err(NoMemory),
        }
    }

    /// Adds the complaint unless the test holds.
    pub fn demand(&mut self, test: bool, number: u8, token: u32, pos: Pos) -> Result<(), NoMemory>
        ensures state { OnOk result (state_of self.new ≡ demand test number token pos (state_of self.old)) }
        ensures rest { record self.new { complaints = self.old.complaints } ≡ self.old }
    {
        if test {
            Ok(())
        } else {
            self.complain(number, token, pos)
        }
    }
}

// The outermost scope, with the functions that every program has.
fn builtins(alloc: Global) -> Result<Scopes<Entity>, NoMemory>
    ensures { IfOk result (λ s. s ≡ (start None).names) }
{
    let mut names = Scopes::new(alloc);
    names.declare(b"getchar", Entity::Builtin(Builtin::GetChar))?;
    names.declare(b"putchar", Entity::Builtin(Builtin::PutChar))?;
    names.declare(b"exit", Entity::Builtin(Builtin::Exit))?;
    Ok(names)
}
