//! What is made before `main` is called (C89, 3.1.2.4 and 3.5.7).

ghost use Rattle.std.specs.Prelude.{◌≡◌, ◌<◌, ◌≤◌, suc, List, ◌++◌, length, map, slice_get, None, Some, IfOk, OnOk};
ghost use Rattle.c_events.specs.declared.events.Event.{Event};
ghost use Rattle.c_syntax.specs.View.{maybe_init, declarator_shape, declarator_list, decl_shape, external_shape};
ghost use Rattle.c_meaning.specs.Results.{then_do, present};
ghost use Rattle.c_meaning.specs.Firsts.{quiet};
ghost use Rattle.c_syntax.specs.Shape.{TypeOf};
ghost use Rattle.c_syntax.specs.declared.text.Text.{Text};
ghost use Rattle.c_meaning.specs.Layout.{cells, variable_kind};
ghost use Rattle.c_meaning.specs.Declarations.{file_variable, file_name, file_names, file_decl};
ghost use Rattle.c_meaning.specs.Runs.{literals_made, external_made, externals_made, all_made, silent};
ghost use Rattle.c_meaning.specs.Sources.{source_of};
ghost use Rattle.c_base.specs.Kept.{kept};
ghost use Rattle.c_world.specs.Shown.{noted};
ghost use Rattle.c_world.specs.Steps.{literal_made, placed_at, placed_file};
ghost use Rattle.c_world.specs.World.{state_of, tables_of, answered, Same};

use super::World;
use c_base::place::NoMemory;
use c_compute::layout::variable_cells;
use c_meaning::end::Stop;
use c_plan::counts::{behind_external, behind_name};
use c_store::value::{Fault, MakeErr};
use c_syntax::tree::{Decl, DeclForm, Declarator, External, Init, Named};

impl<'p> World<'p> {
    /// Makes what is there before `main` is called: the string literals and the variables of file scope, with their
    /// initialisers (C89, 3.1.2.4 and 3.5.7). Room comes exactly where the definition stops there.
    pub fn begin(&mut self) -> Result<Option<Stop>, NoMemory>
        ensures done { IfOk result (λ r. (h : List Event) → all_made (source_of self.old.program.now) silent (state_of self.old h) ≡ answered r (state_of self.new h)) }
        ensures same { Same self.old self.new }
        ensures calls { OnOk result (self.new.names.calls ≡ self.old.names.calls) }
    {
        let program = self.program;
        let stopped = self.make_literals()?;
        if stopped.is_some() {
            return Ok(stopped);
        }
        let stopped = self.make_externals(&program.unit().externals)?;
        Ok(stopped)
    }

    // Makes the instances of the string literals, in their order (C89, 3.1.4).
    fn make_literals(&mut self) -> Result<Option<Stop>, NoMemory>
        ensures done { IfOk result (λ r. (h : List Event) → literals_made (tables_of self.old).literals (state_of self.old h) ≡ answered r (state_of self.new h)) }
        ensures same { Same self.old self.new }
        ensures names { self.new.names ≡ self.old.names }
    {
        for i in 0..self.program.tables().literals() {
            let stopped = self.make_literal(i)?;
            if stopped.is_some() {
                return Ok(stopped);
            }
        }
        Ok(None)
    }

    // Makes that of the literal behind so many.
    fn make_literal(&mut self, before: u32) -> Result<Option<Stop>, NoMemory>
        requires { before < length (tables_of self.old).literals }
        ensures done { IfOk result (λ r. (h : List Event) → literal_made (slice_get (tables_of self.old).literals before) (state_of self.old h) ≡ answered r (state_of self.new h)) }
        ensures noted { IfOk result (λ r. r ≡ None → (x : Text) → slice_get (tables_of self.old).literals before ≡ Some x → self.new.fresh.items ≡ self.old.fresh.items ++ noted (Some self.new.store.count) (kept (suc (length x)))) }
        ensures same { Same self.old self.new }
        ensures names { self.new.names ≡ self.old.names }
    {
        if self.made == u64::MAX {
            return Err(NoMemory);
        }
        let literal = self.program.tables().literal(before + 1);
        match self.store.make_literal(literal.bytes.bytes()) {
            Err(MakeErr::NoMemory) => Err(NoMemory),
            Err(MakeErr::Room) => Ok(Some(Stop::Room)),
            Ok(instance) => {
                self.made = instance;
                self.note(instance, literal.bytes.len().saturating_add(1))?;
                Ok(None)
            }
        }
    }

    // Makes the variables of file scope, in the order of their declarations.
    fn make_externals(&mut self, externals: &[External]) -> Result<Option<Stop>, NoMemory>
        ensures done { IfOk result (λ r. (h : List Event) → externals_made (tables_of self.old) (map external_shape externals.now) silent (state_of self.old h) ≡ answered r (state_of self.new h)) }
        ensures same { Same self.old self.new }
        ensures calls { OnOk result (self.new.names.calls ≡ self.old.names.calls) }
    {
        let mut externals = externals;
        let mut before: u32 = 0;
        while let Some((external, others)) = externals.split_first() {
            let stopped = self.make_external(external, before)?;
            if stopped.is_some() {
                return Ok(stopped);
            }
            before = behind_external(external, before)?;
            externals = others;
        }
        Ok(None)
    }

    fn make_external(&mut self, external: &External, before: u32) -> Result<Option<Stop>, NoMemory>
        ensures done { IfOk result (λ r. (h : List Event) → external_made (tables_of self.old) (external_shape external.now) (quiet before) (state_of self.old h) ≡ answered r (state_of self.new h)) }
        ensures same { Same self.old self.new }
        ensures calls { OnOk result (self.new.names.calls ≡ self.old.names.calls) }
    {
        match external {
            External::Function(_, _, _, _) => Ok(None),
            External::Plain(decl) => {
                let stopped = self.make_decl(decl, before)?;
                Ok(stopped)
            }
        }
    }

    #[tactic(auto, using(c_syntax::proofs::Open::decl_open))]
    fn make_decl(&mut self, decl: &Decl, before: u32) -> Result<Option<Stop>, NoMemory>
        ensures done { IfOk result (λ r. (h : List Event) → file_decl (tables_of self.old) (decl_shape decl.now) (quiet before) (state_of self.old h) ≡ answered r (state_of self.new h)) }
        ensures same { Same self.old self.new }
        ensures calls { OnOk result (self.new.names.calls ≡ self.old.names.calls) }
    {
        let stopped = self.make_names(&decl.names, before)?;
        Ok(stopped)
    }

    fn make_names(&mut self, names: &[Declarator], before: u32) -> Result<Option<Stop>, NoMemory>
        ensures done { IfOk result (λ r. (h : List Event) → file_names (tables_of self.old) (declarator_list names.now) (quiet before) (state_of self.old h) ≡ answered r (state_of self.new h)) }
        ensures same { Same self.old self.new }
        ensures calls { OnOk result (self.new.names.calls ≡ self.old.names.calls) }
    {
        let mut names = names;
        let mut before = before;
        while let Some((name, others)) = names.split_first() {
            let stopped = self.make_name(name, before)?;
            if stopped.is_some() {
                return Ok(stopped);
            }
            before = behind_name(name, before)?;
            names = others;
        }
        Ok(None)
    }

    fn make_name(&mut self, name: &Declarator, before: u32) -> Result<Option<Stop>, NoMemory>
        ensures done { IfOk result (λ r. (h : List Event) → file_name (tables_of self.old) (declarator_shape name.now) (quiet before) (state_of self.old h) ≡ answered r (state_of self.new h)) }
        ensures same { Same self.old self.new }
        ensures calls { OnOk result (self.new.names.calls ≡ self.old.names.calls) }
    {
        match &name.form {
            DeclForm::Function(_) => Ok(None),
            DeclForm::Arrays(_) => {
                let stopped = self.make_variable(&name.name, &name.init, before)?;
                Ok(stopped)
            }
        }
    }

    // Makes the instance of the variable behind so many, and writes its initialiser.
    fn make_variable(
        &mut self,
        name: &Option<Named>,
        init: &Option<Init>,
        before: u32,
    ) -> Result<Option<Stop>, NoMemory>
        ensures done { IfOk result (λ r. (h : List Event) → then_do (present (variable_kind (tables_of self.old) (suc before)) (state_of self.old h)) (file_variable (tables_of self.old) name.now (maybe_init init.now) (quiet before)) ≡ answered r (state_of self.new h)) }
        ensures same { Same self.old self.new }
        ensures calls { OnOk result (self.new.names.calls ≡ self.old.names.calls) }
    {
        if before >= self.program.tables().variables() {
            return Ok(Some(Stop::Fault(Fault::NoResult)));
        }
        let variable = before + 1;
        match self.place_filed(variable)? {
            None => Ok(Some(Stop::Room)),
            Some(instance) => {
                let stopped = self.fill_filed(variable, instance, name, init)?;
                Ok(stopped)
            }
        }
    }

    // Makes an instance of the variable's type for it; None where there is no room.
    fn place_filed(&mut self, variable: u32) -> Result<Option<u64>, NoMemory>
        requires { (1 ≤ variable) × (variable ≤ length (tables_of self.old).variables) }
        ensures done { IfOk result (λ r. (h : List Event) (k : TypeOf) → variable_kind (tables_of self.old) variable ≡ Some k → placed_file variable (cells (tables_of self.old) k) (state_of self.old h) ≡ placed_at r (state_of self.new h)) }
        ensures noted { IfOk result (λ r. (k : TypeOf) → variable_kind (tables_of self.old) variable ≡ Some k → self.new.fresh.items ≡ self.old.fresh.items ++ noted r (kept (cells (tables_of self.old) k))) }
        ensures same { Same self.old self.new }
        ensures calls { OnOk result (self.new.names.calls ≡ self.old.names.calls) }
    {
        if self.made == u64::MAX {
            return Err(NoMemory);
        }
        let count = variable_cells(&mut self.sizes, self.program.tables(), variable)?;
        match self.store.make(count) {
            Err(MakeErr::NoMemory) => Err(NoMemory),
            Err(MakeErr::Room) => Ok(None),
            Ok(instance) => {
                self.made = instance;
                self.names.bind_file(variable, instance)?;
                self.note(instance, count)?;
                Ok(Some(instance))
            }
        }
    }
}
