//! Calls up to the body of the function, with their arguments (C89, 3.3.2.2).

ghost use Rattle.std.specs.Prelude.{◌≡◌, ◌<◌, List, ◌∷◌, length, option_map, IfOk, OnOk, None};
ghost use Rattle.c_events.specs.declared.events.Event.{Event};
ghost use Rattle.c_syntax.specs.View.{decl_form_shape, params_shape, param_shape, param_list};
ghost use Rattle.c_meaning.specs.Firsts.{quiet};
ghost use Rattle.c_meaning.specs.Counts.{decl_variables};
ghost use Rattle.c_meaning.specs.Calls.{routine, given, given_params, given_all, activated, entered};
ghost use Rattle.c_meaning.specs.Runs.{silent};
ghost use Rattle.c_plan.specs.Routines.{routine_of};
ghost use Rattle.c_meaning.specs.Sources.{source_of};
ghost use Rattle.c_world.specs.Names.{IsActive, scope_counts};
ghost use Rattle.c_world.specs.Steps.{given_one};
ghost use Rattle.c_world.specs.World.{state_of, tables_of, answered, Same};

use super::World;
use crate::answers::Placed;
use c_base::place::NoMemory;
use c_meaning::end::Stop;
use c_plan::routines::Routine;
use c_store::value::{Fault, Value};
use c_syntax::tree::{DeclForm, Param, Params};

impl<'p> World<'p> {
    /// The function of that number; None where none with a body has it. It is found at once.
    #[inline(always)]
    pub fn routine(&self, function: u32) -> Option<Routine<'p>>
        ensures { option_map routine_of result ≡ routine (source_of self.now.program.now) silent function }
    {
        self.routines.find(self.program, function)
    }

    /// Begins a call of the function of that number: the next activation is active, its parameters are made and the arguments,
    /// already converted, are written (C89, 3.3.2.2). Depth or Room comes exactly where the definition stops there.
    pub fn enter(
        &mut self,
        function: u32,
        routine: &Routine<'_>,
        args: &[Value],
    ) -> Result<Option<Stop>, NoMemory>
        ensures done { IfOk result (λ r. (h : List Event) → entered (tables_of self.old) function (routine_of routine.now) args.now (state_of self.old h) ≡ answered r (state_of self.new h)) }
        ensures counts { IfOk result (λ r. r ≡ None → scope_counts self.new.names.calls ≡ 1 ∷ scope_counts self.old.names.calls) }
        ensures same { Same self.old self.new }
    {
        if self.names.depth() >= 4000 {
            return Ok(Some(Stop::Depth));
        }
        self.activate(function)?;
        let stopped = self.give_form(routine.params, routine.before, args)?;
        Ok(stopped)
    }

    // The next activation is active.
    fn activate(&mut self, function: u32) -> Result<(), NoMemory>
        requires { length self.old.names.calls < 4000 }
        ensures activated { OnOk result ((h : List Event) → state_of self.new h ≡ activated function (state_of self.old h)) }
        ensures same { Same self.old self.new }
        ensures active { OnOk result (IsActive self.new.names.calls) }
        ensures counts { OnOk result (scope_counts self.new.names.calls ≡ 1 ∷ scope_counts self.old.names.calls) }
    {
        if self.last == u64::MAX {
            return Err(NoMemory);
        }
        self.names.open_call(function, self.last + 1)?;
        self.last += 1;
        Ok(())
    }

    // Gives the parameters of a declarator their arguments.
    fn give_form(
        &mut self,
        form: &DeclForm,
        before: u32,
        args: &[Value],
    ) -> Result<Option<Stop>, NoMemory>
        requires { IsActive self.old.names.calls }
        ensures done { IfOk result (λ r. (h : List Event) → given_all (tables_of self.old) (decl_form_shape form.now) (quiet before) args.now (state_of self.old h) ≡ answered r (state_of self.new h)) }
        ensures counts { OnOk result (scope_counts self.new.names.calls ≡ scope_counts self.old.names.calls) }
        ensures same { Same self.old self.new }
    {
        match form {
            DeclForm::Function(params) => {
                let stopped = self.give_params(params, before, args)?;
                Ok(stopped)
            }
            DeclForm::Arrays(_) => Ok(Some(Stop::Fault(Fault::NoResult))),
        }
    }

    fn give_params(
        &mut self,
        params: &Params,
        before: u32,
        args: &[Value],
    ) -> Result<Option<Stop>, NoMemory>
        requires { IsActive self.old.names.calls }
        ensures done { IfOk result (λ r. (h : List Event) → given_params (tables_of self.old) (params_shape params.now) (quiet before) args.now (state_of self.old h) ≡ answered r (state_of self.new h)) }
        ensures counts { OnOk result (scope_counts self.new.names.calls ≡ scope_counts self.old.names.calls) }
        ensures same { Same self.old self.new }
    {
        match params {
            Params::List(list) => {
                let stopped = self.give_all(list, before, args)?;
                Ok(stopped)
            }
            Params::Empty | Params::Void => {
                if args.is_empty() {
                    Ok(None)
                } else {
                    Ok(Some(Stop::Fault(Fault::NoResult)))
                }
            }
        }
    }

    fn give_all(
        &mut self,
        params: &[Param],
        before: u32,
        args: &[Value],
    ) -> Result<Option<Stop>, NoMemory>
        requires { IsActive self.old.names.calls }
        ensures done { IfOk result (λ r. (h : List Event) → given (tables_of self.old) (param_list params.now) (quiet before) args.now (state_of self.old h) ≡ answered r (state_of self.new h)) }
        ensures counts { OnOk result (scope_counts self.new.names.calls ≡ scope_counts self.old.names.calls) }
        ensures same { Same self.old self.new }
    {
        let mut params = params;
        let mut args = args;
        let mut before = before;
        while let Some((param, others)) = params.split_first() {
            let Some((value, rest)) = args.split_first() else {
                return Ok(Some(Stop::Fault(Fault::NoResult)));
            };
            let stopped = self.give(param, before, *value)?;
            if stopped.is_some() {
                return Ok(stopped);
            }
            params = others;
            args = rest;
            before += 1;
        }
        if args.is_empty() {
            Ok(None)
        } else {
            Ok(Some(Stop::Fault(Fault::NoResult)))
        }
    }

    // Makes the instance of the parameter behind so many variables, and writes its argument.
    fn give(&mut self, param: &Param, before: u32, value: Value) -> Result<Option<Stop>, NoMemory>
        requires { IsActive self.old.names.calls }
        ensures done { IfOk result (λ r. (h : List Event) → given_one (tables_of self.old) (param_shape param.now) before value (state_of self.old h) ≡ answered r (state_of self.new h)) }
        ensures counts { OnOk result (scope_counts self.new.names.calls ≡ scope_counts self.old.names.calls) }
        ensures same { Same self.old self.new }
        ensures active { OnOk result (IsActive self.new.names.calls) }
        ensures one { IfOk result (λ r. r ≡ None → (decl_variables (param_shape param.now) ≡ 1) × (before < 4294967295)) }
    {
        if before >= self.program.tables().variables() {
            return Ok(Some(Stop::Fault(Fault::NoResult)));
        }
        match &param.name.form {
            DeclForm::Function(_) => Ok(Some(Stop::Fault(Fault::NoResult))),
            DeclForm::Arrays(_) => match self.place_variable(before + 1)? {
                Placed::Stopped(why) => Ok(Some(why)),
                Placed::At(instance) => {
                    let stopped = self.write_scalar(&param.name.name, instance, value)?;
                    Ok(stopped)
                }
            },
        }
    }
}
