// Parameter lists, and the types in them (C89, 3.5.4.3).

ghost use Rattle.std.specs.Prelude.{◌≡◌, [], map, OnOk, IfOk};
ghost use Rattle.c_syntax.specs.View.{param_list, params_shape};
ghost use Rattle.c_tree.specs.State.{step};
ghost use Rattle.c_tree.specs.Declaring.{type_param_list, type_params, all_kinds};
ghost use Rattle.c_checker.specs.CheckerView.{state_of};
ghost use Rattle.c_types_decl.specs.GivenView.{parameter_of};
ghost use Rattle.c_types_decl.specs.Entities.{types_in};

use crate::functions::Parameter;
use crate::parameters::type_item;
use c_base::place::NoMemory;
use c_checker::checker::Checker;
use c_syntax::tree::{CType, Param, Params};
use c_type_rules::kinds::copy;
use std::alloc::Global;

/// Types what stands in the parentheses of a function in place, and answers its parameters; `defining` says that a body
/// follows.
#[tactic(auto, using(c_syntax::proofs::Open::params_open))]
pub fn type_params(
    checker: &mut Checker,
    defining: bool,
    params: &mut Params,
) -> Result<Vec<Parameter>, NoMemory>
    ensures tree { OnOk result (params_shape params.new ≡ (type_params defining (params_shape params.old) (state_of checker.old)).params) }
    ensures given { IfOk result (λ g. map parameter_of g.items ≡ (type_params defining (params_shape params.old) (state_of checker.old)).given) }
    ensures state { OnOk result (state_of checker.new ≡ (type_params defining (params_shape params.old) (state_of checker.old)).state) }
{
    match params {
        Params::Empty => {
            checker.steps(2);
            Ok(Vec::new(checker.alloc))
        }
        Params::Void => {
            checker.steps(3);
            Ok(Vec::new(checker.alloc))
        }
        Params::List(list) => {
            begin_list(checker);
            let given = type_list(checker, defining, list)?;
            Ok(given)
        }
    }
}

// Behind the opening parenthesis of a list, whose types are none yet.
fn begin_list(checker: &mut Checker)
    ensures { state_of checker.new ≡ step (record (state_of checker.old) { params = [] }) }
{
    checker.params = Vec::new(checker.alloc);
    checker.step();
}

// Types parameters in place, each with the comma or the parenthesis behind it, and answers them.
fn type_list(
    checker: &mut Checker,
    defining: bool,
    params: &mut Vec<Param>,
) -> Result<Vec<Parameter>, NoMemory>
    ensures tree { OnOk result (param_list params.new.items ≡ (type_param_list defining (param_list params.old.items) (state_of checker.old)).params) }
    ensures given { IfOk result (λ g. map parameter_of g.items ≡ (type_param_list defining (param_list params.old.items) (state_of checker.old)).given) }
    ensures state { OnOk result (state_of checker.new ≡ (type_param_list defining (param_list params.old.items) (state_of checker.old)).state) }
{
    let mut given = Vec::new(checker.alloc);
    for i in 0..params.len() {
        type_item(checker, defining, &mut params[i], &mut given)?;
        checker.step();
    }
    Ok(given)
}

/// The types of the parameters, if each has one.
pub fn all_kinds(given: &[Parameter], alloc: Global) -> Result<Option<Vec<CType>>, NoMemory>
    ensures { IfOk result (λ o. types_in o ≡ all_kinds (map parameter_of given.now)) }
{
    let mut kinds = Vec::new(alloc);
    for i in 0..given.len() {
        let Some(kind) = &given[i].kind else {
            return Ok(None);
        };
        let kind = copy(kind, alloc)?;
        if kinds.push(kind).is_err() {
            return Err(NoMemory);
        }
    }
    Ok(Some(kinds))
}
