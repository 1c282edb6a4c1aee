//! Parameters (C89, 3.7.1): each is defined, in their order.

ghost use Rattle.std.specs.Prelude.{OnOk};
ghost use Rattle.c_syntax.specs.Shape.{function};
ghost use Rattle.c_syntax.specs.View.{declarator_shape, param_shape, param_list, params_shape, decl_form_shape};
ghost use Rattle.c_tables.specs.Tables.{TablesShape};
ghost use Rattle.c_walk.specs.Units.{define_declarator, define_decl, define_decls, define_params, define_parameters};
ghost use Rattle.flow_walks.specs.Walks.{parameter_goes, parameter_line, parameter_lines, parameters_go};
ghost use Rattle.flow_rows.specs.Laying.{Placed};
ghost use Rattle.flow_rows.specs.View.{rows_of};

use c_base::place::NoMemory;
use c_syntax::tree::{DeclForm, Declarator, Param, Params};
use flow_rows::layer::Layer;
use flow_walks::action::Action;

// A parameter's name: one of a function declares no variable.
fn lay_name(out: &mut Layer, name: &Declarator, at: u32, to: u32) -> Result<(), NoMemory>
    ensures { OnOk result ((t : TablesShape) → Placed (rows_of out.old.rows) (rows_of out.new.rows) out.old.numbers out.new.numbers at (λ c w k. parameter_goes t c.function (declarator_shape name.now) w (k to)) (λ c w. define_declarator t c.function (declarator_shape name.now) w)) }
{
    match &name.form {
        DeclForm::Arrays(_) => {
            out.numbers.variable()?;
            let number = out.numbers.next_def()?;
            out.numbers.def()?;
            out.rows.fill(at, Action::Define(number), to)?;
            Ok(())
        }
        DeclForm::Function(_) => {
            out.rows.fill(at, Action::Nothing, to)?;
            Ok(())
        }
    }
}

fn lay_param(out: &mut Layer, param: &Param, at: u32, to: u32) -> Result<(), NoMemory>
    ensures { OnOk result ((t : TablesShape) → Placed (rows_of out.old.rows) (rows_of out.new.rows) out.old.numbers out.new.numbers at (λ c w k. parameter_line t c.function (param_shape param.now) w (k to)) (λ c w. define_decl t c.function (param_shape param.now) w)) }
{
    lay_name(out, &param.name, at, to)?;
    Ok(())
}

// Parameters in turn.
fn lay_param_list(out: &mut Layer, list: &[Param], at: u32, to: u32) -> Result<(), NoMemory>
    ensures { OnOk result ((t : TablesShape) → Placed (rows_of out.old.rows) (rows_of out.new.rows) out.old.numbers out.new.numbers at (λ c w k. parameter_lines t c.function (param_list list.now) w (k to)) (λ c w. define_decls t c.function (param_list list.now) w)) }
{
    let mut entry = out.rows.hole()?;
    out.rows.fill(at, Action::Nothing, entry)?;
    for param in list {
        let next = out.rows.hole()?;
        lay_param(out, param, entry, next)?;
        entry = next;
    }
    out.rows.fill(entry, Action::Nothing, to)?;
    Ok(())
}

fn lay_params(out: &mut Layer, list: &Params, at: u32, to: u32) -> Result<(), NoMemory>
    ensures { OnOk result ((t : TablesShape) → Placed (rows_of out.old.rows) (rows_of out.new.rows) out.old.numbers out.new.numbers at (λ c w k. parameters_go t c.function (function (params_shape list.now)) w (k to)) (λ c w. define_params t c.function (params_shape list.now) w)) }
{
    match list {
        Params::List(list) => {
            lay_param_list(out, list, at, to)?;
            Ok(())
        }
        Params::Empty => {
            out.rows.fill(at, Action::Nothing, to)?;
            Ok(())
        }
        Params::Void => {
            out.rows.fill(at, Action::Nothing, to)?;
            Ok(())
        }
    }
}

/// The parameters of a function that is declared so.
pub fn lay_parameters(out: &mut Layer, form: &DeclForm, at: u32, to: u32) -> Result<(), NoMemory>
    ensures { OnOk result ((t : TablesShape) → Placed (rows_of out.old.rows) (rows_of out.new.rows) out.old.numbers out.new.numbers at (λ c w k. parameters_go t c.function (decl_form_shape form.now) w (k to)) (λ c w. define_parameters t c.function (decl_form_shape form.now) w)) }
{
    match form {
        DeclForm::Function(list) => {
            lay_params(out, list, at, to)?;
            Ok(())
        }
        DeclForm::Arrays(_) => {
            out.rows.fill(at, Action::Nothing, to)?;
            Ok(())
        }
    }
}
