// Declarators of file scope, and parameters of functions, which are defined at their names.

ghost use Rattle.std.specs.Prelude.{◌≡◌, ℕ, IfOk};
ghost use Rattle.c_syntax.specs.Shape.{LengthShapes, declarator, arrays, params};
ghost use Rattle.c_syntax.specs.View.{maybe_init, declarator_shape, declarator_list, decl_shape, decl_form_shape, params_shape, param_shape, param_list};
ghost use Rattle.c_tables.specs.Tables.{TablesShape};
ghost use Rattle.c_walk.specs.Units.{define_declarator, define_declarators, define_decl, define_decls, define_params, define_parameters};
ghost use Rattle.probe_rules.specs.Instrumented.{defined_declarator, defined_declarators, defined_decl, defined_decls, defined_params, defined_signature};
ghost use Rattle.probe_in.specs.Defined.{Defined};

use c_base::place::NoMemory;
use c_copy::build::{new_decl, new_declarator, new_param, new_params};
use c_copy::parts::{boxed, copy_stars, put_inner};
use c_copy::tree::{copy_decl_form, copy_declarator, copy_maybe_init, copy_specs};
use c_syntax::tree::{Decl, DeclForm, Declarator, Param, Params};
use probe_expr::names::defined_name;
use probe_expr::nodes::Prober;

// A variable.
fn defined_variable(out: &mut Prober, name: &Declarator) -> Result<Box<Declarator>, NoMemory>
    ensures { IfOk result (λ d. (t : TablesShape) (f : ℕ) (ls : LengthShapes) → decl_form_shape name.now.form ≡ arrays ls → Defined out.old.numbers out.new.numbers (declarator_shape d.value) (λ w. defined_declarator t f (declarator name.now.stars.items name.now.name (arrays ls) (maybe_init name.now.init)) w) (λ w. define_declarator t f (declarator name.now.stars.items name.now.name (arrays ls) (maybe_init name.now.init)) w)) }
{
    let named = defined_name(out.alloc, out.numbers, &name.name)?;
    out.numbers.def()?;
    let stars = copy_stars(out.alloc, &name.stars)?;
    let init = copy_maybe_init(out.alloc, &name.init)?;
    let form = copy_decl_form(out.alloc, &name.form)?;
    let made = new_declarator(out.alloc, stars, named, form, init)?;
    Ok(made)
}

fn defined_declarator(out: &mut Prober, name: &Declarator) -> Result<Box<Declarator>, NoMemory>
    ensures { IfOk result (λ d. (t : TablesShape) (f : ℕ) → Defined out.old.numbers out.new.numbers (declarator_shape d.value) (λ w. defined_declarator t f (declarator_shape name.now) w) (λ w. define_declarator t f (declarator_shape name.now) w)) }
{
    match &name.form {
        DeclForm::Arrays(_) => {
            let made = defined_variable(out, name)?;
            Ok(made)
        }
        DeclForm::Function(_) => {
            let made = copy_declarator(out.alloc, name)?;
            Ok(made)
        }
    }
}

fn defined_declarators(out: &mut Prober, names: &[Declarator]) -> Result<Vec<Declarator>, NoMemory>
    ensures { IfOk result (λ v. (t : TablesShape) (f : ℕ) → Defined out.old.numbers out.new.numbers (declarator_list v.items) (λ w. defined_declarators t f (declarator_list names.now) w) (λ w. define_declarators t f (declarator_list names.now) w)) }
{
    let mut made = Vec::new(out.alloc);
    for name in names {
        let one = defined_declarator(out, name)?;
        put_inner(&mut made, one)?;
    }
    Ok(made)
}

/// A declaration of file scope.
#[tactic(auto, using(std::proofs::lemmas::Grind::common_steps, c_syntax::proofs::Open::decl_open))]
pub fn defined_decl(out: &mut Prober, decl: &Decl) -> Result<Decl, NoMemory>
    ensures { IfOk result (λ d. (t : TablesShape) (f : ℕ) → Defined out.old.numbers out.new.numbers (decl_shape d) (λ w. defined_decl t f (decl_shape decl.now) w) (λ w. define_decl t f (decl_shape decl.now) w)) }
{
    let specs = copy_specs(out.alloc, &decl.specs)?;
    let names = defined_declarators(out, &decl.names)?;
    Ok(new_decl(decl.pos, specs, names))
}

#[tactic(auto, using(std::proofs::lemmas::Grind::common_steps, c_syntax::proofs::Open::param_open))]
fn defined_param(out: &mut Prober, param: &Param) -> Result<Box<Param>, NoMemory>
    ensures { IfOk result (λ p. (t : TablesShape) (f : ℕ) → Defined out.old.numbers out.new.numbers (param_shape p.value) (λ w. defined_decl t f (param_shape param.now) w) (λ w. define_decl t f (param_shape param.now) w)) }
{
    let specs = copy_specs(out.alloc, &param.specs)?;
    let name = defined_declarator(out, &param.name)?;
    let made = new_param(out.alloc, param.pos, specs, name)?;
    Ok(made)
}

fn defined_param_list(out: &mut Prober, list: &[Param]) -> Result<Params, NoMemory>
    ensures { IfOk result (λ p. (t : TablesShape) (f : ℕ) → Defined out.old.numbers out.new.numbers (params_shape p) (λ w. params (defined_decls t f (param_list list.now) w)) (λ w. define_decls t f (param_list list.now) w)) }
{
    let mut made = Vec::new(out.alloc);
    for param in list {
        let one = defined_param(out, param)?;
        put_inner(&mut made, one)?;
    }
    Ok(new_params(made))
}

fn defined_params(out: &mut Prober, list: &Params) -> Result<Params, NoMemory>
    ensures { IfOk result (λ p. (t : TablesShape) (f : ℕ) → Defined out.old.numbers out.new.numbers (params_shape p) (λ w. defined_params t f (params_shape list.now) w) (λ w. define_params t f (params_shape list.now) w)) }
{
    match list {
        Params::Empty => Ok(Params::Empty),
        Params::Void => Ok(Params::Void),
        Params::List(list) => Ok(defined_param_list(out, list)?),
    }
}

/// What stands behind the name of a function with a body.
pub fn defined_signature(out: &mut Prober, form: &DeclForm) -> Result<Box<DeclForm>, NoMemory>
    ensures { IfOk result (λ d. (t : TablesShape) (f : ℕ) → Defined out.old.numbers out.new.numbers (decl_form_shape d.value) (λ w. defined_signature t f (decl_form_shape form.now) w) (λ w. define_parameters t f (decl_form_shape form.now) w)) }
{
    match form {
        DeclForm::Function(list) => {
            let list = defined_params(out, list)?;
            let made = boxed(out.alloc, DeclForm::Function(list))?;
            Ok(made)
        }
        DeclForm::Arrays(_) => {
            let made = copy_decl_form(out.alloc, form)?;
            Ok(made)
        }
    }
}
