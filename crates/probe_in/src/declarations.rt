// Local declarations with their probes.

ghost use Rattle.std.specs.Prelude.{◌≡◌, IfOk};
ghost use Rattle.c_syntax.specs.Shape.{declarator, arrays, one_init, LengthShapes};
ghost use Rattle.c_syntax.specs.View.{init_shape, declarator_shape, declarator_list, decl_form_shape, decl_shape, decl_list, lengths_list, maybe_init};
ghost use Rattle.c_tables.specs.Tables.{TablesShape};
ghost use Rattle.c_walk.specs.Stating.{walk_init, walk_maybe_init, walk_declarator, walk_declarators, walk_decl, walk_decls};
ghost use Rattle.probe_rules.specs.ProbedStatements.{probed_init, probed_variable, probed_declarator, probed_declarators, probed_decl, probed_decls};
ghost use Rattle.probe_expr.specs.Numbers.{Numbered};

use c_base::place::NoMemory;
use c_copy::build::{new_decl, new_declarator};
use c_copy::parts::{boxed, copy_stars, put, put_inner};
use c_copy::tree::{copy_decl_form, copy_declarator, copy_init, copy_specs};
use c_syntax::tree::{Decl, DeclForm, Declarator, Init};
use probe_expr::names::defined_name;
use probe_expr::nodes::Prober;

// An initialiser; nothing in braces has a probe.
fn probed_init(out: &mut Prober, init: &Init) -> Result<Box<Init>, NoMemory>
    ensures { IfOk result (λ i. Numbered out.old.numbers out.new.numbers (init_shape i.value) (λ c w. probed_init c (init_shape init.now) w) (λ c w. walk_init c (init_shape init.now) w)) }
{
    match init {
        Init::One(node) => {
            let node = out.read(node)?;
            let made = boxed(out.alloc, Init::One(Box::into_inner(node)))?;
            Ok(made)
        }
        Init::List(_, _, _) => {
            let made = copy_init(out.alloc, init)?;
            Ok(made)
        }
    }
}

// A variable with its initialiser, which is defined at its name.
fn defined_variable(
    out: &mut Prober,
    name: &Declarator,
    init: &Init,
) -> Result<Box<Declarator>, NoMemory>
    ensures { IfOk result (λ d. (t : TablesShape) (ls : LengthShapes) → decl_form_shape name.now.form ≡ arrays ls → Numbered out.old.numbers out.new.numbers (declarator_shape d.value) (λ c w. probed_variable t c name.now.stars.items name.now.name ls (one_init (init_shape init.now)) w) (λ c w. walk_maybe_init t c name.now.name (one_init (init_shape init.now)) w)) }
{
    let named = defined_name(out.alloc, out.numbers, &name.name)?;
    out.numbers.def()?;
    let stars = copy_stars(out.alloc, &name.stars)?;
    let init = probed_init(out, init)?;
    let form = copy_decl_form(out.alloc, &name.form)?;
    let made = new_declarator(out.alloc, stars, named, form, Some(init))?;
    Ok(made)
}

// A variable, with its initialiser or without.
fn probed_variable(out: &mut Prober, name: &Declarator) -> Result<Box<Declarator>, NoMemory>
    ensures { IfOk result (λ d. (t : TablesShape) (ls : LengthShapes) → decl_form_shape name.now.form ≡ arrays ls → Numbered out.old.numbers out.new.numbers (declarator_shape d.value) (λ c w. probed_variable t c name.now.stars.items name.now.name ls (maybe_init name.now.init) w) (λ c w. walk_maybe_init t c name.now.name (maybe_init name.now.init) w)) }
{
    match &name.init {
        None => {
            let made = copy_declarator(out.alloc, name)?;
            Ok(made)
        }
        Some(init) => {
            let made = defined_variable(out, name, init)?;
            Ok(made)
        }
    }
}

fn probed_declarator(out: &mut Prober, name: &Declarator) -> Result<Box<Declarator>, NoMemory>
    ensures { IfOk result (λ d. (t : TablesShape) → Numbered out.old.numbers out.new.numbers (declarator_shape d.value) (λ c w. probed_declarator t c (declarator_shape name.now) w) (λ c w. walk_declarator t c (declarator_shape name.now) w)) }
{
    match &name.form {
        DeclForm::Arrays(_) => {
            let made = probed_variable(out, name)?;
            Ok(made)
        }
        DeclForm::Function(_) => {
            let made = copy_declarator(out.alloc, name)?;
            Ok(made)
        }
    }
}

fn probed_declarators(out: &mut Prober, names: &[Declarator]) -> Result<Vec<Declarator>, NoMemory>
    ensures { IfOk result (λ v. (t : TablesShape) → Numbered out.old.numbers out.new.numbers (declarator_list v.items) (λ c w. probed_declarators t c (declarator_list names.now) w) (λ c w. walk_declarators t c (declarator_list names.now) w)) }
{
    let mut made = Vec::new(out.alloc);
    for name in names {
        let one = probed_declarator(out, name)?;
        put_inner(&mut made, one)?;
    }
    Ok(made)
}

#[tactic(auto, using(std::proofs::lemmas::Grind::common_steps, c_syntax::proofs::Open::decl_open))]
fn probed_decl(out: &mut Prober, decl: &Decl) -> Result<Decl, NoMemory>
    ensures { IfOk result (λ d. (t : TablesShape) → Numbered out.old.numbers out.new.numbers (decl_shape d) (λ c w. probed_decl t c (decl_shape decl.now) w) (λ c w. walk_decl t c (decl_shape decl.now) w)) }
{
    let specs = copy_specs(out.alloc, &decl.specs)?;
    let names = probed_declarators(out, &decl.names)?;
    Ok(new_decl(decl.pos, specs, names))
}

/// The declarations of a body.
pub fn probed_decls(out: &mut Prober, decls: &[Decl]) -> Result<Vec<Decl>, NoMemory>
    ensures { IfOk result (λ v. (t : TablesShape) → Numbered out.old.numbers out.new.numbers (decl_list v.items) (λ c w. probed_decls t c (decl_list decls.now) w) (λ c w. walk_decls t c (decl_list decls.now) w)) }
{
    let mut made = Vec::new(out.alloc);
    for decl in decls {
        let one = probed_decl(out, decl)?;
        put(&mut made, one)?;
    }
    Ok(made)
}
