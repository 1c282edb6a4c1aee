//! Programs with their probes.

ghost use Rattle.std.specs.Prelude.{◌≡◌, ℕ, [], ◌∷◌, map, IfOk};
ghost use Rattle.c_syntax.specs.Shape.{declarator};
ghost use Rattle.c_syntax.specs.View.{spec_list, declarator_shape, decl_form_shape, maybe_init, compound_shape, external_shape, unit_shape};
ghost use Rattle.c_tables.specs.Tables.{TablesShape};
ghost use Rattle.c_tables.specs.Rows.{text_of};
ghost use Rattle.c_walk.specs.Units.{function_of, define_parameters, walk_function, walk_external, no_items};
ghost use Rattle.probe_rules.specs.Instrumented.{defined_signature, probed_function, probed_external, probed_externals, instrumented_unit};
ghost use Rattle.probe_in.specs.Defined.{Defined};

use crate::defining::{defined_decl, defined_signature};
use crate::statements::probed_compound;
use c_base::place::{NoMemory, Pos};
use c_copy::build::new_declarator;
use c_copy::parts::{boxed, copy_maybe_named, copy_stars, put, put_inner};
use c_copy::tree::{copy_maybe_init, copy_specs};
use c_syntax::text::Text;
use c_syntax::tree::{Compound, Declarator, External, ProbeMark, ProgramLine, Spec, Unit};
use probe_expr::names::block_mark;
use probe_expr::nodes::Prober;
use probe_expr::numbers::Numbers;
use std::alloc::Global;

// The name of a function with its parameters, which are defined.
fn probed_name(out: &mut Prober, name: &Declarator) -> Result<Box<Declarator>, NoMemory>
    ensures { IfOk result (λ d. (t : TablesShape) (f : ℕ) → Defined out.old.numbers out.new.numbers (declarator_shape d.value) (λ w. declarator name.now.stars.items name.now.name (defined_signature t f (decl_form_shape name.now.form) w) (maybe_init name.now.init)) (λ w. define_parameters t f (decl_form_shape name.now.form) w)) }
{
    let stars = copy_stars(out.alloc, &name.stars)?;
    let named = copy_maybe_named(out.alloc, &name.name)?;
    let init = copy_maybe_init(out.alloc, &name.init)?;
    let form = defined_signature(out, &name.form)?;
    let made = new_declarator(out.alloc, stars, named, form, init)?;
    Ok(made)
}

fn one_mark(alloc: Global, mark: ProbeMark) -> Result<Vec<ProbeMark>, NoMemory>
    ensures { IfOk result (λ v. v.items ≡ mark ∷ []) }
{
    let mut marks = Vec::new(alloc);
    put(&mut marks, mark)?;
    Ok(marks)
}

// A function, whose body is a block.
fn probed_function(
    out: &mut Prober,
    specs: &[Spec],
    name: &Declarator,
    body: &Compound,
) -> Result<Box<External>, NoMemory>
    ensures { IfOk result (λ e. (t : TablesShape) → Defined out.old.numbers out.new.numbers (external_shape e.value) (λ w. probed_function t (spec_list specs.now) (declarator_shape name.now) (compound_shape body.now) w) (λ w. walk_function t (function_of t (text_of name.now.name)) (decl_form_shape name.now.form) (compound_shape body.now) w)) }
{
    let specs = copy_specs(out.alloc, specs)?;
    let name = probed_name(out, name)?;
    let mark = block_mark(out.alloc, out.numbers, body.pos)?;
    let marks = one_mark(out.alloc, mark)?;
    out.numbers.block()?;
    let body = probed_compound(out, body)?;
    let made = boxed(
        out.alloc,
        External::Function(specs, Box::into_inner(name), marks, body),
    )?;
    Ok(made)
}

fn probed_external(out: &mut Prober, external: &External) -> Result<Box<External>, NoMemory>
    ensures { IfOk result (λ e. (t : TablesShape) → Defined out.old.numbers out.new.numbers (external_shape e.value) (λ w. probed_external t (external_shape external.now) w) (λ w. walk_external t (external_shape external.now) w)) }
{
    match external {
        External::Function(specs, name, _, body) => {
            let made = probed_function(out, specs, name, body)?;
            Ok(made)
        }
        External::Plain(decl) => {
            let decl = defined_decl(out, decl)?;
            let made = boxed(out.alloc, External::Plain(decl))?;
            Ok(made)
        }
    }
}

fn probed_externals(alloc: Global, externals: &[External]) -> Result<Vec<External>, NoMemory>
    ensures { IfOk result (λ v. (t : TablesShape) → map external_shape v.items ≡ probed_externals t (map external_shape externals.now) no_items) }
{
    let mut out = Prober {
        alloc,
        numbers: Numbers::none(),
    };
    let mut made = Vec::new(alloc);
    for external in externals {
        let one = probed_external(&mut out, external)?;
        put_inner(&mut made, one)?;
    }
    Ok(made)
}

/// The unit with its probes, behind a line with that digest. A probe's number is how many of its kind come before it, so no table is asked.
pub fn instrumented(alloc: Global, digest: &Text, unit: &Unit) -> Result<Unit, NoMemory>
    ensures { IfOk result (λ u. (t : TablesShape) → unit_shape u ≡ instrumented_unit digest.now t (unit_shape unit.now)) }
{
    let digest = digest.copy(alloc)?;
    let externals = probed_externals(alloc, &unit.externals)?;
    let line = Some(ProgramLine {
        pos: Pos { line: 1, col: 1 },
        digest,
    });
    Ok(Unit {
        pos: unit.pos,
        line,
        externals,
        last: unit.last,
    })
}
