//! Units without their probes and their program line.

ghost use Rattle.std.specs.Prelude.{◌≡◌, map, IfOk};
ghost use Rattle.c_syntax.specs.View.{external_shape, unit_shape};
ghost use Rattle.c_tree.specs.Erased.{erased_external, erased_unit};

use crate::statements::erased_compound;
use crate::tree::{erased_decl, erased_declarator, erased_specs};
use c_base::place::NoMemory;
use c_copy::parts::{boxed, put_inner};
use c_syntax::tree::{External, Unit};
use std::alloc::Global;

// A function, with no probe in front of its body, or a declaration.
fn erased_external(alloc: Global, external: &External) -> Result<Box<External>, NoMemory>
    ensures { IfOk result (λ e. external_shape e.value ≡ erased_external (external_shape external.now)) }
{
    match external {
        External::Function(specs, name, _, body) => {
            let specs = erased_specs(alloc, specs)?;
            let name = erased_declarator(alloc, name)?;
            let body = erased_compound(alloc, body)?;
            boxed(
                alloc,
                External::Function(specs, Box::into_inner(name), Vec::new(alloc), body),
            )
        }
        External::Plain(decl) => {
            let decl = erased_decl(alloc, decl)?;
            boxed(alloc, External::Plain(decl))
        }
    }
}

fn erased_externals(alloc: Global, externals: &[External]) -> Result<Vec<External>, NoMemory>
    ensures { IfOk result (λ v. map external_shape v.items ≡ map erased_external (map external_shape externals.now)) }
{
    let mut made = Vec::new(alloc);
    for external in externals {
        let inner = erased_external(alloc, external)?;
        put_inner(&mut made, inner)?;
    }
    Ok(made)
}

/// The unit.
pub fn erased_unit(alloc: Global, unit: &Unit) -> Result<Unit, NoMemory>
    ensures { IfOk result (λ u. unit_shape u ≡ erased_unit (unit_shape unit.now)) }
{
    let externals = erased_externals(alloc, &unit.externals)?;
    Ok(Unit {
        pos: unit.pos,
        line: None,
        externals,
        last: unit.last,
    })
}
