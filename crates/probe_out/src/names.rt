//! Names where they are declared, without their probes.

ghost use Rattle.std.specs.Prelude.{◌≡◌, option_map, IfOk};
ghost use Rattle.c_tree.specs.Erased.{erased_name};

use c_base::place::NoMemory;
use c_syntax::tree::Named;
use std::alloc::Global;

/// A name.
pub fn erased_name(alloc: Global, name: &Named) -> Result<Named, NoMemory>
    ensures { IfOk result (λ n. n ≡ erased_name name.now) }
{
    let text = name.text.copy(alloc)?;
    Ok(Named {
        pos: name.pos,
        text,
        probe: None,
    })
}

/// A name, if there is one.
pub fn erased_maybe_name(alloc: Global, name: &Option<Named>) -> Result<Option<Named>, NoMemory>
    ensures { IfOk result (λ n. n ≡ option_map erased_name name.now) }
{
    match name {
        None => Ok(None),
        Some(name) => Ok(Some(erased_name(alloc, name)?)),
    }
}
