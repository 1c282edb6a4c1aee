//! The words of the command line.

ghost use Rattle.std.specs.Prelude.{◌≡◌, IfOk, drop};
ghost use Rattle.std.specs.Vec.Iter.{into_iter_items};

use std::alloc::Global;
use std::env;
use std::env::Args;
use std::io::ErrorKind;
use std::rt::Env;

/// What stands in the place of the words.
pub enum NoWords {
    NoMemory,
    Failed,
}

/// The words behind the first one.
fn behind_first(alloc: Global, args: Args) -> Result<Vec<String>, NoWords>
    ensures { IfOk result (λ words. words.items ≡ drop 1 (into_iter_items args)) }
{
    let mut rest = args;
    let _first = rest.next();
    let mut words = Vec::new(alloc);
    for word in rest {
        if words.push(word).is_err() {
            return Err(NoWords::NoMemory);
        }
    }
    Ok(words)
}

/// The words of the command line, without the program's own name.
pub fn given_words<R: Env + AllocGlobal>(rt: &R) -> Result<Vec<String>, NoWords> {
    match env::args(rt) {
        Ok(args) => behind_first(rt.alloc(), args),
        Err(error) => Err(match error.kind() {
            ErrorKind::OutOfMemory => NoWords::NoMemory,
            _ => NoWords::Failed,
        }),
    }
}
