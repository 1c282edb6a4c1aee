//! The items of a program and their list, from its text.

ghost use Rattle.std.specs.Prelude.{◌≡◌, ◌≤◌, length, string_bytes, IfOk};
ghost use Rattle.atac_programs.specs.Understanding.{ItemisedAs, ListedAs};

use crate::checking::{Checking, check, said};
use atac_base::items::Items;
use c_base::place::{NoMemory, Pos};
use c_sites::Sites;
use c_tree::program::Program;
use cover_report::list_text;
use pair_list::pairs::ListRefusal;
use std::alloc::Global;

/// What comes of a text whose items are wanted: why there are none, or its program, sites and items.
#[derive(Drop)]
pub enum Itemising {
    Refuses(String),
    Has(Program, Sites, Items),
}

/// What a text is read as whose items are to be listed: refused, with what is said of it; or the list.
#[derive(Drop)]
pub enum Listing {
    Refuses(String),
    Lists(Vec<u8>),
}

/// The number of the refusal of too many pairs, which is said of the program's first place.
const TOO_MANY_PAIRS: u8 = 51;

/// Reads the text of a program and finds its items: why it has none that are few enough, or the items.
pub fn itemise(alloc: Global, text: &[u8]) -> Result<Itemising, NoMemory>
    requires { length text.now ≤ 1048576 }
    ensures { IfOk result (ItemisedAs text.now) }
{
    let (program, sites) = match check(alloc, text)? {
        Checking::Refuses(said) => return Ok(Itemising::Refuses(said)),
        Checking::Accepts(program, sites) => (program, sites),
    };
    match pair_list::list(alloc, &program, &sites) {
        Ok(items) => Ok(Itemising::Has(program, sites, items)),
        Err(ListRefusal::TooManyPairs) => {
            let place = Pos { line: 1, col: 1 };
            Ok(Itemising::Refuses(said(alloc, TOO_MANY_PAIRS, place)?))
        }
        Err(ListRefusal::NoMemory) => Err(NoMemory),
    }
}

/// Reads the text of a program, and lists its items: why there is no list, or the list.
pub fn list(alloc: Global, text: &[u8]) -> Result<Listing, NoMemory>
    requires { length text.now ≤ 1048576 }
    ensures { IfOk result (ListedAs text.now) }
{
    match itemise(alloc, text)? {
        Itemising::Refuses(said) => Ok(Listing::Refuses(said)),
        Itemising::Has(_, _, items) => Ok(Listing::Lists(list_text(alloc, &items)?)),
    }
}
