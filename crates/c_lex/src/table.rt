//! The names that directives named, and what they stand for.

ghost use Rattle.std.specs.Prelude.{◌≡◌, Some, None, OnOk, MatchOption, option_map, map, length};
ghost use Rattle.c_lex.specs.Macros.{found, rows_of, set_row, spelled};

use c_base::place::NoMemory;
use c_lex_pieces::front::Class;
use indexmap::IndexMap;

/// A token as it is spelled.
#[derive(Clone, Copy)]
pub struct Piece<'t> {
    pub class: Class,
    pub bytes: &'t [u8],
}

/// The names that directives named, in the order in which they came, with what each stands for; with nothing for one
/// that stands for itself.
pub type Table<'t> = IndexMap<&'t [u8], Option<Vec<Piece<'t>>>>;

/// The number of the name's row and what the name stands for.
#[tactic(auto, using(crate::proofs::Tables::found_at, crate::proofs::Tables::found_not))]
pub fn find<'m, 't>(table: &'m Table<'t>, name: &'t [u8]) -> Option<(usize, &'m [Piece<'t>])>
    ensures { let there = found name.now (rows_of table.now.entries) in MatchOption result (there ≡ None) (λ m. there ≡ Some (m.0, map spelled m.1.now)) }
{
    let (row, _, stands_for) = table.get_full(name)?;
    match stands_for {
        Some(body) => Some((row, body.as_slice())),
        None => None,
    }
}

/// From here on the name stands for these tokens, or for itself.
pub fn set<'t>(
    table: &mut Table<'t>,
    name: &'t [u8],
    body: Option<Vec<Piece<'t>>>,
) -> Result<(), NoMemory>
    ensures { OnOk result (rows_of table.new.entries ≡ set_row name.now (option_map (λ v. map spelled v.items) body.entry) (rows_of table.old.entries)) }
{
    match table.insert(name, body) {
        Ok(_) => Ok(()),
        Err(_) => Err(NoMemory),
    }
}
