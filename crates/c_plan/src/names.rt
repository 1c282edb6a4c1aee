// The numbers of functions by their names.

ghost use Rattle.std.specs.Prelude.{◌≡◌};
ghost use Rattle.c_tables.specs.Tables.{tables_shape, function_shape};
ghost use Rattle.c_tables.specs.Rows.{text_of};
ghost use Rattle.c_walk.specs.Units.{has_body, function_of};

use c_syntax::tree::Named;
use c_tables::tables::{FunctionRow, Tables};

/// The number of the function of that name that has a body; 0 where there is none.
pub fn function_named(tables: &Tables, name: &Option<Named>) -> u32
    ensures { result ≡ function_of (tables_shape tables.now) (text_of name.now) }
{
    match name {
        None => function_of(tables, b""),
        Some(name) => function_of(tables, name.text.bytes()),
    }
}

// It is looked for from the first function of the name on.
fn function_of(tables: &Tables, name: &[u8]) -> u32
    ensures { result ≡ function_of (tables_shape tables.now) name.now }
{
    let Some(first) = tables.first_named(name) else {
        return 0;
    };
    for i in first - 1..tables.functions() {
        if has_body(name, tables.function(i + 1)) {
            return i + 1;
        }
    }
    0
}

fn has_body(name: &[u8], row: &FunctionRow) -> bool
    ensures { result ≡ has_body name.now (function_shape row.now) }
{
    name == row.name.bytes() && row.defined.is_some()
}
