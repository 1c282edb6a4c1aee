//! The function with which a run begins.

ghost use Rattle.std.specs.Prelude.{◌≡◌};
ghost use Rattle.c_tables.specs.Tables.{tables_shape, function_shape};
ghost use Rattle.c_tree.specs.Units.{is_main};
ghost use Rattle.c_meaning.specs.Runs.{main_number};

use c_base::place::IntKind;
use c_syntax::tree::CType;
use c_tables::tables::{FunctionRow, Tables};
use c_type_rules::kinds::same;

/// The number of the function with which a run begins, `int main(void)` with a body (C89, 2.1.2.2.1).
pub fn main_number(tables: &Tables) -> Option<u32>
    ensures { result ≡ main_number (tables_shape tables.now) }
{
    for i in 0..tables.functions() {
        if is_main(tables.function(i + 1)) {
            return Some(i + 1);
        }
    }
    None
}

// Whether it is that function.
fn is_main(row: &FunctionRow) -> bool
    ensures { result ≡ is_main (function_shape row.now) }
{
    b"main".as_slice() == row.name.bytes()
        && same(&CType::Int(IntKind::Int), &row.result)
        && row.params.is_empty()
        && row.defined.is_some()
}
