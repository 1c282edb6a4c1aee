// The fields of a member list (C89, 3.5.2.1), found by their names.

ghost use Rattle.std.specs.Prelude.{◌≡◌, map};
ghost use Rattle.c_tables.specs.Tables.{field_shape};
ghost use Rattle.c_types_expr.specs.FieldNames.{names_of};

mod adding;

pub use adding::place_field;
use c_scopes::names::Names;
use c_tables::tables::FieldRow;

/// The fields of a member list so far, and their names.
#[derive(Drop)]
pub struct Members {
    rows: Vec<FieldRow>,
    names: Names<u32>,
    ghost named: { names ≡ names_of (map field_shape rows.items) },
}
