// A body behind a function of an unclear type, which is one of each function of its name.

ghost use Rattle.std.specs.Prelude.{◌≡◌, ◌≤◌, ◌-◌, length};
ghost use Rattle.c_tables.specs.Tables.{changed_at, function_shape, tables_shape};
ghost use Rattle.c_tables.specs.Rows.{has_name};
ghost use Rattle.c_tree.specs.Declaring.{with_body, with_bodies};
ghost use Rattle.c_types_decl.specs.Entities.{with_body_at};

use c_tables::tables::{FunctionRow, NumberList, Tables};
use std::alloc::Global;

// Whether the function has that name.
fn has_name(row: &FunctionRow, name: &[u8]) -> bool
    ensures { result ≡ has_name name.now (function_shape row.now) }
{
    name == row.name.bytes()
}

// The function with that number has a body, if it has that name.
fn give_body_at(tables: &mut Tables, i: u32, name: &[u8], alloc: Global)
    requires { (1 ≤ i) × (i ≤ length (tables_shape tables.old).functions) }
    ensures rows { tables_shape tables.new ≡ with_body_at name.now i (tables_shape tables.old) }
    ensures count { length (tables_shape tables.new).functions ≡ length (tables_shape tables.old).functions }
{
    if !has_name(tables.function(i), name) {
        return;
    }
    tables.define(i, NumberList::new(alloc));
}

/// Each function of that name has a body.
pub fn give_bodies(tables: &mut Tables, name: &[u8], alloc: Global)
    ensures { tables_shape tables.new ≡ with_bodies name.now (tables_shape tables.old) }
{
    for i in 0..tables.functions() {
        give_body_at(tables, i + 1, name, alloc);
    }
}
