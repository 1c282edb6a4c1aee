//! One row of each table.

ghost use Rattle.std.specs.Prelude.{◌≡◌, length, IfOk};
ghost use Rattle.c_tables.specs.Tables.{tables_shape};

use c_base::place::IntKind;
use c_syntax::text::Text;
use c_syntax::tree::CType;
use c_tables::tables::{
    FieldRow, FunctionRow, LiteralRow, NumberList, StructRow, Tables, VariableRow,
};
use std::alloc::Global;
use std::test::Fail;

fn filled(alloc: Global) -> Result<Tables, Fail>
    ensures { IfOk result (λ t. (length (tables_shape t).structures ≡ 1) × (length (tables_shape t).functions ≡ 1) × (length (tables_shape t).variables ≡ 1) × (length (tables_shape t).literals ≡ 1)) }
{
    let mut tables = Tables::new(alloc);
    let tag = Some(Text::from_bytes(alloc, b"s")?);
    let fields = Vec::new(alloc);
    tables.push_structure(StructRow { tag, fields })?;
    let name = Text::from_bytes(alloc, b"f")?;
    let params = Vec::new(alloc);
    let result = CType::Void;
    let defined = None;
    tables.push_function(FunctionRow {
        name,
        result,
        params,
        defined,
    })?;
    let name = Text::from_bytes(alloc, b"x")?;
    let kind = CType::Struct(1);
    tables.push_variable(VariableRow {
        name,
        kind,
        function: 0,
    })?;
    let bytes = Text::from_bytes(alloc, b"hello")?;
    tables.push_literal(LiteralRow { bytes })?;
    Ok(tables)
}

#[test]
fn one_row_each(rt: HostRuntime) -> Result<(), Fail> {
    let alloc = rt.alloc();
    let mut tables = filled(alloc)?;
    assert_eq!(rt;
        tables.structures() + tables.functions() + tables.variables() + tables.literals(),
        4
    );
    assert_eq!(rt; tables.literal(1).bytes.len(), 5);
    assert_eq!(rt; tables.variable(1).name.bytes(), b"x".as_slice());
    let mut fields = Vec::new(alloc);
    let name = Text::from_bytes(alloc, b"m")?;
    fields.push(FieldRow {
        name,
        kind: CType::Int(IntKind::Char),
    })?;
    tables.set_fields(1, fields);
    assert_eq!(rt; tables.structure(1).fields.len(), 1);
    assert!(rt; tables.structure(1).tag.is_some());
    let mut params = NumberList::new(alloc);
    params.push(7)?;
    tables.define(1, params);
    match &tables.function(1).defined {
        Some(numbers) => assert_eq!(rt; numbers.numbers(), [7].as_slice()),
        None => assert!(rt; false),
    }
    Ok(())
}
