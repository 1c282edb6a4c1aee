// Functions by their names and types: one is in the tables from its first mention on.

ghost use Rattle.std.specs.Prelude.{◌≡◌, ◌≤◌, [], ◌∷◌, length, map, OnOk, IfOk};
ghost use Rattle.c_base.specs.declared.place.IntKind.TheVariants.{Int};
ghost use Rattle.c_syntax.specs.Shape.{int};
ghost use Rattle.c_syntax.specs.View.{type_of};
ghost use Rattle.c_tree.specs.State.{same_types, is_function, function_number, mention};
ghost use Rattle.c_tables.specs.Tables.{tables_shape, function_shape};
ghost use Rattle.c_tables.specs.Builtins.{builtin_name, builtin_result, builtin_params};
ghost use Rattle.c_checker.specs.CheckerView.{state_of};

use crate::checker::Checker;
use c_base::place::{IntKind, NoMemory};
use c_syntax::text::Text;
use c_syntax::tree::CType;
use c_tables::builtins::Builtin;
use c_tables::tables::{FunctionRow, Tables};
use c_type_rules::kinds::{copy, same};
use std::alloc::Global;

impl Checker {
    /// The function has a row from now on: the number of that row.
    pub fn mention(
        &mut self,
        name: &[u8],
        gives: CType,
        params: Vec<CType>,
    ) -> Result<u32, NoMemory>
        requires { length name.now ≤ 4294967295 }
        ensures number { IfOk result (λ n. n ≡ (mention name.now (type_of gives) (map type_of params.items) (state_of self.old)).number) }
        ensures state { OnOk result (state_of self.new ≡ (mention name.now (type_of gives) (map type_of params.items) (state_of self.old)).state) }
    {
        if let Some(number) = function_number(&self.tables, name, &gives, &params) {
            return Ok(number);
        }
        let before = self.tables.functions();
        if before == u32::MAX {
            return Err(NoMemory);
        }
        let name = Text::from_bytes(self.alloc, name)?;
        self.tables.push_function(FunctionRow {
            name,
            result: gives,
            params,
            defined: None,
        })?;
        Ok(before + 1)
    }

    /// The same of a function that every program has.
    pub fn mention_builtin(&mut self, builtin: Builtin) -> Result<u32, NoMemory>
        ensures number { IfOk result (λ n. n ≡ (mention (builtin_name builtin) (builtin_result builtin) (builtin_params builtin) (state_of self.old)).number) }
        ensures state { OnOk result (state_of self.new ≡ (mention (builtin_name builtin) (builtin_result builtin) (builtin_params builtin) (state_of self.old)).state) }
    {
        match builtin {
            Builtin::GetChar => {
                let params = Vec::new(self.alloc);
                self.mention(b"getchar", CType::Int(IntKind::Int), params)
            }
            Builtin::PutChar => {
                let params = one_int(self.alloc)?;
                self.mention(b"putchar", CType::Int(IntKind::Int), params)
            }
            Builtin::Exit => {
                let params = one_int(self.alloc)?;
                self.mention(b"exit", CType::Void, params)
            }
        }
    }
}

// The type int, alone in a list.
fn one_int(alloc: Global) -> Result<Vec<CType>, NoMemory>
    ensures { IfOk result (λ v. map type_of v.items ≡ int Int ∷ []) }
{
    let mut kinds = Vec::new(alloc);
    match kinds.push(CType::Int(IntKind::Int)) {
        Ok(()) => Ok(kinds),
        Err(_) => Err(NoMemory),
    }
}

/// The number of the function with that name and type.
pub fn function_number(tables: &Tables, name: &[u8], gives: &CType, params: &[CType]) -> Option<u32>
    ensures { result ≡ function_number name.now (type_of gives.now) (map type_of params.now) (tables_shape tables.now).functions }
{
    let Some(first) = tables.first_named(name) else {
        return None;
    };
    for i in first.saturating_sub(1)..tables.functions() {
        if is_function(tables.function(i + 1), name, gives, params) {
            return Some(i + 1);
        }
    }
    None
}

// Whether the function has that name and type.
fn is_function(row: &FunctionRow, name: &[u8], gives: &CType, params: &[CType]) -> bool
    ensures { result ≡ is_function name.now (type_of gives.now) (map type_of params.now) (function_shape row.now) }
{
    name == row.name.bytes() && same(gives, &row.result) && same_types(params, &row.params)
}

/// Whether the types are equal, one by one.
pub fn same_types(a: &[CType], b: &[CType]) -> bool
    ensures { result ≡ same_types (map type_of a.now) (map type_of b.now) }
{
    for i in 0..a.len() {
        if i >= b.len() || !same(&a[i], &b[i]) {
            return false;
        }
    }
    a.len() == b.len()
}

/// The same types once more.
pub fn copies(kinds: &[CType], alloc: Global) -> Result<Vec<CType>, NoMemory>
    ensures { IfOk result (λ v. map type_of v.items ≡ map type_of kinds.now) }
{
    let mut all = Vec::new(alloc);
    for i in 0..kinds.len() {
        let kind = copy(&kinds[i], alloc)?;
        if all.push(kind).is_err() {
            return Err(NoMemory);
        }
    }
    Ok(all)
}
