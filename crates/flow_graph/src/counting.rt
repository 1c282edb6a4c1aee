//! Declarations of file scope (C89, 3.7.2): nothing is met at them, but their variables and definitions are numbered.

ghost use Rattle.std.specs.Prelude.{ℕ, OnOk};
ghost use Rattle.c_syntax.specs.View.{declarator_shape, declarator_list, decl_shape};
ghost use Rattle.c_tables.specs.Tables.{TablesShape};
ghost use Rattle.c_walk.specs.Units.{define_declarator, define_declarators, define_decl};
ghost use Rattle.flow_rows.specs.Counts.{Counted};

use c_base::place::NoMemory;
use c_syntax::tree::{Decl, DeclForm, Declarator};
use flow_rows::numbers::Numbers;

fn count_name(numbers: &mut Numbers, name: &Declarator) -> Result<(), NoMemory>
    ensures { OnOk result ((t : TablesShape) (f : ℕ) → Counted numbers.old numbers.new (λ c w. define_declarator t f (declarator_shape name.now) w)) }
{
    match &name.form {
        DeclForm::Arrays(_) => {
            numbers.variable()?;
            numbers.def()?;
            Ok(())
        }
        DeclForm::Function(_) => Ok(()),
    }
}

fn count_names(numbers: &mut Numbers, names: &[Declarator]) -> Result<(), NoMemory>
    ensures { OnOk result ((t : TablesShape) (f : ℕ) → Counted numbers.old numbers.new (λ c w. define_declarators t f (declarator_list names.now) w)) }
{
    for name in names {
        count_name(numbers, name)?;
    }
    Ok(())
}

/// A declaration's variables and definitions are numbered.
pub fn count_decl(numbers: &mut Numbers, decl: &Decl) -> Result<(), NoMemory>
    ensures { OnOk result ((t : TablesShape) (f : ℕ) → Counted numbers.old numbers.new (λ c w. define_decl t f (decl_shape decl.now) w)) }
{
    count_names(numbers, &decl.names)?;
    Ok(())
}
