//! The laws on constant initialisers, as contracts.

ghost use Rattle.flow_values.specs.Made.{MadeGiveConstants};
ghost use Rattle.flow_values.specs.FilePrograms.{ProgramsHaveConstants, RowsSuffice};

/// Where each variable of file scope stands for an instance, and has room, what typing takes for a constant initialiser has a value.
pub fn made_give_constants()
    ensures { MadeGiveConstants }
{}

/// In a program of the checker what typing takes for a constant initialiser has a value, once the objects of file scope are made and where each
/// parameter has a row.
pub fn constants_have_values()
    ensures { ProgramsHaveConstants }
{}

/// In a program of the checker each string and each list that initialises a local variable gives it a value, where each parameter has a row.
pub fn rows_suffice()
    ensures { RowsSuffice }
{}
