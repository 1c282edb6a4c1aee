//! The laws, as contracts: of declarations and statements, of units, of programs.

ghost use Rattle.probe_programs.specs.Stated.{DeclsAreTypedAs, StmtsAreTypedAs, CompoundsAreTypedAs};
ghost use Rattle.probe_programs.specs.Units.{DeclsAreDefinedAs, FunctionsAreDefinedAs, ExternalsAreTypedAs, UnitsAreTypedAs};
ghost use Rattle.probe_programs.specs.Programs.{ProbedIsTypedAs, ProbedIsProgram};

/// Local declarations with their probes are typed as they stand.
#[tactic(auto, using(crate::proofs::Locals::decls_typed))]
pub fn decls_are_typed_as()
    ensures { DeclsAreTypedAs }
{}

/// So are statements, blocks or not.
#[tactic(auto, using(crate::proofs::Bodies::stmts_typed))]
pub fn stmts_are_typed_as()
    ensures { StmtsAreTypedAs }
{}

/// So are the bodies of functions.
#[tactic(auto, using(crate::proofs::Bodies::compounds_typed))]
pub fn compounds_are_typed_as()
    ensures { CompoundsAreTypedAs }
{}

/// Declarations of file scope with their probes are typed as they stand.
#[tactic(auto, using(crate::proofs::FileScope::decl_typed))]
pub fn decls_are_defined_as()
    ensures { DeclsAreDefinedAs }
{}

/// So is the declarator of a function with a body, whose parameters have probes.
pub fn functions_are_defined_as()
    ensures { FunctionsAreDefinedAs }
{}

/// So are declarations and functions of a unit, where bodies of functions are.
#[tactic(auto, using(crate::proofs::Units::external_so))]
pub fn externals_are_typed_as()
    ensures { ExternalsAreTypedAs }
{}

/// So is a unit with its probes, where bodies of functions are: nothing is complained of, and the tables are those of the unit without probes.
#[tactic(auto, using(crate::proofs::Units::units_typed))]
pub fn units_are_typed_as()
    ensures { UnitsAreTypedAs }
{}

/// A program with its probes, typed without its notes, has them again, with the program's tables and no complaint.
pub fn probed_is_typed_as()
    ensures { ProbedIsTypedAs }
{}

/// A program with its probes is a program.
pub fn probed_is_program()
    ensures { ProbedIsProgram }
{}
