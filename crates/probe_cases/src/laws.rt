//! The laws, as contracts.

ghost use Rattle.probe_cases.specs.Cases.{ConstantsAreTyped, ListsAreTyped, ValuesAreRead, CasesDiffer, SelectsAreTyped, ChoicesAreTyped};

/// What a select probe writes for an integer is typed as it stands, as a constant with that value.
pub fn constants_are_typed()
    ensures { ConstantsAreTyped }
{}

/// So are all of its constants, in order.
pub fn lists_are_typed()
    ensures { ListsAreTyped }
{}

/// What typing knows of the value of an expression is read of its tree.
pub fn values_are_read()
    ensures { ValuesAreRead }
{}

/// The case constants of a switch are different values of the type that it chooses by.
pub fn cases_differ()
    ensures { CasesDiffer }
{}

/// A select probe is typed as it stands, where its expression is.
pub fn selects_are_typed()
    ensures { SelectsAreTyped }
{}

/// So is what a switch chooses by, with its select probe.
pub fn choices_are_typed()
    ensures { ChoicesAreTyped }
{}
