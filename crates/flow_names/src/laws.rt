//! The laws, as contracts.

ghost use Rattle.flow_names.specs.Keeping.{CallsKeepNames, ExpressionsKeepNames};

/// What names stand for is the same behind each call of a program.
pub fn calls_keep_names()
    ensures { CallsKeepNames }
{}

/// So it is behind each expression, where it is so behind each call.
pub fn expressions_keep_names()
    ensures { ExpressionsKeepNames }
{}
