//! The laws, as contracts.

ghost use Rattle.probe_moved.specs.Moved.{DeclarationsMove, FunctionIsKept, LabelsMove, MarkedParameters, MarkedVariables};

/// Declarations without probes are typed alike, whatever stands before them, which probes were seen and what was complained of.
#[tactic(auto, using(crate::proofs::Moves::declarations_move))]
pub fn declarations_move()
    ensures { DeclarationsMove }
{}

/// So are labels without probes.
#[tactic(auto, using(crate::proofs::Moves::labels_move))]
pub fn labels_move()
    ensures { LabelsMove }
{}

/// Behind a part of a unit no function is open, where none was open before it.
#[tactic(auto, using(crate::proofs::KeptUnits::externals_kept))]
pub fn function_is_kept()
    ensures { FunctionIsKept }
{}

/// A variable with a probe round its name, whose number is new, is typed as without it.
#[tactic(auto, using(crate::proofs::Moves::marked_variables))]
pub fn marked_variables()
    ensures { MarkedVariables }
{}

/// So is a parameter of a definition.
#[tactic(auto, using(crate::proofs::Moves::marked_parameters))]
pub fn marked_parameters()
    ensures { MarkedParameters }
{}
