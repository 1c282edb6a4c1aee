//! The laws, as contracts.

ghost use Rattle.probe_typed.specs.Typed.{NodesAreTypedAs, TestsAreTypedNear, LoopTestsAreTypedNear, ArmsAreTypedNear, ArgumentsAreTypedAs, MaybesAreTypedAs, MaybeTestsAreTypedAs, StepsAreTypedAs, ResultsAreTypedAs, TestsAreJudgedAlike};

/// An expression with its probes is typed as it stands, with the sort of the expression without them.
#[tactic(auto, using(crate::proofs::Parts::nodes_typed))]
pub fn nodes_are_typed_as()
    ensures { NodesAreTypedAs }
{}

/// At a test position too, with a sort near to that one.
#[tactic(auto, using(crate::proofs::Parts::tests_typed))]
pub fn tests_are_typed_near()
    ensures { TestsAreTypedNear }
{}

/// And as the test of a loop.
#[tactic(auto, using(crate::proofs::Parts::loop_tests_typed))]
pub fn loop_tests_are_typed_near()
    ensures { LoopTestsAreTypedNear }
{}

/// And as a block.
#[tactic(auto, using(crate::proofs::Parts::arms_typed))]
pub fn arms_are_typed_near()
    ensures { ArmsAreTypedNear }
{}

/// Arguments with their probes are typed as they stand.
#[tactic(auto, using(crate::proofs::Parts::nodes_given))]
pub fn arguments_are_typed_as()
    ensures { ArgumentsAreTypedAs }
{}

/// So is an expression that may be left out.
#[tactic(auto, using(crate::proofs::Parts::maybes_typed))]
pub fn maybes_are_typed_as()
    ensures { MaybesAreTypedAs }
{}

/// And the test of a `for`.
#[tactic(auto, using(crate::proofs::Parts::maybe_tests_typed))]
pub fn maybe_tests_are_typed_as()
    ensures { MaybeTestsAreTypedAs }
{}

/// And the step of a `for`.
#[tactic(auto, using(crate::proofs::Parts::steps_typed))]
pub fn steps_are_typed_as()
    ensures { StepsAreTypedAs }
{}

/// And what a function gives back.
#[tactic(auto, using(crate::proofs::Parts::results_typed))]
pub fn results_are_typed_as()
    ensures { ResultsAreTypedAs }
{}

/// A test of a statement is judged alike with its probes.
#[tactic(auto, using(crate::proofs::Parts::judged_alike))]
pub fn tests_are_judged_alike()
    ensures { TestsAreJudgedAlike }
{}
