//! The laws on calls, as contracts.

ghost use Rattle.flow_calls.specs.Walking.{EachCallWalks, EachCallLeaves};

/// What each call of a run did by itself is a walk of its function, wherever the run stops; and where main returns, a walk
/// that leaves the function's body.
pub fn calls_are_walks()
    ensures walks { EachCallWalks }
    ensures leaves { EachCallLeaves }
{}
