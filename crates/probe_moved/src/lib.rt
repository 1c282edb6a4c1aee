//! Declarations and labels without probes are typed alike wherever they stand, and so are declared names with them: it matters neither how many tokens stand before, nor which probes were seen, nor what was complained of.
#![tactic(auto)]

pub mod laws;
