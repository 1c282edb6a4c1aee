//! Programs that log what they do: a program with its probes, and that it does what the program does without them.
#![tactic(auto)]
