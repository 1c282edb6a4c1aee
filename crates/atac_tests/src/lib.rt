//! Tests of the commands, over shelves and sinks in memory.
#![tactic(auto)]

#[cfg(test)]
mod calls;
#[cfg(test)]
mod failing;
#[cfg(test)]
mod flows;
#[cfg(test)]
mod handed;
#[cfg(test)]
mod tests;
