//! Tests of the layers below the commands.
#![tactic(auto)]

pub mod again;
#[cfg(test)]
mod arithmetic;
#[cfg(test)]
mod collector;
#[cfg(test)]
mod erased;
#[cfg(test)]
mod events;
#[cfg(test)]
mod lexer;
#[cfg(test)]
mod listed;
#[cfg(test)]
mod pieces;
#[cfg(test)]
mod scopes;
#[cfg(test)]
mod store;
#[cfg(test)]
mod tables;
#[cfg(test)]
mod traces;
#[cfg(test)]
mod watchers;
