//! Typing counts tokens: where a complaint stands, and how many rows the tables and labels the switches have.
#![tactic(auto)]

pub mod laws;
