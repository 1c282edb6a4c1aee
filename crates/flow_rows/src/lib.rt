//! Rows of a function, of which the paths are its walks: expressions, declarations and statements.
#![tactic(auto)]

pub mod cases;
pub mod declarations;
pub mod layer;
pub mod leaving;
pub mod nodes;
pub mod numbers;
pub mod optional;
pub mod row;
pub mod rows;
pub mod sites;
pub mod statements;
pub mod targets;
