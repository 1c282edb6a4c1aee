//! Which marks reach which rows: each row gives marks, stops marks, and leads to other rows.
#![tactic(auto)]

mod grid;
mod marks;
mod pass;
pub mod reaching;
pub mod rows;
pub mod steps;
mod table;
mod worklist;

pub use reaching::reach;
pub use rows::ReachRow;
pub use steps::Steps;
pub use table::Reach;
