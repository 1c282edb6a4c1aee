//! The texts of lists and reports.
#![tactic(auto)]

pub mod kinds;
pub mod lines;
pub mod listing;
pub mod reporting;

pub use listing::list_text;
pub use reporting::{report, totals};
