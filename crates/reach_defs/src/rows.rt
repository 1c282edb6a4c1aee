//! The rows that are given.

use c_base::numbers::NumberList;

/// A row: the marks that it gives, the marks that it stops, and the rows that may come next.
#[derive(Drop)]
pub struct ReachRow {
    pub gives: NumberList,
    pub stops: NumberList,
    pub next: NumberList,
}
