//! Blocks, decisions, definitions and uses of a program, numbered.
#![tactic(auto)]

pub mod all_sites;
pub mod limits;
pub mod lists;
mod names;
mod naming;
pub mod numbered;

pub use all_sites::{SiteRefusal, sites};
pub use c_sites_probes::owners;
pub use lists::{Decision, DefSite, UseSite};
pub use numbered::Sites;
