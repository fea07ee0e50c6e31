//! Floor: analysis. Freeness: which variables of a clause are surely variables at run time.
//!
//! Stands on ap_sharing's sets of variables. What the crates above use: what is free has a variable as its instance.
#![tactic(auto)]

mod free;
pub mod laws;

pub use free::Free;
