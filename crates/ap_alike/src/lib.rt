//! Floor: analysis. Clauses that the analysis can't tell apart, as their goals differ in arguments without variables alone.
//!
//! Stands on `ap_mel`. The contracts used above: `fit_clause`, which gives a clause the groups of another one that is alike, and
//! `alike_law`, by which these are the groups that would have been made of it.
#![tactic(auto)]

mod fitting;
pub mod laws;
mod likeness;

pub use fitting::fit_clause;
