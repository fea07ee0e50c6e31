//! Floor: analysis. Sharing: which variables of a clause may have a variable in common at run time, as sets of sets of variables.
//!
//! Stands on ap_term's trees alone. What the crates above use: each operation gives exactly the Share of its
//! definition, in the one form in which it is kept, and it covers whatever the operation makes of covered instances.
#![tactic(auto)]

pub mod laws;
mod sets;
mod share;
mod var_set;

pub use sets::Sets;
pub use share::Share;
pub use var_set::VarSet;
