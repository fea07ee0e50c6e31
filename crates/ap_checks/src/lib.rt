//! Floor: store. Checks on the terms that cells stand for: is a term ground, do two terms share no variable, are two terms the same.
//!
//! Stands on `ap_cells`. What the crates above use: `ground`, `indep` and `identical` are true exactly where the check
//! holds.
#![tactic(auto)]

mod checks;
mod identity;

pub use checks::{ground, indep};
pub use identity::{Comparison, identical};
