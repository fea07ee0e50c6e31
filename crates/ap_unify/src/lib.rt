//! Floor: store. Unification of the terms that cells stand for.
//!
//! Stands on `ap_cells`. What the crates above use: `unify` binds by a most general unifier, and answers false exactly
//! where there is none; `undo_to` leads back from either, and from want of memory.
#![tactic(auto)]

pub mod laws;
mod occurrences;
mod unification;

pub use occurrences::occurs;
pub use unification::{Work, unify};
