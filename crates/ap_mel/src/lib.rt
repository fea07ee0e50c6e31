//! Floor: analysis. The annotator that makes conditional groups, and certified annotations.
//!
//! Stands on `ap_udg` for the groups of a clause, on `ap_fixpoint` for the table of a program, and on `ap_certify` for what
//! a certified program promises. The crates above use one contract: `annotate_sound` answers the program at which the
//! passes end, certified for its entries.
#![tactic(auto)]

mod annotations;
mod entries;
pub mod laws;
mod lone;
mod passes;

pub use annotations::{Kind, annotate, annotate_sound, sound_clauses};
pub use lone::{is_lone, is_lone_clause};
