//! Floor: analysis. The annotator that makes unconditional groups, and what it shares with the one that makes conditional ones.
//!
//! Stands on `ap_patterns` for what a table says, and on `ap_conditions` for what a state leaves of a group's full
//! condition. The crates above use one contract: the groups are those of the longest runs of goals that may stand
//! together.
#![tactic(auto)]

mod annotators;
mod completions;
mod copies;
mod groups;
pub mod laws;
mod lone;
mod programs;
mod runs;
mod states;

pub use annotators::{annotate, annotate_by, has_groups};
pub use completions::{missing, with_checks};
pub use copies::{copy_clauses, copy_part};
pub use lone::is_lone_body;
pub use programs::{annotated_of, program_of};
pub use runs::Rule;
pub use states::{behind, start};
