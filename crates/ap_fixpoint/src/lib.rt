//! Floor: analysis. The table of an annotated program: what the calls and the answers of each predicate are known to be.
//!
//! Stands on ap_patterns' definitions of what clauses give to a table. What the crates above use: `analyse` answers the
//! first table that is equal to its next; there is one for each program, and it is closed.
#![tactic(auto)]

mod analysis;
mod answered;
mod bodies;
mod clauses;
pub mod laws;
mod numbered;
mod open;
mod programs;
mod readers;
mod slots;
mod sums;
mod tables;

pub use analysis::{analyse, analyse_program};
pub use answered::is_table_with_groups;
