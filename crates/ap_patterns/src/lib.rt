//! Floor: analysis. Patterns: what a state says of the arguments of a call, and what a success says of the caller's variables.
//!
//! Stands on ap_absunify. What the crates above use: each operation gives exactly the state of its definition, and that
//! state covers whatever a call, the entry of a clause or an answer makes of an instance that was covered.
#![tactic(auto)]

mod calls;
mod clauses;
mod entries;
mod keys;
pub mod laws;
mod places;
mod returns;
mod slots;
mod tables;
mod unknown;

pub use calls::{Pattern, call_pattern};
pub use clauses::enter;
pub use entries::{Entries, Entry, Mark, query_call};
pub use keys::KeyHasher;
pub use returns::after_call;
pub use slots::{Given, Slot, after_goal, call_at, is_builtin, is_covered, pattern_at, success_at};
pub use tables::{Predicate, Row, Table};
pub use unknown::{any_pattern, anything, arity, is_analysed};
