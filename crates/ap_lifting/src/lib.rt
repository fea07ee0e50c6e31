//! Floor: text. Bodies of clauses as they are written, and the clauses that they are lifted to.
//!
//! Stands on ap_term, and on ap_laws for the law that lifting keeps a program's meaning. What is used above it:
//! `lift_program` gives the lifted program of the definition `lifted_program`, and `lift_question` that of a query.
#![tactic(auto)]

mod bodies;
mod laws;
mod lifter;
mod lifting;
mod row;
mod rules;
mod sizes;

pub use bodies::{Body, Condition};
pub use laws::{lifted_call_law, meaning_law};
pub use lifting::{Lifted, lift_program, lift_question};
pub use row::{Row, RuleBody};
pub use rules::{Rule, is_rule};
pub use sizes::{Sizes, predicates_of, sizes_of};
