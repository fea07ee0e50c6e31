//! Floor: model. The part of a program that a query can call.
//!
//! Stands on `ap_laws`. The contract used above: a query's search, and so its block, is the same beside the part that is handed out
//! as beside the whole program. What this costs turns on the part alone, since a program's clauses are put in order once.
#![tactic(auto)]

mod called;
mod calls;
mod laws;
mod predicates;
mod reaching;

pub use called::Calls;
pub use laws::{answers_law, block_law, restriction_law, same_search_law};
pub use predicates::Predicates;
pub use reaching::{calls_of, part_of};
