//! Floor: code. The listing of code, with the switch instructions of each predicate whose clauses tell their first arguments apart.
//!
//! Stands on `ap_instr` for instructions, on `ap_index` for what a clause asks of its first argument, on `ap_writer` for names and on
//! `itoa` for numbers. The one contract used above: a listing has the lines of its definition, `listing`; `laws` says that a listed
//! switch leads each call to the clauses that its first argument leaves, in order.
#![tactic(auto)]

mod choices;
mod clauses;
pub mod laws;
mod line;
mod lookup;
mod predicates;
mod switch;
mod switch_lines;
mod text;

pub use predicates::listing;
