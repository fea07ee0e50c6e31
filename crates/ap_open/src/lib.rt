//! Floor: parallel. Open sections, each of which runs the goal of a slot of the one outside of it: what a stack of them is to the
//! search of a query.
//!
//! Stands on `ap_tied` for what the calls of one section are in the core, and on `ap_core` for what the core emits. No code:
//! each law is the contract of a function that does nothing. The crates above use one notion: whatever search the sections
//! make before a call, they make it behind the call, also where some of their goals run elsewhere and come back as outcomes;
//! and where that search ends, what was given is a block of the query.
#![tactic(auto)]

mod laws;

pub use laws::{
    block_law, calling_law, in_turn_law, moving_law, outcome_law, reading_law, sharing_law,
    solving_law,
};
