//! Floor: analysis. Abstract states of a clause's variables, and what unification and the built-in goals make of them.
//!
//! Stands on ap_sharing and ap_freeness. What the crates above use: each operation gives exactly the state of its
//! definition, and that state covers whatever the goal makes of an instance that was covered.
#![tactic(auto)]

mod builtins;
mod equations;
pub mod laws;
mod states;
mod term_sets;
mod unifications;

pub use builtins::after_builtin;
pub use equations::after_equal;
pub use states::{State, ground, made};
pub use term_sets::{add_var_sets, var_set};
pub use unifications::{after_unify, is_free};
