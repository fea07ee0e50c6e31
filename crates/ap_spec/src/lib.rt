//! Floor: model. The definitions of unification, of the built-in goals and of sequential search, as functions that can be run.
//!
//! Stands on `ap_term`. What the crates above use: each function equals the definition of its name.
#![tactic(auto)]

mod arithmetic;
mod builtins;
mod identity;
mod searches;
mod states;
mod substitutions;
mod tuples;
mod unification;

pub use arithmetic::{applied, compares, eval, evaluated, negated};
pub use builtins::{Called, builtin};
pub use identity::identical;
pub use searches::{Answers, Found, answers_to_depth, search, start};
pub use states::{Behind, State, States, add_calls, children, first_goal};
pub use substitutions::Subst;
pub use tuples::Tuples;
pub use unification::unify;
