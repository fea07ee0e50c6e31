//! Floor: engine. Matching and building terms in cells: what an emulator's instructions do to a store, each told by the maps that fit it.
//!
//! Stands on `ap_cells` and `ap_unify`. What the crate above uses: `Becomes` and `Answered`, by which the maps that fit
//! the store after a call are those that fitted it before and have what was asked.
#![tactic(auto)]

mod matching;

pub use matching::{
    bind_structure, equate, match_atom, match_built, match_integer, push_atom, push_free, push_new,
    push_value, push_variable,
};

#[cfg(test)]
mod tests;
