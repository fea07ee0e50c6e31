//! Floor: code. Whether code is sound, so that the machine runs it without a test of its own.
//!
//! Stands on `ap_index` and `ap_needs`. The one contract used above: code that is `Sound` keeps each rule of `specs/Rules` at each
//! place, on every path to it; `laws` says what a machine has of that. It holds its index and what its runs need; of code that is kept
//! these are made once, and grow and are cut back with each code that goes on behind it (`Sound::beside`, `Sound::into_kept`).
#![tactic(auto)]

pub mod laws;
mod operands;
mod paths;
mod rule;
mod shape;
mod sound;
mod tables;
mod walk;

pub use rule::{CodeErr, Rule};
pub use sound::{Sound, check};
pub use tables::{Extent, KeptTables};
