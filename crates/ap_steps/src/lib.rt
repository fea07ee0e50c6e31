//! Floor: engine. The instructions of a clause over cells and registers.
//!
//! Stands on `ap_match` and `ap_needs`. The one contract used above: `step` takes an instruction, and the code asks for the same
//! goals as before, or says no, where it can ask for nothing.
#![tactic(auto)]

pub mod arguments;
pub mod found;
pub mod instructions;
pub mod laws;
pub mod registers;
pub mod run;
pub mod structures;
pub mod tables;
