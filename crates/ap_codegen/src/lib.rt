//! Floor: code. From clauses to instructions.
//!
//! Stands on `ap_instr` for instructions and what they mean, on `ap_codecheck` for the rules of code, on `ap_term` for
//! clauses, on `indexmap` for the tables. It doesn't wait for the analysis: a certificate is worth the same for code that
//! stands for the program. The one contract used above: the code that `compile` makes stands for the program beside the
//! query, with its groups, and is sound.
#![tactic(auto)]

mod asking;
mod assembly;
mod bodies;
mod builtin_goals;
mod choosing;
mod groups;
mod index;
mod kept;
mod layout;
mod permanent;
mod programs;
mod relocating;
mod steps;
mod tables;
mod temporary;

pub use kept::Kept;
pub use programs::compile;
