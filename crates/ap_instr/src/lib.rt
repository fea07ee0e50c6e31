//! Floor: code. The instructions that clauses are compiled to, and code made of them.
//!
//! Stands on `ap_term`. What is used above is in `specs`: what an instruction asks for (`Step`), what a run of them does
//! (`Runs`, `Groups`), and when code stands for a program (`StandsFor`).
#![tactic(auto)]

mod builtins;
mod compiled;
mod instruction;

pub use builtins::Builtin;
pub use compiled::{Code, Predicate};
pub use instruction::{Instr, Slot};
