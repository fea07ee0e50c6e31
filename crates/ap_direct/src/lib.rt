//! Floor: code. Goals of arithmetic that can be solved straight from registers: their terms needn't be built.
//!
//! Stands on `ap_instr`. The contract used above: `Directs::goal`, which is so that the code at a place asks for that goal first, and then
//! for what the code behind it asks for.
#![tactic(auto)]

mod finding;
mod goal;
mod preceding;
mod table;
mod unread;

pub use goal::{Direct, Goal, Operand, Part};
pub use table::Directs;
