//! Floor: text. Printed programs, read again.
//!
//! Stands on `ap_cge` for how programs are printed, and on `ap_clause` for how texts are read. It has laws alone: what is
//! printed and then read is the same program.
#![tactic(auto)]

mod law;

pub use law::printed_again_as_program;
