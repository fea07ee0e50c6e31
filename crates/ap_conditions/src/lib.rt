//! Floor: analysis. The conditions under which goals may run side by side, and what an abstract state leaves of them.
//!
//! Stands on `ap_absunify` for states. What the crates above use: a group's full condition as one list, and a check that
//! is dropped holds in each instance that the state covers.
#![tactic(auto)]

mod conditions;
pub mod laws;
mod simplifications;

pub use conditions::full;
pub use simplifications::{Simplified, gives, simplify};
