//! Floor: section. What the calls of a section are in the core: each leads from a task that the section is tied to to one that it is
//! tied to then, by events.
//!
//! Stands on `ap_tie`, whose laws speak of one event each. No code: each law is the contract of a function that does nothing.
#![tactic(auto)]

mod reaching;
mod settling;
mod slot_calls;

pub use reaching::{beginning_law, reaching_law};
pub use settling::{resting_law, settling_law};
pub use slot_calls::{slot_calls_law, stop_calls_law};
