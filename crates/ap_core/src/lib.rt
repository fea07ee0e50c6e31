//! Floor: model. The core: a state machine whose events are those of goals that run side by side. Whatever list of events it
//! accepts, what it emits begins the answers of sequential search.
//!
//! Stands on `ap_term`, `ap_laws` and `ap_spec`. What the crates above use: an event is refused exactly
//! where the relation of `specs/Relation.antt` has no case for it, else the state is the one that it gives.
#![tactic(auto)]

mod conditions;
mod drains;
mod events;
mod grafts;
mod laws;
mod loud;
mod machine;
mod own;
mod paths;
mod replays;
mod rounds;
mod slots;
mod tasks;

pub use conditions::Verdict;
pub use events::{Event, Kind, Path, StepErr};
pub use laws::{fork_law, heed_law, lift_law, reached_law, rows_law};
pub use machine::Core;
pub use tasks::{Alternative, Answer, Busy, Idle, Progress, Round, Slot, Status, Task};
