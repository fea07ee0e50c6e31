//! Floor: engine. Groups as a machine runs their code: the goals that it pushes, and the move from a group's first check to its end.
//!
//! Stands on `ap_steps` for instructions and on `ap_control` for runs of them and for checks on registers. The contract that is used
//! above: `gather`, behind which a group's checks hold and its goals were pushed, or one of its checks doesn't hold; `plain_way`
//! finds where that leads without asking the checks, for whoever doesn't want the goals apart.
#![tactic(auto)]

mod checking;
mod gathering;
mod goals;

pub use checking::plain_way;
pub use gathering::{Gathered, gather};
pub use goals::Goals;
