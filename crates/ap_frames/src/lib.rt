//! Floor: section. Parcall frames: the slots of goals that run side by side, the verdicts on them, which slot is redone next, and
//! the answers that are stored to be given again.
//!
//! Stands on `ap_term`, for its faults and its want of memory alone. A frame knows nothing of the sections that its slots hold
//! nor of the tuples that its records hold: both are type parameters. The one contract used above: each call changes one slot
//! and leaves the others, a verdict comes by its cases, and a new round leaves of each slot what `specs/Rounds` says. No sum
//! wraps, and only `open` and `keep` take memory.
#![tactic(auto)]

mod frame;
mod laws;
mod marks;
mod one_slot;
mod records;
mod redo;
mod rounds;
mod row;
mod slots;
mod verdict;

pub use frame::{Frame, Round};
pub use laws::{edge_law, redo_law, verdict_law};
pub use records::{Kept, MOST_TUPLES};
pub use slots::{Answer, Ending, Recording, Run, Slot, Stand};
pub use verdict::Verdict;
