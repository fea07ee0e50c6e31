//! Floor: parallel. The stack of the goals that a worker has offered: it pushes and pops at one end, and other threads steal at the other.
//!
//! A ticket in it is only a hint where a goal may be found; the pad's word decides who runs the goal. Last in
//! first out for the owner, oldest first for thieves, and no call waits.
//!
//! Stands on `crossbeam_deque` and, for its tickets, on `ap_board`. The one contract used above: what comes out of a stack was
//! pushed by its owner, and where nothing comes out, what its caller keeps of it was true of an empty stack.
#![tactic(auto)]

mod ends;
mod rule;
mod stack;
mod view;

pub use ends::{GoalStack, Thief};
pub use rule::{Rule, Unruled};
pub use stack::open;
pub use view::Hand;
