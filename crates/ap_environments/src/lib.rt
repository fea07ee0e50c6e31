//! Floor: engine. Environments, choice points and forks: the returns that a machine waits for, now and at each of these.
//!
//! Stands on `ap_steps` for what a return is. What is used above: `Environments` as lists. A return is put on and taken
//! off; a moment is kept for a choice point or a fork, come back to, and forgotten, and what was kept is what it was. Forks
//! part the choice points into segments, and calls on choice points see the newest segment alone. `clear` and `copy` write all
//! registers at once.
#![tactic(auto)]

mod environments;
mod frames;
mod registers;

pub use environments::{Choice, Environments, Fork};
pub use registers::{clear_x, clear_y, copy_few, copy_x};
