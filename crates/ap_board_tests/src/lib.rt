//! Floor: parallel. Tests of the board and the goal stacks, together and from several threads.
// What it is for: whole sequences of calls by two and three seats, against answers worked out by hand from the grammar of a pad's
// history; and that each of a million parcels comes out once, in whatever order four threads run.
// What it stands on: `ap_board` and `ap_goalstack`. Nothing is built on it.
#![tactic(auto)]

mod crowd;
mod lone;
mod parcel;
mod player;
#[cfg(test)]
mod rows;
mod sitting;
mod spot;
#[cfg(test)]
mod tests;

pub use crowd::{PADS, PLAYERS, SHARE, work};
pub use lone::{Lone, pushed_then_popped};
pub use parcel::{Outcome, Parcel};
pub use player::{Game, Player, Refused};
pub use sitting::{four, three};
