//! Floor: parallel. Tests of the desk.
// What it is for: a whole sequence of calls by two desks, against answers worked out by hand.
// What it stands on: `ap_board` and `ap_desk`. Nothing is built on it.
#![tactic(auto)]

mod calls;
mod desks;
mod parcel;
#[cfg(test)]
mod tests;

pub use calls::{collect, finish, reclaim, stop};
pub use desks::{Game, Player, two};
pub use parcel::{Outcome, Parcel};
