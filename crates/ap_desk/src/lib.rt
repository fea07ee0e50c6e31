//! Floor: parallel. A worker's desk: its seat of the board, with the tickets of the goals that it took and the notes of its own that
//! are out.
//!
//! A worker takes a goal, looks whether one of its goals was asked to stop, and gives the outcome of the one that it took last. It
//! offers goals of its own, takes one back or finds that it is gone, asks its taker to stop, and collects its outcome.
//!
//! Stands on `ap_board`. The one contract used above: the goals that a worker took stand in its seat's view, in order, on pads of
//! their own; a poll looks at the oldest first and keeps which one was found asked to stop; and that number is the cause of an
//! outcome that was stopped or given back. Each note's goal is out on a pad of its own, a call for one leaves all others, and what is
//! collected is an outcome of that note's goal.
#![tactic(auto)]

mod desk;
mod looks;
mod note;
mod offers;

pub use desk::Desk;
pub use note::Note;
