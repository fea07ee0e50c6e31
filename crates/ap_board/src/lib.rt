//! Floor: parallel. A board of pads, on which seats offer goals to one another: a word and a slot for each pad, and no lock.
//!
//! A seat offers a parcel on a pad of its own, any other seat takes it and finishes it with an outcome, and the
//! owner collects that. Each call makes one step on one word, takes no memory and never waits; `await_done` alone may wait.
//!
//! Stands on `atomic_table` (words, slots, and views that only the proofs see) and on `crossbeam_utils` for backing off. The one
//! contract used above: what a call did stands in its seat's view, the list of that seat's calls, and the history of each pad,
//! which is made of the views' calls, is legal.
#![tactic(auto)]

mod board;
mod hand;
mod hold;
mod laws;
mod open;
mod order;
mod plays;
mod rule;
mod seat;
mod steps;
mod ticket;
mod view;

pub use board::Board;
pub use laws::{history_law, one_taker_law};
pub use open::open_board;
pub use rule::Fits;
pub use seat::BoardSeat;
pub use ticket::{LAST_ROUND, Ticket};
pub use view::{Call, Cause, Content, Kind, Log, View};
