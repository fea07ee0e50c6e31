//! Floor: parallel. The goals that a worker sends out to others and takes from them, and what comes of them.
//!
//! A goal goes out as a job: it is offered on a pad, and its ticket stands on the worker's goal stack, from which others steal. It
//! comes back by a reclaim, or with its outcome from whoever took it.
//!
//! Stands on `ap_desk` and `ap_goalstack` for pads and tickets, on `ap_open` for what an outcome has to be of its goal. The one
//! contract used above: the goals that are out are known by the number of their frame, a call for one leaves all others, and what
//! is collected is an outcome of just the goal that was offered.
#![tactic(auto)]

mod bar;
mod common;
mod fits;
mod fresh;
mod job;
mod outcome;
mod post;
mod sending;
mod taking;

pub use bar::Bar;
pub use common::Common;
pub use fresh::open_posts;
pub use job::Job;
pub use outcome::{Ending, Outcome};
pub use post::{JobBoard, Post};
