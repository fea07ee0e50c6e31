//! Floor: section. The sequential machine: a search that is paused behind its k-th answer.
//!
//! Stands on `ap_steps` for the instructions of a clause, on `ap_environments` for returns, choice points and forks, on
//! `ap_standing` for what a machine stands for, on `ap_group` and `ap_rejoin` for a group's code and its answers. What is used
//! above: what a search stands for after `advance` is the model's list of states after as many turns as were counted; at a
//! group it is forked, and goes on behind the group where answers of its goals are met.
#![tactic(auto)]

mod advance;
mod calls;
mod control;
mod direct;
mod due;
mod forks;
mod goals;
mod group;
mod rejoin;
mod start;
mod state;
mod tuple;
mod words;

pub use advance::{Hook, Turn};
pub use state::Search;
pub use tuple::Tuple;
