//! Floor: parallel. From a query to its answers, emitted one by one as they are found, and how they end.
//!
//! The worker that leads searches the query; the others take goals that are offered, and each helps while its own searches wait.
//!
//! Stands on `ap_stack` for the open sections of a search, on `ap_post` for goals that workers offer and take, on `ap_open` for what
//! searches that run one another's goals are to the query's, on `ap_codegen` and `ap_codecheck` for code, on
//! `ap_outside` for sinks. The one contract used above is that of `solve`: what it puts for a query beside a program, with their
//! groups, is a block of them without, for any number of workers.
#![tactic(auto)]

mod answers;
mod bounds;
mod coding;
mod crew;
mod emission;
mod found;
mod groups;
mod lead;
mod patience;
mod serving;
mod solving;
mod taken;
mod worker;

pub use answers::Answers;
pub use coding::{Beside, KeptCode, sound_code};
pub use crew::Crew;
pub use emission::{End, Ended};
pub use solving::{PADS, solve, solve_with_pads};
