//! Floor: program. The top call: from the words of a command line and the outside to a status.
//!
//! It stands on the reader of command lines, on the outside, on the reader of clauses, on the search and on the writer of
//! answers; for `show` on the annotators, for `code` on the compiler and its check, and for `load` on the generator of
//! programs. What is used above it is the contract of `run`: which lines are put, and which status they go with.
#![tactic(auto)]

mod answers;
mod closing;
mod code;
mod command;
mod last;
mod load;
mod patterns;
mod queries;
mod refusals;
mod show;
mod single;
mod source;
mod status;
mod text_lines;
mod texts;

pub use answers::{BOUNDS, Bounds};
pub use ap_worker::{Crew, End, Ended};
pub use command::run;
pub use single::answer;
pub use source::LIMIT;
pub use status::Status;
