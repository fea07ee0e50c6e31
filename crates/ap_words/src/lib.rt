//! Floor: program. The words of a command line: what it asks for.
//!
//! It stands on `clap`. A plain line, whose words are the names and values themselves, is
//! read by one fold; any other is read by `clap`, by a command that has the words of the table and no others. The one
//! contract used above is that of `read`: a plain line is never refused, and any other exactly where `clap` refuses it,
//! where a number is out of its range, or where there is no such annotator.
#![tactic(auto)]

mod asked;
mod command;
mod help;
mod numbers;
mod plain;
mod reading;
mod table;
mod values;

pub use asked::{Annotator, Asked, Run, Show};
pub use help::{HELP, VERSION_LINE};
pub use reading::{Reading, read};
