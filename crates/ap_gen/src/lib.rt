//! Floor: program. Programs made from a number, to run something large without a file, and the summary of what they answer.
//!
//! It stands on `itoa` alone. The contracts used above: the text is the one that its
//! definition states, by a linear congruential sequence from the seed, and the lines of the summary count the answer
//! lines, their bytes, and the sum of these.
#![tactic(auto)]

mod generator;
mod summary;

pub use generator::{QUESTION, workload};
pub use summary::{answers_line, seed_line};

#[cfg(test)]
mod tests;
