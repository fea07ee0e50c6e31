//! Floor: store. A set of numbers that is emptied in no time and whose memory is kept: a list of its numbers, and for each number where
//! in that list it stands (a sparse set, after Briggs and Torczon, 1993).
//!
//! What the crates above use: the numbers in the order in which they were put in, and `number_of`, which finds one's place
//! among them.
#![tactic(auto)]

mod classes;
mod marks;

pub use classes::Classes;
pub use marks::Marks;
