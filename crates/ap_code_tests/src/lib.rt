//! Floor: code. Tests of code that was written by hand: its listing, and what its check says of it.
// What it is for: what no clause says of `listing` and `check`: that they answer where memory is ample, that a listing has the words
// of the table of instructions, and that the place and the rule that are named are those that were worked out by hand.
// What it stands on: `ap_instr`, `ap_listing` and `ap_codecheck`. Nothing is built on it.
#![tactic(auto)]

#[cfg(test)]
mod listings;
#[cfg(test)]
mod rules;
