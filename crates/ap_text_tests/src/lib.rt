//! Floor: text. Tests of the crates that read and write text, and of the outside where text comes from and goes to.
// What it is for: what no clause says of them: that they answer where memory is ample, and that their definitions give
// the tokens, terms, refusals and lines that tables from outside have.
// What it stands on: `ap_outside`, `ap_lexer`, `ap_reader`, `ap_clause`, `ap_writer` and `ap_cge`, and `ap_spec` to compare
// terms. Nothing is built on it.
#![tactic(auto)]

#[cfg(test)]
mod clauses;
#[cfg(test)]
mod examples;
#[cfg(test)]
mod lines;
#[cfg(test)]
mod longs;
#[cfg(test)]
mod outside;
#[cfg(test)]
mod programs;
#[cfg(test)]
mod reading;
#[cfg(test)]
mod terms;
#[cfg(test)]
mod texts;
#[cfg(test)]
mod tokens;
