//! Floor: store. Lines of answers, written straight from cells.
//!
//! Stands on `ap_cells` for the cells, and on `ap_writer` for the text of a term and the numbers of variables. What the crates above
//! use: the bytes of an answer's line are those of its definition on trees. Terms are walked by a list of work, and none is copied;
//! of variables that the line doesn't show nothing is looked at.
#![tactic(auto)]

mod line;
mod text;

pub use line::answer_line;
