//! Floor: store. The values of expressions that cells stand for.
//!
//! Stands on `ap_cells`, and on `ap_spec` for the operations on two values. What the crates above use: `eval` and `test`
//! have the value that the definition of arithmetic gives the term. What they take of the machine's stack has a bound, however
//! deep the term is: an expression of a few levels is evaluated by calls, a deeper one by a list.
#![tactic(auto)]

mod evaluation;

pub use evaluation::{Pending, eval, test};
