//! Floor: text. Annotated programs: programs whose groups carry checks, as text and without them.
//!
//! Stands on `ap_term`, on `ap_writer` for terms, on `ap_reader` for the table of operators, on `ap_lexer` for the law of
//! what is read back, and on `ap_outside` for where lines are put. The crates above use one contract: what is put are the
//! lines of the program, each as one piece.
#![tactic(auto)]

mod annotated;
mod law;
mod output;
mod pieces;
mod plain;

pub use annotated::{Annotated, hand_written};
pub use law::printed_again_as_tokens;
pub use output::{PrintErr, print};
pub use plain::strip;
