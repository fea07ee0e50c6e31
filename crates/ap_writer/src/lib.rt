//! Floor: text. Terms and answers as text.
//!
//! Stands on `ap_term`, on `itoa` for integers and on an insertion-ordered set for the numbers of variables. The crates
//! above use one contract: the bytes of an answer's line are those of its definition on trees.
#![tactic(auto)]

mod laws;
mod line;
mod numbers;
mod quoted;
mod text;

pub use laws::{printed_alike_are_the_same, same_up_to_names_print_alike};
pub use line::answer_line;
pub use numbers::Numbers;
pub use quoted::is_symbols;
pub use text::{name_of, term_text, write_term};
