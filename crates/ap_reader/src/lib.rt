//! Floor: text. Reads a clause's tokens as a term, with operators (ISO 13211-1, section 6.3, narrowed).
// What it is for: `read_term`, and its stages for callers that judge a term's form before its depth
// and its names: `parse` gives the term as steps, each after those of its operands, and
// `WrittenTerm::into_term` builds it. A text is read in one pass, in linear time, with a stack of its own.
// A long clause has no list of its tokens, leaves and steps: `Steps` gives its steps one after another, as often as they are
// asked for, and each question about its term is a walk over them.
// What it stands on: ap_lexer for tokens, ap_term for terms and the table of atoms.
// The contract that is used above it: the answer is the term that the grammar gives (the written
// trees of specs/Grammar.antt, their spelling and the rules of priority), or the named cause.
#![tactic(auto)]

mod bracket;
mod build;
mod compounds;
mod depth;
mod error;
mod kept;
mod law;
mod leaf;
mod long;
mod operators;
mod pass;
mod recent;
mod room;
mod terms;
mod word;
mod written;

pub use depth::MAX_DEPTH;
pub use error::ReadErr;
pub use law::{one_term, one_tree, pass_is_exact, steps_make_the_term, tables_law};
pub use leaf::Leaf;
pub use long::{Steps, are_too_deep, are_too_open, first_line_of, long_term};
pub use operators::{Fixity, OPERATORS, Operator};
pub use pass::{ParseErr, Step};
pub use room::Room;
pub use word::Word;
pub use written::{MAX_OPEN, ReadTerm, WrittenTerm, own_names, parse, parse_in, read_term};
