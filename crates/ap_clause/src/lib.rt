//! Floor: text. Reads the text of a program, and of a query, as clauses with their bodies lifted.
// What it is for: `program` and `query`. A text is read in one pass over its pieces, in time linear in its length but
// for what the limits bound, and its bodies are lifted in a second one, when all its names are known.
// What it stands on: ap_lexer and ap_reader for terms, ap_lifting for bodies, ap_term for the table of atoms.
// The contract that is used above it: the answer is that which specs/Reads.antt relates to the text, a program or the
// first refusal with its line and reason; each text has exactly one (`one_program`, `one_query`).
// The limits are those that specs/Numbers.antt writes out (`limits_law`). What was read is searched as it is written
// (`text_meaning_law`).
#![tactic(auto)]

mod clause;
mod form;
mod fresh;
mod judge;
mod law;
mod limit;
mod long;
mod outside;
mod read;
mod refusal;
mod source;
mod take;

pub use law::{limits_law, one_program, one_query, text_meaning_law};
pub use limit::{MAX_ARITY, MAX_CLAUSES, MAX_GOALS, MAX_GROUP, MAX_VARIABLES};
pub use read::{program, program_of, query};
pub use refusal::{Refusal, What};
pub use source::Source;
