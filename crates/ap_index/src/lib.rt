//! Floor: code. An index of code's clauses: by the first argument, of a predicate's choices the first one whose clause asks for one of that
//! name, number or functor; and of each choice the clause that it names, what that one's head asks of the arguments, and the next choice, or
//! that none is left.
//!
//! Stands on `ap_instr` and `ap_needs`. The contracts used above: `row` and `choice`, by which all clauses that are left out ask for
//! another first argument, and what a head asks is needed, and, where the head is whole, enough. An index grows with code that goes on behind its
//! own (`grow`), where it leads to places of that alone (`is_within`).
#![tactic(auto)]

mod choice;
mod hashing;
mod head;
mod index;
mod key;
mod opening;
mod pairs;
mod row;
mod rows;
mod within;
mod word;

pub use choice::{Choice, Named, Next};
pub use hashing::Hashed;
pub use head::{Ask, Head};
pub use index::{Index, index_of};
pub use key::{Key, key_at};
pub use opening::{Way, is_open, way_of};
pub use row::{Link, Pair, Pairs, Row};
pub use word::{NOTHING, Short, UNBOUND, Word};
