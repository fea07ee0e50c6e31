//! Floor: text. Cuts a Prolog text into pieces, one for each clause, and a piece into tokens.
// What it is for: the reader's first layer. A piece is a clause's span, from its first token through
// its full stop; a token is a span of the text and its kind. A text is read in one pass, in time
// linear in its length, without recursion, and a token's text is a slice of the source.
// What it stands on: nothing but std.
// The contract that is used above it: `pieces` and `tokens` answer exactly what `pieces` and `tokens`
// of specs/Piece.antt and specs/Token.antt make of the text; `tokens` refuses a piece that has a
// bad token and no other. `Cutter` gives the same pieces one after another, each with its tokens; of a piece that has
// more than `MAX_KEPT` it gives them one after another, as `Tokens`.
#![tactic(auto)]

mod ahead;
mod bytes;
mod cut;
mod cutter;
mod digits;
mod error;
mod kind;
mod law;
mod recognize;
mod split;
mod stream;

pub use cut::{Piece, pieces};
pub use cutter::{Cutter, MAX_KEPT};
pub use digits::number;
pub use error::{LexErr, NoMemory};
pub use kind::{LexemeKind, TokenKind};
pub use law::{lexemes_are_rows, one_cutting, tokens_without_places};
pub use split::{Token, push, tokens};
pub use stream::Tokens;
