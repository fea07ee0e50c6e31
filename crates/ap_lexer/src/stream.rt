//! The tokens of a piece, one after another, without a list of them.

ghost use Rattle.std.specs.Prelude.{◌≡◌, ◌+◌, ◌<◌, ◌≤◌, ◌^◌, drop, length, OnSome};
ghost use Rattle.ap_lexer.specs.Lexeme.{Text};
ghost use Rattle.ap_lexer.specs.Piece.{line_at};
ghost use Rattle.ap_lexer.specs.Token.{tokens};
ghost use Rattle.ap_lexer.specs.Stream.{Stands, Gives, Follows, IsIn};

use crate::ahead::Ahead;
use crate::cut::{feeds_in, span};
use crate::recognize::lexeme;
use crate::{LexemeKind, Piece, Token};

/// The tokens of a piece that are still to come. The text's front may be let go; places and lines are those of the whole
/// text.
#[derive(Clone, Copy)]
pub struct Tokens<'a> {
    text: &'a [u8],
    before: usize,
    ahead: Ahead,
    at: usize,
    to: usize,
    line: u64,
}

impl<'a> Tokens<'a> {
    /// The tokens of a piece in what is left of a text behind so many bytes.
    pub fn between(text: &'a [u8], before: usize, piece: &Piece) -> Tokens<'a>
        requires fits { before + length text.now < 2 ^ 63 }
        requires within { IsIn text.now before piece.now }
        ensures stands { Stands result }
        ensures gives { (whole : Text) → text.now ≡ drop before whole → piece.now.line ≡ line_at whole piece.now.from → Gives result (tokens whole piece.now) }
    {
        Tokens {
            text,
            before,
            ahead: Ahead::new(),
            at: piece.from - before,
            to: piece.to - before,
            line: piece.line,
        }
    }

    /// Goes over the next token and gives it, if there is one.
    #[inline(always)]
    pub fn next(&mut self) -> Option<Token<'a>>
        requires { Stands self.old }
        ensures stands { Stands self.new }
        ensures further { OnSome result ((self.old.at < self.old.to) × (self.old.at < self.new.at) × (self.new.to ≡ self.old.to)) }
        ensures next { Follows self.old result self.new }
    {
        while self.at < self.to {
            let (at, line) = (self.at, self.line);
            let (kind, len) = lexeme(&mut self.ahead, self.text, at);
            self.at = at + len;
            self.line = line + feeds_in(kind, self.text, at, len) as u64;
            if let LexemeKind::Token(kind) = kind {
                let from = self.before + at;
                return Some(Token {
                    kind,
                    text: span(self.text, at, len),
                    from,
                    to: from + len,
                    line,
                });
            }
        }
        None
    }
}
