//! A text's pieces one after another, each with its tokens.

ghost use Rattle.std.specs.Prelude.{◌≡◌, ◌+◌, ◌++◌, ◌<◌, ◌≤◌, ◌^◌, drop, take, length, map, IfOk, IfSome, OnOk};
ghost use Rattle.ap_lexer.specs.Lexeme.{Text};
ghost use Rattle.ap_lexer.specs.Piece.{line_at};
ghost use Rattle.ap_lexer.specs.Token.{view, token_of, tokens};
ghost use Rattle.ap_lexer.specs.Cutter.{text_of, place, Stands, Cuts, left, IsNext, HasTokens, IsKept, LiesIn};
ghost use Rattle.ap_lexer.specs.Stream as stream;

use crate::ahead::Ahead;
use crate::cut::{begun_after, ended, feeds, feeds_in, span, start, unended};
use crate::recognize::{is_gap_at, lexeme};
use crate::split::add_token;
use crate::stream::Tokens;
use crate::{LexemeKind, NoMemory, Piece, Token};

/// How many tokens of a piece are kept in a list. A longer piece has one more in its list, and its tokens are cut again.
pub const MAX_KEPT: usize = 4096;

/// Adds the token that a lexeme is, if it is one, where the list hasn't more than are kept.
#[inline(always)]
fn add_kept<'a>(
    out: &mut Vec<Token<'a>>,
    kind: LexemeKind,
    text: &'a [u8],
    at: usize,
    line: u64,
) -> Result<(), NoMemory>
    requires { at + length text.now < 2 ^ 64 }
    ensures { OnOk result ((whole : Text) → text.now ≡ take (length text.now) (drop at whole) → line ≡ line_at whole at → IsKept out.new.items → (map view out.new.items ≡ map view out.old.items ++ token_of kind whole at (length text.now)) × IsKept out.old.items) }
{
    if out.len() > MAX_KEPT {
        return Ok(());
    }
    add_token(out, kind, text, at, line)
}

/// Cuts a text into its pieces one after another, each with its tokens, so that each byte is looked at once. The text's front may be let
/// go; places and lines are those of the whole text.
#[derive(Drop)]
pub struct Cutter<'a> {
    text: &'a [u8],
    before: usize,
    ahead: Ahead,
    at: usize,
    line: u64,
}

impl<'a> Cutter<'a> {
    /// Stands at the first byte of what is left of a text behind so many bytes, in that line.
    pub fn behind(text: &'a [u8], before: usize, line: u64) -> Cutter<'a>
        requires fits { before + length text.now < 2 ^ 63 }
        requires line { line ≤ before + 1 }
        ensures stands { Stands result }
        ensures text { text_of result ≡ text.now }
        ensures before { result.before ≡ before }
        ensures place { place result ≡ before }
        ensures cuts { (whole : Text) → text.now ≡ drop before whole → line ≡ line_at whole before → Cuts whole result }
    {
        Cutter {
            text,
            before,
            ahead: Ahead::new(),
            at: 0,
            line,
        }
    }

    /// How many bytes of its text it has gone over, between two pieces.
    pub fn gone(&self) -> usize
        requires { Stands self.now }
        ensures place { place self.now ≡ self.now.before + result }
        ensures within { result ≤ length (text_of self.now) }
    {
        self.at
    }

    /// The line in which it stands.
    pub fn line(&self) -> u64
        ensures { result ≡ self.now.line }
    {
        self.line
    }

    /// Goes over the next piece and gives it, if there is one. Its tokens, without a bad one, come in the place of those
    /// that are there; of a long piece only the first `MAX_KEPT + 1` come, and `tokens_of` gives all. It fails for want of
    /// memory alone, and is of no use after that.
    pub fn next(&mut self, out: &mut Vec<Token<'a>>) -> Result<Option<Piece>, NoMemory>
        requires { Stands self.old }
        ensures text { text_of self.new ≡ text_of self.old }
        ensures before { self.new.before ≡ self.old.before }
        ensures stands { OnOk result (Stands self.new) }
        ensures cuts { OnOk result ((whole : Text) → Cuts whole self.old → Cuts whole self.new) }
        ensures next { IfOk result (λ p. (whole : Text) → Cuts whole self.old → IsNext whole p self.old self.new) }
        ensures within { IfOk result (λ p. IfSome p (λ piece. LiesIn piece self.old)) }
        ensures lines { IfOk result (λ p. IfSome p (λ piece. (whole : Text) → Cuts whole self.old → piece.line ≡ line_at whole piece.from)) }
        ensures tokens { IfOk result (λ p. IfSome p (λ piece. (whole : Text) → Cuts whole self.old → IsKept out.new.items → HasTokens whole (map view out.new.items) piece)) }
    {
        out.clear();
        let text = self.text;
        let before = self.before;
        let mut begun = None;
        while self.at < text.len() {
            let (at, line) = (self.at, self.line);
            if is_gap_at(text, at) {
                self.at = at + 1;
                self.line = line + feeds(span(text, at, 1)) as u64;
                continue;
            }
            let (kind, len) = lexeme(&mut self.ahead, text, at);
            let spelling = span(text, at, len);
            let place = before + at;
            add_kept(out, kind, spelling, place, line)?;
            let (from, first) = start(begun, place, line);
            self.at = at + len;
            self.line = line + feeds_in(kind, text, at, len) as u64;
            let piece = ended(kind, from, first, place + len, line);
            if piece.is_some() {
                return Ok(piece);
            }
            begun = begun_after(kind, begun, from, first);
        }
        Ok(unended(begun, before + self.at))
    }

    /// The tokens of a piece that lies in its text, one after another.
    pub fn tokens_of(&self, piece: &Piece) -> Tokens<'a>
        requires stands { Stands self.now }
        requires within { LiesIn piece.now self.now }
        ensures stands { stream.Stands result }
        ensures gives { (whole : Text) → text_of self.now ≡ drop self.now.before whole → piece.now.line ≡ line_at whole piece.now.from → stream.Gives result (tokens whole piece.now) }
    {
        Tokens::between(self.text, self.before, piece)
    }
}
