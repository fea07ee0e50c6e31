ghost use Rattle.std.specs.Prelude.{◌≡◌, ◌==◌, ◌≤◌, ◌+◌, ℕ, Option, List, All, count_by, take, drop, length, option_to_list, IfOk, IfSome, OnOk, ◌++◌};
ghost use Rattle.ap_lexer.specs.Lexeme.{Text, lexeme};
ghost use Rattle.ap_lexer.specs.Piece as spec;
ghost use Rattle.ap_lexer.specs.Law.{LieInOrder, IsPieceOf};

use crate::ahead::Ahead;
use crate::recognize::lexeme;
use crate::{LexemeKind, NoMemory, TokenKind};
use std::alloc::Global;

/// The span of a clause in its text, from its first token.
#[derive(Clone, Copy, Debug, PartialEq, Eq)]
pub struct Piece {
    /// The place of its first byte.
    pub from: usize,
    /// The place behind its last byte.
    pub to: usize,
    /// The line of its first byte, counted from 1.
    pub line: u64,
    /// Whether a full stop ends it; false at the end of the text alone.
    pub ended: bool,
    /// The line of its bad token, if it has one.
    pub bad: Option<u64>,
}

/// The bytes of a text from a place on.
#[inline(always)]
pub(crate) fn span(text: &[u8], from: usize, len: usize) -> &[u8]
    requires { from + len ≤ length text.now }
    ensures { result.now ≡ take len (drop from text.now) }
{
    text.split_at(from).1.split_at(len).0
}

/// How many line feeds there are.
pub(crate) fn feeds(text: &[u8]) -> usize
    ensures { result ≡ count_by (λ b. b == 10) text.now }
{
    text.iter().filter(|b| **b == b'\n').count()
}

/// How many line feeds a lexeme has: a token has none.
#[inline(always)]
pub(crate) fn feeds_in(kind: LexemeKind, text: &[u8], at: usize, len: usize) -> usize
    requires within { at + len ≤ length text.now }
    requires is { (kind, len) ≡ lexeme (drop at text.now) }
    ensures { result ≡ count_by (λ b. b == 10) (take len (drop at text.now)) }
{
    match kind {
        LexemeKind::Token(_) => 0,
        LexemeKind::Layout | LexemeKind::Comment | LexemeKind::Bad(_) => feeds(span(text, at, len)),
    }
}

/// Where a piece began, and on which line.
pub(crate) type Begun = Option<(usize, u64)>;

/// The piece that a lexeme on a line ends.
#[inline(always)]
pub(crate) fn ended(
    kind: LexemeKind,
    from: usize,
    first: u64,
    to: usize,
    line: u64,
) -> Option<Piece>
    ensures lies { IfSome result (λ p. (p.from ≡ from) × (p.to ≡ to) × (p.line ≡ first)) }
    ensures piece { (text : Text) (at : ℕ) → first ≡ spec.line_at text from → line ≡ spec.line_at text at → option_to_list result ≡ spec.ended_by (spec.role kind) text from at to }
{
    match kind {
        LexemeKind::Token(TokenKind::End) => Some(Piece {
            from,
            to,
            line: first,
            ended: true,
            bad: None,
        }),
        LexemeKind::Bad(ended) => Some(Piece {
            from,
            to,
            line: first,
            ended,
            bad: Some(line),
        }),
        _ => None,
    }
}

#[inline(always)]
pub(crate) fn start(begun: Begun, at: usize, line: u64) -> (usize, u64)
    ensures within { (lo : ℕ) → spec.BeganIn lo at begun → lo ≤ at → line ≤ at + 1 → (lo ≤ result.0) × (result.0 ≤ at) × (result.1 ≤ result.0 + 1) }
    ensures start { (text : Text) (b : Option ℕ) → spec.Begins text begun b → line ≡ spec.line_at text at → (result.0 ≡ spec.start b at) × (result.1 ≡ spec.line_at text result.0) }
{
    match begun {
        Some(start) => start,
        None => (at, line),
    }
}

/// Where the piece began that goes on behind a lexeme.
#[inline(always)]
pub(crate) fn begun_after(kind: LexemeKind, begun: Begun, from: usize, first: u64) -> Begun
    ensures within { (lo hi : ℕ) → spec.BeganIn lo hi begun → lo ≤ from → from ≤ hi → first ≤ from + 1 → spec.BeganIn lo hi result }
    ensures begun { (text : Text) (b : Option ℕ) (at : ℕ) → spec.Begins text begun b → from ≡ spec.start b at → first ≡ spec.line_at text from → spec.Begins text result (spec.begun_after (spec.role kind) b at) }
{
    match kind {
        LexemeKind::Layout | LexemeKind::Comment => begun,
        LexemeKind::Token(TokenKind::End) | LexemeKind::Bad(_) => None,
        LexemeKind::Token(_) => Some((from, first)),
    }
}

fn put(out: &mut Vec<Piece>, piece: Option<Piece>) -> Result<(), NoMemory>
    ensures { OnOk result (out.new.items ≡ out.old.items ++ option_to_list piece) }
{
    if let Some(piece) = piece {
        out.push(piece)?;
    }
    Ok(())
}

/// A last piece without an end.
pub(crate) fn unended(begun: Begun, to: usize) -> Option<Piece>
    ensures lies { (lo : ℕ) → spec.BeganIn lo to begun → IfSome result (λ p. (lo ≤ p.from) × (p.from ≤ p.to) × (p.to ≡ to) × (p.line ≤ p.from + 1)) }
    ensures piece { (text : Text) (b : Option ℕ) → spec.Begins text begun b → option_to_list result ≡ spec.unended text to b }
{
    match begun {
        Some((from, first)) => Some(Piece {
            from,
            to,
            line: first,
            ended: false,
            bad: None,
        }),
        None => None,
    }
}

/// The pieces of a text, in order: each runs from its first token through its end token. A bad
/// token takes its piece to the next full stop that layout or the end of the text follows. What is
/// left behind the last full stop is a piece that hasn't ended. It fails for want of memory alone.
pub fn pieces(alloc: Global, text: &[u8]) -> Result<Vec<Piece>, NoMemory>
    ensures pieces { IfOk result (λ v. v.items ≡ spec.pieces text.now) }
    ensures order { IfOk result (λ v. LieInOrder 0 v.items) }
    ensures places { IfOk result (λ v. All (IsPieceOf text.now) v.items) }
{
    let mut out = Vec::new(alloc);
    let mut ahead = Ahead::new();
    let mut at = 0;
    let mut line: u64 = 1;
    let mut begun = None;
    while at < text.len() {
        let (kind, len) = lexeme(&mut ahead, text, at);
        let (from, first) = start(begun, at, line);
        put(&mut out, ended(kind, from, first, at + len, line))?;
        begun = begun_after(kind, begun, from, first);
        line += feeds(span(text, at, len)) as u64;
        at += len;
    }
    put(&mut out, unended(begun, at))?;
    Ok(out)
}
