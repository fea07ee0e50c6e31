ghost use Rattle.std.specs.Prelude.{◌≡◌, ◌++◌, ◌+◌, ◌<◌, ◌^◌, ℕ, map, take, drop, length, option_to_list, Contains, IfOk, IfErr, OnOk, is_ok, if◌then◌else◌, ◌∷◌, []};
ghost use Rattle.ap_lexer.specs.Lexeme.{Text};
ghost use Rattle.ap_lexer.specs.Piece.{line_at};
ghost use Rattle.ap_lexer.specs.Piece as piece_spec;
ghost use Rattle.ap_lexer.specs.Token as spec;
ghost use Rattle.ap_lexer.specs.LexErr.{IsCauseOf};

use crate::ahead::Ahead;
use crate::cut::{feeds, span};
use crate::recognize::lexeme;
use crate::{LexErr, LexemeKind, NoMemory, Piece, TokenKind};
use std::alloc::{AllocFailed, Global};

/// A token of a piece.
#[derive(Clone, Copy, Debug)]
pub struct Token<'a> {
    pub kind: TokenKind,
    /// Its bytes, as they stand in the text.
    pub text: &'a [u8],
    /// The place of its first byte in the text.
    pub from: usize,
    /// The place behind its last byte.
    pub to: usize,
    /// The line of its first byte, counted from 1.
    pub line: u64,
}

/// Adds an element to a list; most have room for it.
#[inline(always)]
pub fn push<T: Drop>(list: &mut Vec<T>, value: T) -> Result<(), AllocFailed<T>>
    ensures items { list.new.items ≡ (if is_ok result then list.old.items ++ value ∷ [] else list.old.items) }
{
    if list.len() < list.capacity() {
        list.push_reserved(value);
        return Ok(());
    }
    list.push(value)
}

/// Adds the token that a lexeme is, if it is one.
#[inline(always)]
pub(crate) fn add_token<'a>(
    out: &mut Vec<Token<'a>>,
    kind: LexemeKind,
    text: &'a [u8],
    at: usize,
    line: u64,
) -> Result<(), NoMemory>
    requires { at + length text.now < 2 ^ 64 }
    ensures { OnOk result ((whole : Text) → text.now ≡ take (length text.now) (drop at whole) → line ≡ line_at whole at → map spec.view out.new.items ≡ map spec.view out.old.items ++ spec.token_of kind whole at (length text.now)) }
{
    if let LexemeKind::Token(kind) = kind {
        push(
            out,
            Token {
                kind,
                text,
                from: at,
                to: at + text.len(),
                line,
            },
        )?;
    }
    Ok(())
}

/// How many tokens room is made for at once, at most.
const FIRST_ROOM: usize = 1024;

/// How many tokens room is made for before a piece is read: a token has more than two bytes mostly, with what parts
/// it from the next.
fn room_for(piece: &Piece) -> usize {
    FIRST_ROOM.min(piece.to.saturating_sub(piece.from) / 2)
}

/// The tokens of a piece that `pieces` gave for this text.
///
/// # Errors
/// `BadToken` with the line of the bad token, exactly where the piece has one; else `NoMemory`
/// alone, where there is no memory for the tokens.
pub fn tokens<'a>(alloc: Global, text: &'a [u8], piece: &Piece) -> Result<Vec<Token<'a>>, LexErr>
    requires { Contains (piece_spec.pieces text.now) piece.now }
    ensures ok { IfOk result (λ v. (piece.now.bad ≡ None) × (map spec.view v.items ≡ spec.tokens text.now piece.now)) }
    ensures err { IfErr result (λ e. IsCauseOf piece.now.bad e) }
{
    if let Some(line) = piece.bad {
        return Err(LexErr::BadToken { line });
    }
    let Ok(mut out) = Vec::with_capacity(alloc, room_for(piece)) else {
        return Err(LexErr::NoMemory);
    };
    let mut ahead = Ahead::new();
    let mut at = piece.from;
    let mut line = piece.line;
    while at < piece.to {
        let (kind, len) = lexeme(&mut ahead, text, at);
        let spelling = span(text, at, len);
        add_token(&mut out, kind, spelling, at, line)?;
        line += feeds(spelling) as u64;
        at += len;
    }
    Ok(out)
}
