ghost use Rattle.std.specs.Prelude.{◌≡◌, ◌+◌, ◌<◌, ◌≤◌, ◌^◌, drop, length, nat_le, slice_index, IfSome, IsTrue};
ghost use Rattle.ap_lexer.specs.declared.kind.LexemeKind.TheVariants.{Layout};
ghost use Rattle.ap_lexer.specs.Lexeme as spec;
ghost use Rattle.ap_lexer.specs.Ahead.{IsSound};

use crate::ahead::{Ahead, characters_len, comment_len, line_len, quoted_len};
use crate::bytes::{Class, byte, ends, is_layout, is_symbol, past, solo};
use crate::digits::are_few;
use crate::{LexemeKind, TokenKind, number};

/// A kind, and a length in bytes.
pub(crate) type Lexeme = (LexemeKind, usize);

/// The length of a bad token: through the next full stop that layout or the end follows, or all.
fn recovered(text: &[u8]) -> (bool, usize)
    requires { 0 < length text.now }
    ensures value { result ≡ spec.recovered 1 (drop 1 text.now) }
    ensures within { (0 < result.1) × (result.1 ≤ length text.now) }
{
    let mut at = 1;
    let mut rest = &text[1..];
    while let [b, after @ ..] = rest {
        if *b == b'.' && ends(after, 0) {
            return (true, at + 1);
        }
        at += 1;
        rest = after;
    }
    (false, at)
}

#[inline(never)]
fn bad(text: &[u8]) -> Lexeme
    requires { 0 < length text.now }
    ensures value { result ≡ spec.bad text.now }
    ensures within { (0 < result.1) × (result.1 ≤ length text.now) }
{
    let (ended, end) = recovered(text);
    (LexemeKind::Bad(ended), end)
}

/// Whether digits stand for a number of at most 2 ^ 63.
fn fits(digits: &[u8]) -> bool
    ensures { result ≡ nat_le (spec.number digits.now) (2 ^ 63) }
{
    are_few(digits) || number(digits).is_some()
}

#[inline(always)]
fn integer(text: &[u8]) -> Lexeme
    requires { 0 < length text.now }
    ensures value { result ≡ spec.integer text.now }
    ensures within { (0 < result.1) × (result.1 ≤ length text.now) }
{
    let end = past(Class::Digit, text, 1);
    if fits(&text[..end]) {
        (LexemeKind::Token(TokenKind::Integer), end)
    } else {
        bad(text)
    }
}

#[inline(always)]
fn symbols(text: &[u8]) -> Lexeme
    requires { 0 < length text.now }
    ensures value { result ≡ spec.symbols text.now }
    ensures within { (0 < result.1) × (result.1 ≤ length text.now) }
{
    let end = past(Class::Symbol, text, 1);
    if end == 1 && text[0] == b'.' && (ends(text, 1) || byte(text, 1) == b'%') {
        (LexemeKind::Token(TokenKind::End), 1)
    } else {
        (LexemeKind::Token(TokenKind::Symbol), end)
    }
}

/// A comment of a known length, if it ends.
#[inline(never)]
fn comment(ahead: &mut Ahead, text: &[u8], at: usize, len: Option<usize>) -> Lexeme
    requires here { at < length text.now }
    requires ascii { slice_index text.now at < 128 }
    requires within { IfSome len (λ n. (0 < n) × (at + n ≤ length text.now)) }
    requires sound { IsSound text.now ahead.old }
    ensures value { result ≡ spec.comment (drop at text.now) len }
    ensures within { (0 < result.1) × (at + result.1 ≤ length text.now) }
    ensures sound { IsSound text.now ahead.new }
{
    match len {
        Some(len) => (
            LexemeKind::Comment,
            characters_len(&mut ahead.characters, text, at, len),
        ),
        None => bad(text.split_at(at).1),
    }
}

/// A quoted token of a known length, if it is closed.
#[inline(never)]
fn quoted(ahead: &mut Ahead, text: &[u8], at: usize, len: Option<usize>) -> Lexeme
    requires here { at < length text.now }
    requires ascii { slice_index text.now at < 128 }
    requires within { IfSome len (λ n. (0 < n) × (at + n ≤ length text.now)) }
    requires sound { IsSound text.now ahead.old }
    ensures value { result ≡ spec.quoted (drop at text.now) len }
    ensures within { (0 < result.1) × (at + result.1 ≤ length text.now) }
    ensures sound { IsSound text.now ahead.new }
{
    match len {
        Some(len) if characters_len(&mut ahead.characters, text, at, len) == len => {
            (LexemeKind::Token(TokenKind::Quoted), len)
        }
        _ => bad(text.split_at(at).1),
    }
}

/// Layout, or a token that can be told from its own bytes and the next. Most tokens are one byte, and most layout
/// is gone over before.
#[inline(always)]
fn plain(text: &[u8]) -> Lexeme
    requires { 0 < length text.now }
    ensures value { result ≡ spec.plain text.now }
    ensures within { (0 < result.1) × (result.1 ≤ length text.now) }
{
    let b = text[0];
    if let Some(row) = solo(b) {
        (LexemeKind::Token(row), 1)
    } else if b.is_ascii_lowercase() {
        (
            LexemeKind::Token(TokenKind::Name),
            past(Class::Word, text, 1),
        )
    } else if b.is_ascii_uppercase() || b == b'_' {
        (
            LexemeKind::Token(TokenKind::Variable),
            past(Class::Word, text, 1),
        )
    } else if b.is_ascii_digit() {
        integer(text)
    } else if is_symbol(b) {
        symbols(text)
    } else if is_layout(b) {
        (LexemeKind::Layout, 1)
    } else {
        bad(text)
    }
}

/// Whether layout stands at a place of a text: one byte, which is a lexeme of its own.
#[tactic(auto, unfolding(crate::specs::Lexeme::lexeme))]
pub(crate) fn is_gap_at(text: &[u8], at: usize) -> bool
    requires { at < length text.now }
    ensures { IsTrue result → spec.lexeme (drop at text.now) ≡ (Layout, 1) }
{
    is_layout(text[at])
}

/// What stands at a place of a text, where it may be a comment or a quoted token.
#[inline(never)]
#[tactic(auto, unfolding(crate::specs::Lexeme::lexeme))]
fn marked(ahead: &mut Ahead, text: &[u8], at: usize) -> Lexeme
    requires here { at < length text.now }
    requires sound { IsSound text.now ahead.old }
    ensures value { result ≡ spec.lexeme (drop at text.now) }
    ensures within { (0 < result.1) × (at + result.1 ≤ length text.now) }
    ensures sound { IsSound text.now ahead.new }
{
    let (_, rest) = text.split_at(at);
    if rest[0] == b'%' {
        let len = line_len(&mut ahead.line, text, at);
        comment(ahead, text, at, Some(len))
    } else if rest[0] == b'/' && byte(rest, 1) == b'*' {
        let len = comment_len(&mut ahead.comment, text, at);
        comment(ahead, text, at, len)
    } else if rest[0] == b'\'' {
        let len = quoted_len(&mut ahead.quoted, text, at);
        quoted(ahead, text, at, len)
    } else {
        plain(rest)
    }
}

/// What stands at a place of a text.
#[inline(always)]
#[tactic(auto, unfolding(crate::specs::Lexeme::lexeme))]
pub(crate) fn lexeme(ahead: &mut Ahead, text: &[u8], at: usize) -> Lexeme
    requires here { at < length text.now }
    requires sound { IsSound text.now ahead.old }
    ensures value { result ≡ spec.lexeme (drop at text.now) }
    ensures within { (0 < result.1) × (at + result.1 ≤ length text.now) }
    ensures sound { IsSound text.now ahead.new }
{
    let (_, rest) = text.split_at(at);
    if rest[0] == b'%' || rest[0] == b'/' || rest[0] == b'\'' {
        marked(ahead, text, at)
    } else {
        plain(rest)
    }
}
