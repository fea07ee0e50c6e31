ghost use Rattle.std.specs.Prelude.{◌≡◌, ◌≤◌, length, slice_index};
ghost use Rattle.ap_lexer.specs.Lexeme as spec;

use crate::TokenKind;

/// The classes of bytes that tokens and comments run over.
#[derive(Clone, Copy)]
pub(crate) enum Class {
    Word,
    Digit,
    Symbol,
    Line,
}

#[inline(always)]
pub(crate) fn is_layout(b: u8) -> bool
    ensures { result ≡ spec.is_layout b }
{
    matches!(b, b' ' | b'\t' | b'\n' | b'\r')
}

#[inline(always)]
pub(crate) fn is_symbol(b: u8) -> bool
    ensures { result ≡ spec.is_symbol b }
{
    matches!(
        b,
        b'+' | b'-'
            | b'*'
            | b'/'
            | b'\\'
            | b'^'
            | b'<'
            | b'>'
            | b'='
            | b'~'
            | b':'
            | b'.'
            | b'?'
            | b'@'
            | b'#'
            | b'&'
            | b'$'
    )
}

#[inline(always)]
fn is_in(class: Class, b: u8) -> bool
    ensures { result ≡ spec.is_in class b }
{
    match class {
        Class::Word => b.is_ascii_alphanumeric() || b == b'_',
        Class::Digit => b.is_ascii_digit(),
        Class::Symbol => is_symbol(b),
        Class::Line => b != b'\n',
    }
}

/// The first place from `at` on whose byte isn't of the class.
#[inline(always)]
pub(crate) fn past(class: Class, text: &[u8], at: usize) -> usize
    requires { at ≤ length text.now }
    ensures value { result ≡ spec.past class text.now at }
    ensures within { (at ≤ result) × (result ≤ length text.now) }
{
    let mut end = at;
    while end < text.len() && is_in(class, text[end]) {
        end += 1;
    }
    end
}

/// Whether layout or the end of the text stands at `at`.
#[inline(always)]
pub(crate) fn ends(text: &[u8], at: usize) -> bool
    ensures { result ≡ spec.ends text.now at }
{
    at >= text.len() || is_layout(text[at])
}

/// The byte at a place; 0 behind the end.
#[inline(always)]
pub(crate) fn byte(text: &[u8], at: usize) -> u8
    ensures { result ≡ slice_index text.now at }
{
    if at < text.len() { text[at] } else { 0 }
}

#[inline(always)]
pub(crate) fn solo(b: u8) -> Option<TokenKind>
    ensures { result ≡ spec.solo b }
{
    match b {
        b'!' => Some(TokenKind::Cut),
        b';' => Some(TokenKind::Semicolon),
        b',' => Some(TokenKind::Comma),
        b'|' => Some(TokenKind::Bar),
        b'(' => Some(TokenKind::Open),
        b')' => Some(TokenKind::Close),
        b'[' => Some(TokenKind::OpenList),
        b']' => Some(TokenKind::CloseList),
        _ => None,
    }
}
