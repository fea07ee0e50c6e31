//! What each token is to the grammar, by the tokens beside it.

ghost use Rattle.std.specs.Prelude.{◌≡◌};
ghost use Rattle.ap_lexer.specs.Lexeme.{number};
ghost use Rattle.ap_lexer.specs.Token.{view};
ghost use Rattle.ap_reader.specs.Word as spec;

use crate::operators::{infix_of, prefix_of};
use ap_lexer::{Token, TokenKind};

/// A token as the grammar sees it. A place is that of the token in its list.
#[derive(Clone, Copy, Debug, PartialEq, Eq)]
pub enum Word {
    /// A variable, or an atom that stands for itself.
    Operand(usize),
    /// An integer of at most 2 ^ 63.
    Number(u64),
    /// A minus directly before an integer, with its priority as infix.
    Sign(usize, u16),
    /// The name of an operator, with its priorities as infix and as prefix; 0 where it has none.
    Operator(usize, u16, u16),
    /// A name directly before `(`, with its priority as infix; 0 where it has none.
    Functor(usize, u16),
    Open,
    Close,
    OpenList,
    CloseList,
    /// A comma that isn't an operand.
    Comma(usize),
    Bar,
    /// What stands in no term.
    Other,
}

fn starts(before: Option<TokenKind>) -> bool
    ensures { result ≡ spec.starts before }
{
    matches!(
        before,
        Some(TokenKind::Open | TokenKind::OpenList | TokenKind::Comma | TokenKind::Bar)
    )
}

fn stops(kind: TokenKind) -> bool
    ensures { result ≡ spec.stops kind }
{
    matches!(
        kind,
        TokenKind::Close | TokenKind::CloseList | TokenKind::Comma | TokenKind::Bar
    )
}

fn stops_after(after: Option<&Token>) -> bool
    ensures { result ≡ spec.after_is spec.stops (spec.seen after.entry) }
{
    match after {
        Some(token) => stops(token.kind),
        None => false,
    }
}

fn touches_open(token: &Token, after: Option<&Token>) -> bool
    ensures { result ≡ spec.touches spec.is_open (view token.now) (spec.seen after.entry) }
{
    match after {
        Some(next) => match next.kind {
            TokenKind::Open => token.to == next.from,
            _ => false,
        },
        None => false,
    }
}

fn touches_integer(token: &Token, after: Option<&Token>) -> bool
    ensures { result ≡ spec.touches spec.is_integer (view token.now) (spec.seen after.entry) }
{
    match after {
        Some(next) => match next.kind {
            TokenKind::Integer => token.to == next.from,
            _ => false,
        },
        None => false,
    }
}

/// A name that isn't a functor.
fn bare_word(at: usize, before: Option<TokenKind>, token: &Token, after: Option<&Token>) -> Word
    ensures { result ≡ spec.bare_word at before (view token.now) (spec.seen after.entry) }
{
    let (infix, prefix) = (infix_of(token.text), prefix_of(token.text));
    if infix == 0 && prefix == 0 || starts(before) && stops_after(after) {
        Word::Operand(at)
    } else if token.text == b"-".as_slice() && touches_integer(token, after) {
        Word::Sign(at, infix)
    } else {
        Word::Operator(at, infix, prefix)
    }
}

#[inline(always)]
pub(crate) fn number_word(digits: &[u8]) -> Word
    ensures { result ≡ spec.number_word (number digits.now) }
{
    match ap_lexer::number(digits) {
        Some(n) => Word::Number(n),
        None => Word::Other,
    }
}

/// A comma, by the kind of the token before it and the one behind it.
#[inline(always)]
pub(crate) fn comma_word(at: usize, before: Option<TokenKind>, after: Option<&Token>) -> Word
    ensures { result ≡ spec.comma_word at before (spec.seen after.entry) }
{
    if starts(before) && stops_after(after) {
        Word::Operand(at)
    } else {
        Word::Comma(at)
    }
}

/// What a token is to the grammar, by the kind of the one before it and the one behind it.
pub(crate) fn word_of(
    at: usize,
    before: Option<TokenKind>,
    token: &Token,
    after: Option<&Token>,
) -> Word
    ensures { result ≡ spec.word_by token.now.kind at before (view token.now) (spec.seen after.entry) }
{
    match token.kind {
        TokenKind::Name | TokenKind::Symbol => {
            if touches_open(token, after) {
                Word::Functor(at, infix_of(token.text))
            } else {
                bare_word(at, before, token, after)
            }
        }
        TokenKind::Quoted => {
            if touches_open(token, after) {
                Word::Functor(at, 0)
            } else {
                Word::Operand(at)
            }
        }
        TokenKind::Comma => comma_word(at, before, after),
        TokenKind::Semicolon => bare_word(at, before, token, after),
        TokenKind::Cut | TokenKind::Variable => Word::Operand(at),
        TokenKind::Integer => number_word(token.text),
        TokenKind::Bar => Word::Bar,
        TokenKind::Open => Word::Open,
        TokenKind::Close => Word::Close,
        TokenKind::OpenList => Word::OpenList,
        TokenKind::CloseList => Word::CloseList,
        TokenKind::End => Word::Other,
    }
}
