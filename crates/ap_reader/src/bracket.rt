//! Open brackets, counted on the tokens.

ghost use Rattle.std.specs.Prelude.{◌≡◌, ℕ, ◌+◌, ◌^◌, ◌<◌, map};
ghost use Rattle.ap_lexer.specs.Token.{view};
ghost use Rattle.ap_reader.specs.Bracket as spec;

use ap_lexer::{Token, TokenKind};

pub(crate) fn open_after(kind: TokenKind, count: usize) -> usize
    requires { count + 1 < 2 ^ 64 }
    ensures { result ≡ spec.open_after kind count }
{
    match kind {
        TokenKind::Open | TokenKind::OpenList => count + 1,
        TokenKind::Close | TokenKind::CloseList => count.saturating_sub(1),
        _ => count,
    }
}

/// The greatest number of brackets that are open at once. A closing one closes either kind, and
/// counts as nothing where none is open.
pub(crate) fn most_open(tokens: &[Token]) -> usize
    ensures { result ≡ spec.most_open 0 (map view tokens.now) }
{
    let mut most = 0;
    let mut open = 0;
    let mut left = tokens;
    while let [token, rest @ ..] = left {
        open = open_after(token.kind, open);
        most = most.max(open);
        left = rest;
    }
    most
}
